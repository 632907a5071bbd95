// The waiting half: one state has one writing. Empty stands beside the other two and is no None around them: the rules ask of all
// three at one place (`half_fits`), and a match would have to say Some of each.
#[derive(Clone, Copy)]
pub enum Half {
    Empty,
    // A first half that came while the chip was busy.
    Ignored { rs: bool, rw: bool },
    // One nibble: the high half that was written, or the low half that is still to be read.
    Waiting { rs: bool, rw: bool, nibble: u8 },
}
