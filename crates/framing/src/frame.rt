// What stands at the front of a log, and how many bytes it takes up.
ghost use Rattle.std.specs.Prelude.{◌≡◌};
ghost use Rattle.framing.specs.Frame.{size_of};

// What stands at the front of a slice.
#[derive(Clone, Copy)]
pub enum Frame {
    // No whole record: a case of the rules beside a bad one, with an answer of its own, so it is no None.
    Cut,
    // A record that can't be used, and its size with the length's own two bytes.
    Bad(usize),
    // By name, and no type of its own: the mirror's promises that its time is in time, which an account cannot promise of a half
    // that is handed in, and the account's has methods that only the account can give it.
    Transfer {
        time: u64,
        rs: bool,
        rw: bool,
        data: u8,
    },
    Reset {
        time: u64,
    },
}

impl Frame {
    // The bytes that it takes up: 0 for a cut, which the rules count as using none.
    pub fn size(self) -> usize
        ensures { result ≡ size_of self }
    {
        match self {
            Frame::Cut => 0,
            Frame::Bad(size) => size,
            Frame::Transfer { .. } => 14,
            Frame::Reset { .. } => 12,
        }
    }
}
