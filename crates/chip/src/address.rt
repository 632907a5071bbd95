// The two counts. A display address and a pattern address are numbers of their own types, and these are the only
// functions that index a memory.
ghost use Rattle.std.specs.Prelude.{◌≡◌, ◌%◌, ◌<◌, ◌≤◌};
ghost use Rattle.laws.specs.Ring.{moved};
ghost use Rattle.chip.specs.Sizes.{places_of, pattern_size};
ghost use Rattle.chip.specs.Address.{moved_display, moved_pattern, moved_address, in_display, read_display, written_display, read_pattern, written_pattern, address_number};

use crate::sizes::{DISPLAY_SIZE, PATTERN_SIZE, ROW_END, places};

#[derive(Clone, Copy)]
pub struct DisplayAddress(pub u8);

#[derive(Clone, Copy)]
pub struct PatternAddress(pub u8);

#[derive(Clone, Copy)]
pub enum Address {
    Display(DisplayAddress),
    Pattern(PatternAddress),
}

// One place up or down round a ring of so many places. Handed the size as it is asked of the chip, the compiler sees that it
// is a power of two, and divides by none.
pub(crate) fn step_round(at: u8, size: usize, up: bool) -> u8
    requires { (0 < size) × (size ≤ 256) }
    ensures { result ≡ moved size up at }
{
    if up {
        ((at as usize + 1) % size) as u8
    } else {
        ((at as usize + (size - 1)) % size) as u8
    }
}

impl DisplayAddress {
    // One place up or down, round the places that the chip has.
    pub fn moved(self, chip: u8, up: bool) -> DisplayAddress
        ensures { result ≡ moved_display chip up self }
    {
        DisplayAddress(step_round(self.0, places(chip), up))
    }

    // Its place in display memory: it counts round the places that the chip has.
    pub(crate) fn place(self, chip: u8) -> usize
        ensures { result ≡ self.0 % places_of chip }
    {
        self.0 as usize % places(chip)
    }

    // What display memory holds at this address.
    pub fn read(self, chip: u8, display: &[u8; DISPLAY_SIZE]) -> u8
        ensures { result ≡ read_display chip self display.now }
    {
        display[self.place(chip)]
    }

    pub fn write(self, chip: u8, byte: u8, display: &mut [u8; DISPLAY_SIZE])
        ensures { display.new ≡ written_display chip self byte display.old }
    {
        display[self.place(chip)] = byte;
    }
}

// Beside a display address: its size is the same on every chip, and an entry keeps five bits of a byte. So no chip is asked
// for, and a trait over both would be longer than these bodies of one line.
impl PatternAddress {
    pub fn moved(self, up: bool) -> PatternAddress
        ensures { result ≡ moved_pattern up self }
    {
        PatternAddress(step_round(self.0, PATTERN_SIZE, up))
    }

    // Its place in pattern memory.
    pub(crate) fn place(self) -> usize
        ensures { result ≡ self.0 % pattern_size }
    {
        self.0 as usize % PATTERN_SIZE
    }

    // What pattern memory holds at this address: five bits.
    pub fn read(self, pattern: &[u8; PATTERN_SIZE]) -> u8
        ensures { result ≡ read_pattern self pattern.now }
    {
        pattern[self.place()] % ROW_END
    }

    pub fn write(self, byte: u8, pattern: &mut [u8; PATTERN_SIZE])
        ensures { pattern.new ≡ written_pattern self byte pattern.old }
    {
        pattern[self.place()] = byte % ROW_END;
    }
}

impl Address {
    // The address as a status read shows it.
    pub fn number(self, chip: u8) -> u8
        ensures { result ≡ address_number chip self }
    {
        match self {
            Address::Display(d) => d.place(chip) as u8,
            Address::Pattern(p) => p.place() as u8,
        }
    }

    // Whether it points into display memory.
    pub fn in_display(self) -> bool
        ensures { result ≡ in_display self }
    {
        matches!(self, Address::Display(_))
    }

    pub fn moved(self, chip: u8, up: bool) -> Address
        ensures { result ≡ moved_address chip up self }
    {
        match self {
            Address::Display(d) => Address::Display(d.moved(chip, up)),
            Address::Pattern(p) => Address::Pattern(p.moved(up)),
        }
    }
}
