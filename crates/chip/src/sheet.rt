// The whole sheet by value: the state that the meaning speaks of, and its part of soundness.
ghost use Rattle.std.specs.Prelude.{◌≡◌};
ghost use Rattle.chip.specs.Sheet.{fresh_sheet};
ghost use Rattle.chip.specs.Sound.{address_fits, pattern_fits, blank_past, sound_sheet};

use crate::address::Address;
use crate::registers::Registers;
use crate::sizes::{
    DISPLAY_SIZE, FUNCTION_END, PATTERN_SIZE, POSITIONS, ROW_END, SPACE, known, places,
};
use crate::written::written_in;

#[derive(Clone, Copy)]
pub struct Sheet {
    pub registers: Registers,
    pub display: [u8; DISPLAY_SIZE],
    pub pattern: [u8; PATTERN_SIZE],
}

impl Address {
    // Whether the address lies in its memory.
    pub fn fits(self, chip: u8) -> bool
        ensures { result ≡ address_fits chip self }
    {
        match self {
            Address::Display(d) => (d.0 as usize) < places(chip),
            Address::Pattern(p) => (p.0 as usize) < PATTERN_SIZE,
        }
    }
}

// Whether display memory past the chip's own places is blank.
pub fn blank_past(chip: u8, display: [u8; DISPLAY_SIZE]) -> bool
    ensures { result ≡ blank_past chip display }
{
    display.iter().skip(places(chip)).all(|&byte| byte == SPACE)
}

// Whether every entry has five bits.
pub fn pattern_fits(pattern: [u8; PATTERN_SIZE]) -> bool
    ensures { result ≡ pattern_fits pattern }
{
    pattern.iter().all(|&row| row < ROW_END)
}

impl Sheet {
    pub fn fresh(chip: u8) -> Sheet
        ensures { result ≡ fresh_sheet chip }
    {
        let mut display = [0; DISPLAY_SIZE];
        let mut pattern = [0; PATTERN_SIZE];
        let registers = Registers::fresh(chip, &mut display, &mut pattern);
        Sheet {
            registers,
            display,
            pattern,
        }
    }

    pub fn sound(self) -> bool
        ensures { result ≡ sound_sheet self }
    {
        let r = self.registers;
        known(r.chip)
            && r.address.fits(r.chip)
            && (r.shift as usize) < POSITIONS
            && r.function < FUNCTION_END
            && blank_past(r.chip, self.display)
            && r.written == written_in(self.display)
            && pattern_fits(self.pattern)
    }
}
