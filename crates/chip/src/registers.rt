// The steps. Each is a method on the registers by value that is lent the memory it touches, so that nothing large is
// copied; together with the memories as they then stand, the answer is the meaning's step of the whole sheet. The memories are
// two arguments and no struct: most steps are lent display memory alone, and so cannot touch pattern memory.
ghost use Rattle.std.specs.Prelude.{◌≡◌};
ghost use Rattle.chip.specs.Sheet.{Starts, Steps, StepsDisplay, StepsBoth, fresh_sheet, read_here};
ghost use Rattle.chip.specs.Step.{cleared, homed, entered, screen_set, stepped, shifted, function_set, address_set, next_good, marked_at, followed, written, passed, acted, obeyed};

use crate::address::{Address, DisplayAddress, step_round};
use crate::instruction::{Instruction, decode};
use crate::sizes::{DISPLAY_SIZE, PATTERN_SIZE, POSITIONS, SPACE};
use crate::written::with_bit;

// All of the sheet but its memories.
#[derive(Clone, Copy)]
pub struct Registers {
    // The chip's number, which no step changes.
    pub chip: u8,
    pub address: Address,
    pub shift: u8,
    // I/D: up is 1.
    pub up: bool,
    // S: a display write shifts the display.
    pub follow: bool,
    // D, C and B.
    pub on: bool,
    pub cursor: bool,
    pub blink: bool,
    // The width is 8; otherwise it is 4.
    pub eight: bool,
    // The low four Function Set bits.
    pub function: u8,
    // Whether the next read is good.
    pub good: bool,
    // Which places are written: bit a is display address a.
    pub written: u32,
}

impl Registers {
    // A fresh sheet of a chip, in the memories lent.
    pub fn fresh(
        chip: u8,
        display: &mut [u8; DISPLAY_SIZE],
        pattern: &mut [u8; PATTERN_SIZE],
    ) -> Registers
        ensures { Starts (fresh_sheet chip) result display.new pattern.new }
    {
        *display = [SPACE; DISPLAY_SIZE];
        *pattern = [0; PATTERN_SIZE];
        Registers {
            chip,
            address: Address::Display(DisplayAddress(0)),
            shift: 0,
            up: true,
            follow: false,
            on: false,
            cursor: false,
            blink: false,
            eight: true,
            function: 0,
            good: false,
            written: 0,
        }
    }

    // Home, with I/D set and no place written; S stays.
    pub fn clear(mut self, display: &mut [u8; DISPLAY_SIZE]) -> Registers
        ensures { StepsDisplay cleared self display.old result display.new }
    {
        *display = [SPACE; DISPLAY_SIZE];
        self.up = true;
        self.written = 0;
        self.home()
    }

    pub fn home(self) -> Registers
        ensures { Steps homed self result }
    {
        Registers {
            address: Address::Display(DisplayAddress(0)),
            shift: 0,
            ..self
        }
    }

    pub fn entry_mode(self, up: bool, follow: bool) -> Registers
        ensures { Steps (entered up follow) self result }
    {
        Registers { up, follow, ..self }
    }

    pub fn screen(self, on: bool, cursor: bool, blink: bool) -> Registers
        ensures { Steps (screen_set on cursor blink) self result }
    {
        Registers {
            on,
            cursor,
            blink,
            ..self
        }
    }

    // The address by one, within its memory.
    pub fn step(self, up: bool) -> Registers
        ensures { Steps (stepped up) self result }
    {
        Registers {
            address: self.address.moved(self.chip, up),
            ..self
        }
    }

    // The shift by one: left is up.
    pub fn shift_by_one(self, left: bool) -> Registers
        ensures { Steps (shifted left) self result }
    {
        Registers {
            shift: step_round(self.shift, POSITIONS, left),
            ..self
        }
    }

    pub fn function_set(self, eight: bool, bits: u8) -> Registers
        ensures { Steps (function_set eight bits) self result }
    {
        Registers {
            eight,
            function: bits,
            ..self
        }
    }

    pub fn set(self, address: Address) -> Registers
        ensures { Steps (address_set address) self result }
    {
        Registers { address, ..self }
    }

    // A read right after this is good, or it is not.
    pub fn next_good(self, good: bool) -> Registers
        ensures { Steps (next_good good) self result }
    {
        Registers { good, ..self }
    }

    pub fn act(self, i: Instruction, display: &mut [u8; DISPLAY_SIZE]) -> Registers
        ensures { StepsDisplay (acted i) self display.old result display.new }
    {
        match i {
            Instruction::Nothing => self,
            Instruction::Clear => self.clear(display).next_good(false),
            Instruction::Home => self.home().next_good(false),
            Instruction::Entry { up, follow } => self.entry_mode(up, follow).next_good(false),
            Instruction::Screen { on, cursor, blink } => {
                self.screen(on, cursor, blink).next_good(false)
            }
            Instruction::Move { up } => self.step(up).next_good(self.address.in_display()),
            Instruction::Shift { left } => self.shift_by_one(left),
            Instruction::Function { eight, bits } => {
                self.function_set(eight, bits).next_good(false)
            }
            Instruction::Set(a) => self.set(a).next_good(true),
        }
    }

    // The dispatch over all 256 codes. 00h leaves the sheet as it is.
    pub fn obey(self, code: u8, display: &mut [u8; DISPLAY_SIZE]) -> Registers
        ensures { StepsDisplay (obeyed code) self display.old result display.new }
    {
        self.act(decode(self.chip, code), display)
    }

    // The byte at the address: what a data read puts on the bus.
    pub fn here(self, display: &[u8; DISPLAY_SIZE], pattern: &[u8; PATTERN_SIZE]) -> u8
        ensures { result ≡ read_here self display.now pattern.now }
    {
        match self.address {
            Address::Display(d) => d.read(self.chip, display),
            Address::Pattern(p) => p.read(pattern),
        }
    }

    // The display shifts with the address where told: left if I/D = 1, right if 0.
    fn followed(self, shifts: bool) -> Registers
        ensures { Steps (followed shifts) self result }
    {
        if shifts {
            self.shift_by_one(self.up)
        } else {
            self
        }
    }

    // A data read moves the address, good or not, and never shifts.
    pub fn read(self) -> Registers
        ensures { Steps passed self result }
    {
        self.step(self.up).next_good(true).followed(false)
    }

    // The bit of a place, as display memory now has it.
    fn mark(self, at: DisplayAddress, display: &[u8; DISPLAY_SIZE]) -> Registers
        ensures { Steps (marked_at at display.now) self result }
    {
        let set = at.read(self.chip, display) != SPACE;
        Registers {
            written: with_bit(self.written, at.place(self.chip), set),
            ..self
        }
    }

    // A data write shifts with S = 1, and in display memory alone.
    pub fn write(
        self,
        byte: u8,
        display: &mut [u8; DISPLAY_SIZE],
        pattern: &mut [u8; PATTERN_SIZE],
    ) -> Registers
        ensures { StepsBoth (written byte) self display.old pattern.old result display.new pattern.new }
    {
        let moved = self.step(self.up).next_good(false);
        match self.address {
            Address::Display(d) => {
                d.write(self.chip, byte, display);
                moved.mark(d, display).followed(self.follow)
            }
            Address::Pattern(p) => {
                p.write(byte, pattern);
                moved.followed(false)
            }
        }
    }
}
