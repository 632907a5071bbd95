// What an instruction code asks for; the chip says how many bits of a display address count.
ghost use Rattle.std.specs.Prelude.{◌≡◌};
ghost use Rattle.chip.specs.Instruction.{decoded};

use crate::address::{Address, DisplayAddress, PatternAddress};
use crate::sizes::{FUNCTION_END, PATTERN_SIZE, places};

#[derive(Clone, Copy)]
pub enum Instruction {
    // 00h, a code like any other: it is carried out, and leaves the sheet as it is.
    Nothing,
    Clear,
    Home,
    // I/D and S.
    Entry { up: bool, follow: bool },
    // D, C and B.
    Screen { on: bool, cursor: bool, blink: bool },
    // The address by one.
    Move { up: bool },
    // The shift by one.
    Shift { left: bool },
    Function { eight: bool, bits: u8 },
    Set(Address),
}

pub fn decode(chip: u8, code: u8) -> Instruction
    ensures { result ≡ decoded chip code }
{
    let bit0 = code % 2 == 1;
    let bit1 = code / 2 % 2 == 1;
    let bit2 = code / 4 % 2 == 1;
    let bit4 = code / 0x10 % 2 == 1;
    match code {
        0x00 => Instruction::Nothing,
        0x01 => Instruction::Clear,
        0x02..=0x03 => Instruction::Home,
        0x04..=0x07 => Instruction::Entry {
            up: bit1,
            follow: bit0,
        },
        0x08..=0x0F => Instruction::Screen {
            on: bit2,
            cursor: bit1,
            blink: bit0,
        },
        0x10..=0x17 => Instruction::Move { up: bit2 },
        0x18..=0x1F => Instruction::Shift { left: !bit2 },
        0x20..=0x3F => Instruction::Function {
            eight: bit4,
            bits: code % FUNCTION_END,
        },
        0x40..=0x7F => Instruction::Set(Address::Pattern(PatternAddress(
            code % PATTERN_SIZE as u8,
        ))),
        _ => Instruction::Set(Address::Display(DisplayAddress(code % places(chip) as u8))),
    }
}
