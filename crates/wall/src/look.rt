// What a picture and the lines beneath it are made of, and whether two pictures are made of the same.
ghost use Rattle.std.specs.Prelude.{◌≡◌};
ghost use Rattle.wall.specs.Look.{Alike, look_of};

use chip::sheet::Sheet;
use chip::sizes::{DISPLAY_SIZE, PATTERN_SIZE};
use picture::cursor::{Spot, shown};

#[derive(Clone, Copy, PartialEq, Eq)]
pub struct Look {
    pub chip: u8,
    pub shift: u8,
    // D, C and B, and whether the glass is in mode B: facts of the picture, beside no value.
    pub on: bool,
    pub cursor: bool,
    pub blink: bool,
    pub turned: bool,
    // The cursor's place, where it is shown.
    pub place: Option<Spot>,
    pub display: [u8; DISPLAY_SIZE],
    pub pattern: [u8; PATTERN_SIZE],
}

pub(crate) fn look_of(sheet: Sheet) -> Look
    ensures { result ≡ look_of sheet }
{
    let registers = sheet.registers;
    let place = shown(registers);
    let display = sheet.display;
    let pattern = sheet.pattern;
    Look {
        chip: registers.chip,
        shift: registers.shift,
        on: registers.on,
        cursor: registers.cursor,
        blink: registers.blink,
        turned: registers.function & 1 == 1,
        place,
        display,
        pattern,
    }
}

// Whether the pictures are made of the same.
pub(crate) fn alike(a: Look, b: Look) -> bool
    ensures { Alike a b result }
{
    a == b
}
