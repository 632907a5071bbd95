// The codes that the screen shows, in its own order.
ghost use Rattle.std.specs.Prelude.{◌≡◌};
ghost use Rattle.picture.specs.Picture.{code_at, codes_of};

use chip::address::DisplayAddress;
use chip::sheet::Sheet;
use chip::sizes::{POSITIONS, lines};
use std::array;

// The code that a position of a line shows: that of the line's display address as many further on as the shift says.
pub fn code_at(sheet: Sheet, line: usize, at: usize) -> u8
    ensures { result ≡ code_at sheet line at }
{
    code_in(&sheet, line, at)
}

// The same of a sheet that is lent: the painter asks for each position, and a copy each time would cost it a twentieth.
pub(crate) fn code_in(sheet: &Sheet, line: usize, at: usize) -> u8
    ensures { result ≡ code_at sheet.now line at }
{
    let registers = sheet.registers;
    let first = line % lines(registers.chip) * POSITIONS;
    let place = first + (at % POSITIONS + registers.shift as usize) % POSITIONS;
    DisplayAddress(place as u8).read(registers.chip, &sheet.display)
}

// The codes of a line from the left end of the screen to its right.
pub fn codes(sheet: Sheet, line: usize) -> [u8; POSITIONS]
    ensures { result ≡ codes_of sheet line }
{
    array::from_fn(|at| code_at(sheet, line, at))
}
