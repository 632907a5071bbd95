// Where the cursor stands on the screen, and whether it is shown.
ghost use Rattle.std.specs.Prelude.{◌≡◌};
ghost use Rattle.picture.specs.Cursor.{cursor_here, cursor_of, line_of, position_of, spot_of};

use chip::address::Address;
use chip::registers::Registers;
use chip::sizes::{POSITIONS, lines};

// A place on the screen.
#[derive(Clone, Copy, PartialEq, Eq)]
pub struct Spot {
    pub line: usize,
    pub position: usize,
}

// The screen line of an address. Here and in `position` alone a pattern address counts as a place on the screen.
pub fn line(chip: u8, address: Address) -> usize
    ensures { result ≡ line_of chip address }
{
    address.number(chip) as usize / POSITIONS % lines(chip)
}

// The position of an address on its line.
pub fn position(chip: u8, address: Address, shift: u8) -> usize
    ensures { result ≡ position_of chip address shift }
{
    let shift = shift as usize % POSITIONS;
    (address.number(chip) as usize + (POSITIONS - shift)) % POSITIONS
}

// The cursor's place, shown or not.
pub(crate) fn place(registers: Registers) -> Spot
    ensures { result ≡ spot_of registers }
{
    Spot {
        line: line(registers.chip, registers.address),
        position: position(registers.chip, registers.address, registers.shift),
    }
}

// Whether the cursor's place, shown or not, is this one.
pub(crate) fn here(registers: Registers, at: Spot) -> bool
    ensures { result ≡ cursor_here registers at.line at.position }
{
    at == place(registers)
}

// The cursor that the registers show, as a row of dots or as a blink.
pub fn shown(registers: Registers) -> Option<Spot>
    ensures { result ≡ cursor_of registers }
{
    (registers.on & (registers.cursor | registers.blink)).then_some(place(registers))
}
