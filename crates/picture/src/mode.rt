// The pin configuration, mode A or mode B: how the glass is wired, and the places in the frame that the rows and columns of the
// picture take.
ghost use Rattle.std.specs.Prelude.{◌<◌, ◌≡◌};
ghost use Rattle.picture.specs.Frame.{glass};
ghost use Rattle.picture.specs.Mode.{column_turn, row_turn, upright_of};
ghost use Rattle.picture.specs.engine.Wiring.{Takes, wiring_of};

use crate::frame::COLUMNS;
use crate::pattern::TALL;
use chip::registers::Registers;
use chip::sizes::lines;
use mirror::panel::Panel;

// A chip's glass, turned in mode B: a fact of it, beside no value. The mode's bit (`mode_b`) is read in one word here, and in one
// where wall asks what a picture is made of: shared, that word would be a public function.
#[derive(Clone, Copy)]
pub(crate) struct Wiring {
    pub(crate) chip: u8,
    pub(crate) turned: bool,
}

impl Wiring {
    // As the registers have it.
    pub(crate) fn of(registers: Registers) -> Wiring
        ensures { result ≡ wiring_of registers }
    {
        Wiring {
            chip: registers.chip,
            turned: registers.function & 1 == 1,
        }
    }

    // The row of the frame in which a row of the picture lies.
    pub(crate) fn row_on(self, row: usize) -> usize
        requires { row < (glass self.chip).rows }
        ensures { Takes (row_turn self.chip self.turned) row result }
    {
        if self.turned {
            let last = lines(self.chip) - 1;
            (last - row / TALL) * TALL + row % TALL
        } else {
            row
        }
    }

    // The column of the frame in which a column of the picture lies.
    pub(crate) fn column_on(self, column: usize) -> usize
        requires { column < (glass self.chip).cols }
        ensures { Takes (column_turn self.chip self.turned) column result }
    {
        if self.turned {
            COLUMNS - 1 - column
        } else {
            column
        }
    }
}

// The panel as it would be in mode A.
pub fn upright(panel: Panel) -> Panel
    ensures { result ≡ upright_of panel }
{
    let mut shown = panel;
    shown.sheet.registers.function = panel.sheet.registers.function / 2 * 2;
    shown
}
