// The chip that a word among the arguments names.
ghost use Rattle.std.specs.Prelude.{◌≡◌};
ghost use Rattle.desk.specs.Chips.{chip_named};

use crate::arguments::argument;
use crate::print::{Stopped, complain};
use chip::sizes::{ONE_LINE, TWO_LINES};

// The chip of a name: the last four figures of the part's.
pub fn chip_of(name: &[u8]) -> Option<u8>
    ensures { result ≡ chip_named name.now }
{
    if name == b"6631".as_slice() {
        return Some(ONE_LINE);
    }
    if name == b"6635".as_slice() {
        return Some(TWO_LINES);
    }
    None
}

// The chip that the argument at a place names, for a program; the one-line chip where none was given. Another name
// writes a line.
pub(crate) fn chip_at(
    rt: &HostRuntime,
    program: &[u8],
    place: Option<usize>,
) -> Result<u8, Stopped> {
    let Some(place) = place else {
        return Ok(ONE_LINE);
    };
    chip_of(argument(rt, place).as_slice()).ok_or_else(|| complain(
        program,
        b"the chip is 6631 or 6635",
    ))
}
