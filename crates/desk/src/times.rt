// The execution times, in microseconds: those that a program takes where it is told no others, and those that it is told.
ghost use Rattle.std.specs.Prelude.{◌≡◌};
ghost use Rattle.desk.specs.Number.{decimal_of};
ghost use Rattle.desk.specs.Times.{longest, times_of};

use crate::arguments::argument;
use crate::number::number_of;
use crate::print::{Stopped, complain};
use mirror::panel::Times;

pub const RESET: u16 = 10000;

pub const LONG: u16 = 1640;

pub const SHORT: u16 = 40;

const USUAL: Times = Times {
    reset: RESET,
    long: LONG,
    short: SHORT,
};

// The longest of sixteen bits.
const LONGEST: u64 = 65535;

#[tactic(auto, using(crate::specs::laws::NumberLaws::not_above))]
fn time_of(word: &[u8]) -> Option<u16>
    ensures { result ≡ decimal_of word.now longest }
{
    let time = number_of(word, LONGEST)?;
    Some(time as u16)
}

// The times that three words write.
pub fn times_of(reset: &[u8], long: &[u8], short: &[u8]) -> Option<Times>
    ensures { result ≡ times_of reset.now long.now short.now }
{
    Some(Times {
        reset: time_of(reset)?,
        long: time_of(long)?,
        short: time_of(short)?,
    })
}

// The times that the three arguments from a place on write, for a program; the usual ones where none were given. What
// is no time writes a line.
pub(crate) fn times_at(
    rt: &HostRuntime,
    program: &[u8],
    place: Option<usize>,
) -> Result<Times, Stopped> {
    let Some(place) = place else {
        return Ok(USUAL);
    };
    let reset = argument(rt, place);
    let long = argument(rt, place.wrapping_add(1));
    let short = argument(rt, place.wrapping_add(2));
    times_of(reset.as_slice(), long.as_slice(), short.as_slice()).ok_or_else(|| complain(
        program,
        b"times takes three numbers of at most 65535",
    ))
}
