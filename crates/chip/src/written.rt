// Which places are written: one bit for each display address, 1 exactly when its byte isn't 20h.
ghost use Rattle.std.specs.Prelude.{◌≡◌, ◌<◌};
ghost use Rattle.laws.specs.Bit.{with_bit};
ghost use Rattle.chip.specs.Sizes.{display_size};
ghost use Rattle.chip.specs.Written.{written_in};

use crate::sizes::{DISPLAY_SIZE, SPACE};

// The walk over display memory.
#[tactic(auto, using(crate::proofs::laws::WrittenLaws::walk))]
pub(crate) fn written_in(display: [u8; DISPLAY_SIZE]) -> u32
    ensures { result ≡ written_in display_size display }
{
    display
        .iter()
        .rev()
        .fold(0, |bits, &byte| bits << 1 | u32::from(byte != SPACE))
}

// The bits with that of one place as told, and all others as they were: cleared, and set anew (docs/DECISIONS.md, "Speed").
#[tactic(auto, using(crate::proofs::laws::WrittenLaws::anew))]
pub(crate) fn with_bit(bits: u32, place: usize, set: bool) -> u32
    requires { place < display_size }
    ensures { result ≡ with_bit display_size place set bits }
{
    let bit: u32 = 1 << place;
    ((bits | bit) ^ bit) | (u32::from(set) << place)
}
