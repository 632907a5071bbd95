// The frame of a chip: 8 rows of 80 dots for each of its lines, and where each dot lands.
ghost use Rattle.std.specs.Prelude.{◌≡◌, ◌≢◌, eqb, length, MatchResult};
ghost use Rattle.dots.specs.Landing.{dot};
ghost use Rattle.picture.specs.Frame.{FrameSize, Rows, glass, lit_at};
ghost use Rattle.picture.specs.engine.Shown.{Inside, Lands};

use crate::pattern::{TALL, WIDE};
use chip::sizes::{MOST_LINES, POSITIONS, lines};
use mirror::answer::Refusal;

pub const COLUMNS: usize = POSITIONS * WIDE;

pub const ROW_BYTES: usize = COLUMNS / 8;

// The bytes of the largest frame.
pub const MOST_FRAME_SIZE: usize = MOST_LINES * TALL * ROW_BYTES;

// A dot, of a frame or of the picture.
#[derive(Clone, Copy, PartialEq, Eq)]
pub struct Dot {
    pub row: usize,
    pub column: usize,
}

// Where a dot lies: its byte, and which bit of that.
#[derive(Clone, Copy)]
pub struct Place {
    pub byte: usize,
    pub bit: usize,
}

// How many rows of dots a chip shows.
pub fn rows(chip: u8) -> usize
    ensures { Rows chip result }
{
    lines(chip) * TALL
}

// How many bytes a chip's frame has.
pub fn frame_size(chip: u8) -> usize
    ensures { FrameSize chip result }
{
    rows(chip) * ROW_BYTES
}

// Where a dot of the frame lands; of the picture too, in mode A. That the dot is within the glass is asked here, of Glass and of
// Canvas: how far the glass reaches hangs on the chip, which a dot that knew it would carry too.
pub(crate) fn landing(chip: u8, at: Dot) -> Place
    requires { Inside (glass chip) at }
    ensures { Lands chip at.row at.column result }
{
    Place {
        byte: at.row * ROW_BYTES + at.column / 8,
        bit: 7 - at.column % 8,
    }
}

// A frame of the size that the chip's has, read as it lies.
#[derive(Clone, Copy)]
pub(crate) struct Glass<'a> {
    chip: u8,
    frame: &'a [u8],
    ghost sized: { length frame.now ≡ (glass chip).size },
}

impl<'a> Glass<'a> {
    // The frame as the chip's, where its size is.
    pub(crate) fn of(chip: u8, frame: &'a [u8]) -> Result<Glass<'a>, Refusal>
        ensures { MatchResult result (λ g. (g.chip ≡ chip) × (g.frame.now ≡ frame.now)) (λ refusal. (length frame.now ≢ (glass chip).size) × (refusal ≡ Refusal.Size)) }
    {
        if frame.len() != frame_size(chip) {
            return Err(Refusal::Size);
        }
        Ok(Glass { chip, frame })
    }

    // Whether a dot is lit.
    pub(crate) fn lit(&self, at: Dot) -> bool
        requires { Inside (glass self.now.chip) at }
        ensures { result ≡ eqb (dot (glass self.now.chip) self.now.frame.now at.row at.column) 1 }
    {
        let p = landing(self.chip, at);
        (self.frame[p.byte] >> p.bit) & 1 == 1
    }
}

// Whether a dot of a chip's frame is lit: none is outside, nor in a frame of another size. Whoever shows a frame reads it
// here.
pub fn lit_at(chip: u8, frame: &[u8], row: usize, column: usize) -> bool
    ensures { result ≡ lit_at chip frame.now row column }
{
    let Ok(glass) = Glass::of(chip, frame) else {
        return false;
    };
    row < rows(chip) && column < COLUMNS && glass.lit(Dot { row, column })
}
