// A pattern is eight rows of five dots, read as one thing: an array by value.
ghost use Rattle.std.specs.Prelude.{◌≡◌, ◌≢◌, ◌≤◌, ◌<◌, length, MatchResult};
ghost use Rattle.picture.specs.Pattern.{font_size, font_start, glyph_of, glyph_row, pattern_of, patterns_of, tall};

use chip::address::PatternAddress;
use chip::sizes::{PATTERN_SIZE, ROW_END};
use mirror::answer::Refusal;
use std::array;

// How many rows and columns a pattern has, and how many patterns pattern memory holds.
pub const TALL: usize = 8;

pub const WIDE: usize = 5;

pub const PATTERNS: usize = 4;

// A row whose five dots are all lit.
pub(crate) const FULL: u8 = ROW_END - 1;

// The codes below this one show pattern memory.
pub const FONT_START: u8 = 16;

pub const FONT_SIZE: usize = 1920;

// One of the four patterns.
pub fn pattern(memory: [u8; PATTERN_SIZE], number: u8) -> [u8; TALL]
    ensures { result ≡ pattern_of memory number }
{
    let first = TALL * (number as usize % PATTERNS);
    array::from_fn(|row| PatternAddress((first + row) as u8).read(&memory))
}

// All four, named: a closure over their numbers would have to narrow each.
pub fn patterns(memory: [u8; PATTERN_SIZE]) -> [[u8; TALL]; PATTERNS]
    ensures { result ≡ patterns_of memory }
{
    [
        pattern(memory, 0),
        pattern(memory, 1),
        pattern(memory, 2),
        pattern(memory, 3),
    ]
}

// A font, where the bytes are as many as one has.
pub(crate) fn font_of(bytes: &[u8]) -> Result<&[u8; FONT_SIZE], Refusal>
    ensures { MatchResult result (λ font. (length bytes.now ≡ font_size) × (font.now ≡ bytes.now)) (λ refusal. (length bytes.now ≢ font_size) × (refusal ≡ Refusal.Size)) }
{
    bytes.try_into().map_err(|_| Refusal::Size)
}

// A row of the pattern of a code that the font has.
fn glyph_row(font: &[u8; FONT_SIZE], code: u8, row: usize) -> u8
    requires { (font_start ≤ code) × (row < tall) }
    ensures { result ≡ glyph_row font.now code row }
{
    let first = TALL * (code as usize - FONT_START as usize);
    font[first + row] & FULL
}

// The pattern of a code that the font has.
pub(crate) fn glyph(font: &[u8; FONT_SIZE], code: u8) -> [u8; TALL]
    requires { font_start ≤ code }
    ensures { result ≡ glyph_of font.now code }
{
    array::from_fn(|row| glyph_row(font, code, row))
}
