// The sizes, each by its own name. Those that differ from chip to chip are functions of the chip's number.
ghost use Rattle.std.specs.Prelude.{◌≡◌};
ghost use Rattle.chip.specs.Sizes.{is_known, lines_of, Places};

// The NJU6631A, of one line, and the NJU6635, of two. A chip is a number and no enum: a panel of any other number can be made,
// and is refused.
pub const ONE_LINE: u8 = 31;

pub const TWO_LINES: u8 = 35;

// The most lines of a chip, and the positions of a line: the shift goes round as many.
pub const MOST_LINES: usize = 2;

pub const POSITIONS: usize = 16;

// How many places each memory has; a chip of fewer lines leaves the last ones of display memory alone.
pub const DISPLAY_SIZE: usize = MOST_LINES * POSITIONS;

pub const PATTERN_SIZE: usize = 32;

// A row of a pattern is five dots, a number below this.
pub const ROW_END: u8 = 32;

// The Function Set bits that are kept are four, a number below this.
pub const FUNCTION_END: u8 = 16;

// What display memory holds where nothing is written.
pub const SPACE: u8 = 0x20;

// Whether a chip is one of the two.
pub fn known(chip: u8) -> bool
    ensures { result ≡ is_known chip }
{
    matches!(chip, ONE_LINE | TWO_LINES)
}

// How many lines a chip shows; one that is not known counts as one line.
pub fn lines(chip: u8) -> usize
    ensures { result ≡ lines_of chip }
{
    if chip == TWO_LINES { 2 } else { 1 }
}

// How many places of display memory a chip has.
pub fn places(chip: u8) -> usize
    ensures { Places chip result }
{
    lines(chip) * POSITIONS
}
