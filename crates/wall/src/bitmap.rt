// The dots of a chip's frame as a portable bitmap: a row after the other, eight dots to a byte, the leftmost in the highest
// bit.
ghost use Rattle.std.specs.Prelude.{◌<◌, ◌≡◌};
ghost use Rattle.picture.specs.Frame.{glass};
ghost use Rattle.wall.specs.Draw.{bitmap_row, eight_of};
ghost use Rattle.wall.specs.engine.Bitmap.{DotBit};

use crate::apart::Dots;
use desk::print::{show, show_number};
use picture::frame::{COLUMNS, ROW_BYTES};
use std::array;

impl Dots<'_> {
    // A dot as a bit.
    fn bit(&self, row: usize, column: usize) -> u8
        ensures { DotBit self.now.chip self.now.frame.now row column result }
    {
        u8::from(self.lit_at(row, column))
    }

    // Eight dots from a column on, each by its weight, as `eight_of` adds them.
    fn eight(&self, row: usize, left: usize) -> u8
        requires { left < (glass self.now.chip).cols }
        ensures { result ≡ eight_of self.now.chip self.now.frame.now row left }
    {
        let a = 128 * self.bit(row, left) + 64 * self.bit(row, left + 1);
        let b = 32 * self.bit(row, left + 2) + 16 * self.bit(row, left + 3);
        let c = 8 * self.bit(row, left + 4) + 4 * self.bit(row, left + 5);
        let d = 2 * self.bit(row, left + 6) + self.bit(row, left + 7);
        a + b + c + d
    }

    // The bytes of a row.
    fn row_bytes(&self, row: usize) -> [u8; ROW_BYTES]
        ensures { result ≡ bitmap_row self.now.chip self.now.frame.now row }
    {
        array::from_fn(|i| self.eight(row, 8 * i))
    }
}

pub(crate) fn write_bitmap(dots: &Dots<'_>) {
    let high = dots.rows();
    show_number(b"P4\n", COLUMNS as u64);
    show_number(b" ", high as u64);
    show(b"\n");
    for row in 0..high {
        show(&dots.row_bytes(row));
    }
}
