// Where the dots of a chip's frame stand in a drawing, whose cells stand apart or do not. Columns and rows are spread by the
// same rule: a cell has `size` of them.
ghost use Rattle.std.specs.Prelude.{◌+◌, ◌<◌, ◌≤◌, ◌≡◌};
ghost use Rattle.picture.specs.Frame.{Rows, lit_at};
ghost use Rattle.picture.specs.Pattern.{tall};
ghost use Rattle.wall.specs.Apart.{blank_at, columns_drawn, dot_at, gap_of, is_gap, lit_drawn, rows_drawn};
ghost use Rattle.wall.specs.engine.Apart.{Gap, RowsDrawn};

use chip::sizes::{POSITIONS, lines};
use picture::frame::{COLUMNS, lit_at, rows};
use picture::pattern::{TALL, WIDE};

// The dots of a chip's frame.
#[derive(Clone, Copy)]
pub(crate) struct Dots<'a> {
    pub chip: u8,
    pub frame: &'a [u8],
}

impl Dots<'_> {
    pub(crate) fn rows(&self) -> usize
        ensures { Rows self.now.chip result }
    {
        rows(self.chip)
    }

    pub(crate) fn lit_at(&self, row: usize, column: usize) -> bool
        ensures { result ≡ lit_at self.now.chip self.now.frame.now row column }
    {
        lit_at(self.chip, self.frame, row, column)
    }
}

// The same dots as they are drawn, their cells apart or not.
#[derive(Clone, Copy)]
pub(crate) struct Drawing<'a> {
    pub dots: Dots<'a>,
    pub apart: bool,
}

impl Drawing<'_> {
    // How many blank columns or rows there are between two cells.
    fn gap(&self) -> usize
        ensures { Gap self.now.apart result }
    {
        usize::from(self.apart)
    }

    fn is_gap(&self, size: usize, at: usize) -> bool
        requires { (0 < size) × (size ≤ tall) }
        ensures { result ≡ is_gap (gap_of self.now.apart) size at }
    {
        size <= at % (size + self.gap())
    }

    // Which column or row of the frame is shown there.
    fn dot_shown(&self, size: usize, at: usize) -> usize
        requires { (0 < size) × (size ≤ tall) }
        ensures { result ≡ dot_at (gap_of self.now.apart) size at }
    {
        let pitch = size + self.gap();
        at / pitch * size + at % pitch
    }

    pub(crate) fn columns_drawn(&self) -> usize
        ensures { result ≡ columns_drawn self.now.apart }
    {
        COLUMNS + (POSITIONS - 1) * self.gap()
    }

    pub(crate) fn rows_drawn(&self) -> usize
        ensures { RowsDrawn self.now.apart self.now.dots.chip result }
    {
        self.dots.rows() + (lines(self.dots.chip) - 1) * self.gap()
    }

    fn blank_at(&self, row: usize, column: usize) -> bool
        ensures { result ≡ blank_at self.now.apart row column }
    {
        self.is_gap(TALL, row) || self.is_gap(WIDE, column)
    }

    fn lit_drawn(&self, row: usize, column: usize) -> bool
        ensures { result ≡ lit_drawn self.now.apart self.now.dots.chip self.now.dots.frame.now row column }
    {
        if self.blank_at(row, column) {
            return false;
        }
        self.dots
            .lit_at(self.dot_shown(TALL, row), self.dot_shown(WIDE, column))
    }
}

// A row of a drawing.
#[derive(Clone, Copy)]
pub(crate) struct Row<'a> {
    pub drawing: Drawing<'a>,
    pub at: usize,
    ghost inside: { at < rows_drawn drawing.apart drawing.dots.chip },
}

impl Row<'_> {
    pub(crate) fn blank_at(&self, column: usize) -> bool
        ensures { result ≡ blank_at self.now.drawing.apart self.now.at column }
    {
        self.drawing.blank_at(self.at, column)
    }

    pub(crate) fn lit_drawn(&self, column: usize) -> bool
        ensures { let d = self.now.drawing in result ≡ lit_drawn d.apart d.dots.chip d.dots.frame.now self.now.at column }
    {
        self.drawing.lit_drawn(self.at, column)
    }

    // The same of the row below. Below the last row nothing is lit.
    pub(crate) fn lit_below(&self, column: usize) -> bool
        ensures { let d = self.now.drawing in result ≡ lit_drawn d.apart d.dots.chip d.dots.frame.now (self.now.at + 1) column }
    {
        self.drawing.lit_drawn(self.at + 1, column)
    }
}
