// A frame that is painted on. It is painted by cells, a cell by columns, a column dot by dot.
ghost use Rattle.std.specs.Prelude.{◌≡◌, ◌<◌, ◌*◌, length, replicate};
ghost use Rattle.chip.specs.Sizes.{lines_of, positions};
ghost use Rattle.laws.specs.Bit.{one};
ghost use Rattle.dots.specs.engine.Cells.{put};
ghost use Rattle.picture.specs.Pattern.{tall, wide};
ghost use Rattle.picture.specs.engine.Shown.{Inside, cell_put, column_put};
ghost use Rattle.picture.specs.engine.Wiring.{wired};

use crate::cursor::Spot;
use crate::frame::{Dot, landing};
use crate::mode::Wiring;
use crate::pattern::{TALL, WIDE};

// The frame that a painting is lent, of the size that the chip's glass has, and how that is wired.
#[derive(Drop)]
pub(crate) struct Canvas<'a> {
    pub(crate) wiring: Wiring,
    pub(crate) frame: &'a mut [u8],
    ghost sized: { length frame.now ≡ (wired wiring).size },
}

impl Canvas<'_> {
    ghost use Rattle.picture.specs.engine.Canvas.{Drawn};

    // Every bit 0.
    pub(crate) fn clear(&mut self)
        ensures { Drawn self.old self.new (replicate (wired self.old.wiring).size 0) }
    {
        self.frame.fill(0);
    }

    // Lights one dot of the picture, if it is lit, in the place that it takes on the glass.
    fn put_dot(&mut self, at: Dot, lit: bool)
        requires { Inside (wired self.old.wiring) at }
        ensures { Drawn self.old self.new (put (wired self.old.wiring) self.old.frame.now at.row at.column (one lit)) }
    {
        let wiring = self.wiring;
        let on = Dot {
            row: wiring.row_on(at.row),
            column: wiring.column_on(at.column),
        };
        let p = landing(wiring.chip, on);
        self.frame[p.byte] |= u8::from(lit) << p.bit;
    }

    // Paints column c of the cell at a spot. That its line is one of the chip's is asked here, of put_cell and of put_line: how many
    // there are hangs on the chip, which a spot that knew it would carry too.
    fn put_column(&mut self, at: Spot, c: usize, rows: [u8; TALL])
        requires { (at.line < lines_of self.old.wiring.chip) × (at.position < positions) × (c < wide) }
        ensures { Drawn self.old self.new (column_put (wired self.old.wiring) rows (at.line * tall) (at.position * wide) c self.old.frame.now) }
    {
        for (i, row) in rows.iter().enumerate() {
            let dot = Dot {
                row: at.line * TALL + i,
                column: at.position * WIDE + c,
            };
            self.put_dot(dot, (row >> (WIDE - 1 - c)) & 1 == 1);
        }
    }

    // Paints the cell at a spot: by columns, which is faster than by rows (docs/DECISIONS.md, "Speed").
    pub(crate) fn put_cell(&mut self, at: Spot, rows: [u8; TALL])
        requires { (at.line < lines_of self.old.wiring.chip) × (at.position < positions) }
        ensures { Drawn self.old self.new (cell_put (wired self.old.wiring) rows (at.line * tall) (at.position * wide) self.old.frame.now) }
    {
        for c in 0..WIDE {
            self.put_column(at, c, rows);
        }
    }
}
