// The dots of a chip's frame, as lines for a terminal.
#![tactic(auto, using(desk::specs::laws::PageLaws::rows, crate::specs::laws::DrawLaws::strings))]

ghost use Rattle.std.specs.Prelude.{◌≡◌};
ghost use Rattle.desk.specs.Page.{Puts};
ghost use Rattle.wall.specs.Draw.{column_bytes, drawing_bytes, edge_bytes, line_bytes, lines_bytes, mark_of, pair_of};
ghost use Rattle.wall.specs.engine.Lines.{LinesDrawn, RowsShown};

use crate::apart::{Drawing, Row};
use desk::page::Page;

// A dot as a mark, which is a space where it is blank.
fn mark(blank: bool, lit: bool) -> u8
    ensures { result ≡ mark_of blank lit }
{
    match (blank, lit) {
        (true, _) => b' ',
        (false, true) => b'#',
        (false, false) => b'.',
    }
}

// Two dots, one above the other: a block of the terminal, which has three bytes, or a space.
fn put_pair(page: &mut Page, upper: bool, lower: bool)
    ensures { Puts (pair_of upper lower) page.old page.new }
{
    match (upper, lower) {
        (true, true) => page.put(&[0xE2, 0x96, 0x88]),
        (true, false) => page.put(&[0xE2, 0x96, 0x80]),
        (false, true) => page.put(&[0xE2, 0x96, 0x84]),
        (false, false) => page.put(b" "),
    }
}

// What a line shows of a column: a mark for its dot, or a block for it and the one below it. `pairs` is no step handed in: how
// many lines there are hangs on it too.
fn put_column(page: &mut Page, row: &Row<'_>, column: usize, pairs: bool)
    ensures { let d = row.now.drawing in Puts (column_bytes d.apart d.dots.chip pairs d.dots.frame.now row.now.at column) page.old page.new }
{
    let upper = row.lit_drawn(column);
    if pairs {
        put_pair(page, upper, row.lit_below(column));
    } else {
        page.put(&[mark(row.blank_at(column), upper)]);
    }
}

// A line, between its two sides.
fn put_line(page: &mut Page, row: &Row<'_>, pairs: bool)
    ensures { let d = row.now.drawing in Puts (line_bytes d.apart d.dots.chip pairs d.dots.frame.now row.now.at) page.old page.new }
{
    page.put(b"|");
    for column in 0..row.drawing.columns_drawn() {
        put_column(page, row, column, pairs);
    }
    page.put(b"|\n");
}

fn put_edge(page: &mut Page, drawing: &Drawing<'_>)
    ensures { Puts (edge_bytes drawing.now.apart) page.old page.new }
{
    page.put(b"+");
    for _ in 0..drawing.columns_drawn() {
        page.put(b"-");
    }
    page.put(b"+\n");
}

// How many rows of dots a line shows.
fn rows_shown(pairs: bool) -> usize
    ensures { RowsShown pairs result }
{
    if pairs { 2 } else { 1 }
}

// How many lines there are; the last one may show a row above nothing.
fn lines_drawn(drawing: &Drawing<'_>, pairs: bool) -> usize
    ensures { LinesDrawn drawing.now.apart drawing.now.dots.chip pairs result }
{
    let shown = rows_shown(pairs);
    (drawing.rows_drawn() + (shown - 1)) / shown
}

// One line for each row of dots, or for each two.
fn put_lines(page: &mut Page, drawing: &Drawing<'_>, pairs: bool)
    ensures { let d = drawing.now in Puts (lines_bytes d.apart d.dots.chip pairs d.dots.frame.now) page.old page.new }
{
    let shown = rows_shown(pairs);
    for line in 0..lines_drawn(drawing, pairs) {
        let row = Row {
            drawing: *drawing,
            at: line * shown,
        };
        put_line(page, &row, pairs);
    }
}

// The drawing: its lines between two edges.
pub(crate) fn put_drawing(page: &mut Page, drawing: &Drawing<'_>, pairs: bool)
    ensures { let d = drawing.now in Puts (drawing_bytes d.apart d.dots.chip pairs d.dots.frame.now) page.old page.new }
{
    put_edge(page, drawing);
    put_lines(page, drawing, pairs);
    put_edge(page, drawing);
}
