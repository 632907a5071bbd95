// The dots of a chip's frame as squares, with the text beneath them: an SVG file that needs nothing else.
#![tactic(auto, using(desk::specs::laws::PageLaws::rows, crate::specs::laws::DrawLaws::strings))]

ghost use Rattle.std.specs.Prelude.{◌<◌, ◌≡◌, true};
ghost use Rattle.chip.specs.Sizes.{most_lines};
ghost use Rattle.desk.specs.Page.{Puts};
ghost use Rattle.picture.specs.Pattern.{tall};
ghost use Rattle.wall.specs.Apart.{columns_drawn, gap_of, span_of};
ghost use Rattle.wall.specs.Svg.{all_squares, decimal_bytes, dot_bytes, escaped_of, escaped_text, row_squares, square_bytes};

use crate::apart::{Dots, Drawing, Row};
use crate::codes::characters;
use chip::sheet::Sheet;
use chip::sizes::{POSITIONS, lines};
use desk::page::Page;
use picture::screen::codes;

// A number of at most three digits. Its digits are said one by one (`decimal_bytes`), where `put_number` says that they are some
// decimal's.
pub(crate) fn put_decimal(page: &mut Page, n: usize)
    ensures { Puts (decimal_bytes n) page.old page.new }
{
    let ones = text::digit((n % 10) as u8);
    if n < 10 {
        return page.put(&[ones]);
    }
    let tens = text::digit((n / 10 % 10) as u8);
    if n < 100 {
        return page.put(&[tens, ones]);
    }
    let hundreds = text::digit((n / 100 % 10) as u8);
    page.put(&[hundreds, tens, ones]);
}

fn put_square(page: &mut Page, row: usize, column: usize)
    requires { (row < span_of (gap_of true) tall most_lines) × (column < columns_drawn true) }
    ensures { Puts (square_bytes row column) page.old page.new }
{
    page.put(b"M");
    put_decimal(page, 12 + 4 * column);
    page.put(b" ");
    put_decimal(page, 12 + 4 * row);
    page.put(b"h3v3h-3z");
}

// The square of a dot that is lit, or of one that is not.
fn put_dot(page: &mut Page, row: &Row<'_>, column: usize, lit: bool)
    requires { column < columns_drawn row.now.drawing.apart }
    ensures { let d = row.now.drawing in Puts (dot_bytes d.apart d.dots.chip d.dots.frame.now lit row.now.at column) page.old page.new }
{
    if !row.blank_at(column) && row.lit_drawn(column) == lit {
        put_square(page, row.at, column);
    }
}

fn put_row(page: &mut Page, row: &Row<'_>, lit: bool)
    ensures { let d = row.now.drawing in Puts (row_squares d.apart d.dots.chip d.dots.frame.now lit row.now.at) page.old page.new }
{
    for column in 0..row.drawing.columns_drawn() {
        put_dot(page, row, column, lit);
    }
}

// The drawing, its cells apart.
fn spread<'a>(dots: &Dots<'a>) -> Drawing<'a>
    ensures apart { result.apart ≡ true }
    ensures same { result.dots ≡ dots.now }
{
    Drawing {
        dots: *dots,
        apart: true,
    }
}

fn put_squares(page: &mut Page, dots: &Dots<'_>, lit: bool)
    ensures { Puts (all_squares dots.now.chip dots.now.frame.now lit) page.old page.new }
{
    let drawing = spread(dots);
    for at in 0..drawing.rows_drawn() {
        put_row(page, &Row { drawing, at }, lit);
    }
}

// A character that means something to a browser has a name.
fn put_escaped(page: &mut Page, character: u8)
    ensures { Puts (escaped_of character) page.old page.new }
{
    match character {
        b'<' => page.put(b"&lt;"),
        b'>' => page.put(b"&gt;"),
        b'&' => page.put(b"&amp;"),
        _ => page.put(&[character]),
    }
}

fn put_text(page: &mut Page, codes: [u8; POSITIONS])
    ensures { Puts (escaped_text codes) page.old page.new }
{
    for character in characters(codes) {
        put_escaped(page, character);
    }
}

// The paper, which is white, and the frame around the dots. In millimetres it fits on a page of paper too.
fn put_heading(page: &mut Page, lines: usize) {
    page.put(b"<svg xmlns=\"http://www.w3.org/2000/svg\" ");
    if 1 < lines {
        page.put(
            b"width=\"161.2mm\" height=\"52mm\" viewBox=\"0 0 403 130\">\n\
            <title>What the glass showed</title>\n\
            <rect width=\"403\" height=\"130\" fill=\"#fff\"/>\n\
            <rect x=\"6\" y=\"6\" width=\"391\" height=\"79\" fill=\"none\" stroke=\"#111\"/>\n",
        );
    } else {
        page.put(
            b"width=\"161.2mm\" height=\"30.4mm\" viewBox=\"0 0 403 76\">\n\
            <title>What the glass showed</title>\n\
            <rect width=\"403\" height=\"76\" fill=\"#fff\"/>\n\
            <rect x=\"6\" y=\"6\" width=\"391\" height=\"43\" fill=\"none\" stroke=\"#111\"/>\n",
        );
    }
}

// How the dots that are lit look, nearly black, and those that are not, faint.
fn look(lit: bool) -> &'static str {
    if lit {
        "class=\"lit\" fill=\"#111\""
    } else {
        "class=\"unlit\" fill=\"#ddd\""
    }
}

fn put_path(page: &mut Page, dots: &Dots<'_>, lit: bool) {
    page.put(b"<path ");
    page.put(look(lit).as_bytes());
    page.put(b" d=\"");
    put_squares(page, dots, lit);
    page.put(b"\"/>\n");
}

// What a line shows, as text whose gaps are kept.
fn put_caption(page: &mut Page, codes: [u8; POSITIONS], y: usize) {
    page.put(b"<text x=\"12\" y=\"");
    put_decimal(page, y);
    page.put(
        b"\" font-family=\"monospace\" font-size=\"14\" fill=\"#111\" xml:space=\"preserve\">",
    );
    put_text(page, codes);
    page.put(b"</text>\n");
}

// Beneath the frame, one line after the other.
fn put_captions(page: &mut Page, sheet: Sheet, dots: &Dots<'_>) {
    let first = 33 + 4 * spread(dots).rows_drawn();
    for line in 0..lines(dots.chip) {
        put_caption(page, codes(sheet, line), first + 18 * line);
    }
}

pub(crate) fn write_svg(sheet: Sheet, dots: &Dots<'_>) {
    let mut page = Page::blank();
    put_heading(&mut page, lines(dots.chip));
    put_path(&mut page, dots, true);
    put_path(&mut page, dots, false);
    put_captions(&mut page, sheet, dots);
    page.put(b"</svg>\n");
    page.write_out();
}
