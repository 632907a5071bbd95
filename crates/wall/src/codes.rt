// The lines beneath the drawing: the codes that each line of the screen shows, as text and as numbers, the cursor, and the
// written places.
#![tactic(auto, using(desk::specs::laws::PageLaws::rows, crate::specs::laws::DrawLaws::strings))]

ghost use Rattle.std.specs.Prelude.{◌≡◌};
ghost use Rattle.desk.specs.Page.{Puts};
ghost use Rattle.wall.specs.Beneath.{beneath_bytes, codes_line, cursor_line, line_after, shown_line, shown_lines, text_line};
ghost use Rattle.wall.specs.Text.{character_of, text_of};

use crate::svg::put_decimal;
use crate::written::put_written;
use chip::sheet::Sheet;
use chip::sizes::{POSITIONS, lines};
use desk::page::Page;
use mirror::panel::Panel;
use picture::cursor::{Spot, shown};
use picture::screen::codes;

// A code as a character of text, a point where it is not a printable one.
fn character(code: u8) -> u8
    ensures { result ≡ character_of code }
{
    match code {
        0x20..=0x7E => code,
        _ => b'.',
    }
}

pub(crate) fn characters(codes: [u8; POSITIONS]) -> [u8; POSITIONS]
    ensures { result ≡ text_of codes }
{
    codes.map(character)
}

fn put_text_line(page: &mut Page, codes: [u8; POSITIONS])
    ensures { Puts (text_line codes) page.old page.new }
{
    page.put(b"text |");
    page.put(&characters(codes));
    page.put(b"|\n");
}

fn put_codes_line(page: &mut Page, codes: [u8; POSITIONS])
    ensures { Puts (codes_line codes) page.old page.new }
{
    page.put(b"codes");
    for code in codes {
        let [high, low] = text::hex(code);
        page.put(&[b' ', high, low]);
    }
    page.put(b"\n");
}

// What a line shows, as text or as numbers. The definition has the same flag, so that no step is handed in.
fn put_shown(page: &mut Page, codes: [u8; POSITIONS], text: bool)
    ensures { Puts (shown_line text codes) page.old page.new }
{
    if text {
        put_text_line(page, codes);
    } else {
        put_codes_line(page, codes);
    }
}

// What each of `lines` lines shows, from the top.
fn put_shown_lines(page: &mut Page, sheet: Sheet, lines: usize, text: bool)
    ensures { Puts (shown_lines text sheet lines) page.old page.new }
{
    for line in 0..lines {
        put_shown(page, codes(sheet, line), text);
    }
}

// The cursor's line, where there is more than one.
fn put_line_after(page: &mut Page, line: usize, lines: usize)
    ensures { Puts (line_after lines line) page.old page.new }
{
    if 1 < lines {
        page.put(b" line ");
        put_decimal(page, line);
    }
}

fn put_cursor(page: &mut Page, cursor: Option<Spot>, lines: usize)
    ensures { Puts (cursor_line lines cursor) page.old page.new }
{
    match cursor {
        None => page.put(b"cursor off\n"),
        Some(spot) => {
            page.put(b"cursor ");
            put_decimal(page, spot.position);
            put_line_after(page, spot.line, lines);
            page.put(b"\n");
        }
    }
}

// All that stands beneath the drawing.
pub(crate) fn put_beneath(page: &mut Page, panel: Panel)
    ensures { Puts (beneath_bytes panel) page.old page.new }
{
    let sheet = panel.sheet;
    let count = lines(sheet.registers.chip);
    put_shown_lines(page, sheet, count, true);
    put_shown_lines(page, sheet, count, false);
    put_cursor(page, shown(sheet.registers), count);
    put_written(page, panel);
}
