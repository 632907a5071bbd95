// The painter. It goes by cells, dot by dot.
ghost use Rattle.std.specs.Prelude.{◌≡◌, ◌<◌, length, replicate};
ghost use Rattle.chip.specs.Sizes.{lines_of};
ghost use Rattle.picture.specs.Pattern.{patterns_of, shape_of};
ghost use Rattle.picture.specs.Mode.{glass_for};
ghost use Rattle.picture.specs.engine.Canvas.{Drawn};
ghost use Rattle.picture.specs.engine.Shown.{line_put, page_put, shown_of};
ghost use Rattle.picture.specs.engine.Wiring.{wiring_of};
ghost use Rattle.picture.specs.Paint.{Paints};

use crate::canvas::Canvas;
use crate::count::ones;
use crate::cursor::{Spot, here};
use crate::frame::frame_size;
use crate::mode::Wiring;
use crate::pattern::{FONT_SIZE, FONT_START, FULL, PATTERNS, TALL, font_of, glyph, patterns};
use crate::screen::code_in;
use chip::sheet::Sheet;
use chip::sizes::{POSITIONS, lines};
use mirror::answer::Refusal;
use mirror::panel::Panel;

const CURSOR_ROW: usize = 7;

// What is painted: a sheet, its own four patterns, a font, and whether the blink is dark.
#[derive(Clone, Copy)]
struct Scene<'a> {
    sheet: Sheet,
    own: [[u8; TALL]; PATTERNS],
    font: &'a [u8; FONT_SIZE],
    dark: bool,
    ghost own_is: { own ≡ patterns_of sheet.pattern },
}

impl<'a> Scene<'a> {
    ghost use Rattle.picture.specs.engine.Scene.{IsScene};

    fn new(sheet: Sheet, font: &'a [u8; FONT_SIZE], dark: bool) -> Scene<'a>
        ensures { IsScene sheet font.now dark result }
    {
        Scene {
            sheet,
            own: patterns(sheet.pattern),
            font,
            dark,
        }
    }

    // The pattern of a code.
    fn shape(&self, code: u8) -> [u8; TALL]
        ensures { result ≡ shape_of self.now.sheet.pattern self.now.font.now code }
    {
        if code < FONT_START {
            self.own[code as usize % PATTERNS]
        } else {
            glyph(self.font, code)
        }
    }

    // The rows that a spot shows.
    fn shown(&self, at: Spot) -> [u8; TALL]
        ensures { result ≡ shown_of self.now.sheet self.now.font.now self.now.dark at.line at.position }
    {
        let registers = self.sheet.registers;
        if !registers.on {
            return [0; TALL];
        }
        let mut rows = self.shape(code_in(&self.sheet, at.line, at.position));
        if !here(registers, at) {
            return rows;
        }
        if registers.blink & self.dark {
            return [FULL; TALL];
        }
        if registers.cursor {
            rows[CURSOR_ROW] = FULL;
        }
        rows
    }

    // Paints a line.
    fn put_line(&self, canvas: &mut Canvas, line: usize)
        requires { line < lines_of canvas.old.wiring.chip }
        ensures { Drawn canvas.old canvas.new (line_put canvas.old.wiring self.now.sheet self.now.font.now self.now.dark line canvas.old.frame.now) }
    {
        for position in 0..POSITIONS {
            let at = Spot { line, position };
            canvas.put_cell(at, self.shown(at));
        }
    }

    // Paints every line.
    fn put_lines(&self, canvas: &mut Canvas)
        ensures { Drawn canvas.old canvas.new (page_put canvas.old.wiring self.now.sheet self.now.font.now self.now.dark canvas.old.frame.now) }
    {
        for line in 0..lines(canvas.wiring.chip) {
            self.put_line(canvas, line);
        }
    }

    // Paints the picture into a frame of the glass's size, whatever that held.
    fn paint_on(&self, frame: &mut [u8])
        requires { length frame.old ≡ (glass_for self.now.sheet.registers).size }
        ensures { frame.new ≡ page_put (wiring_of self.now.sheet.registers) self.now.sheet self.now.font.now self.now.dark (replicate (glass_for self.now.sheet.registers).size 0) }
    {
        let wiring = Wiring::of(self.sheet.registers);
        let mut canvas = Canvas { wiring, frame };
        canvas.clear();
        self.put_lines(&mut canvas);
    }
}

// Paints the panel's picture into the frame, with the blink dark or not; answers how many dots are lit. Where it refuses,
// the frame stays as it was.
pub fn paint(panel: Panel, font: &[u8], dark: bool, frame: &mut [u8]) -> Result<usize, Refusal>
    ensures { Paints panel font.now dark frame.old result frame.new }
{
    if !panel.sound() {
        return Err(Refusal::Unsound);
    }
    let font = font_of(font)?;
    if frame.len() != frame_size(panel.sheet.registers.chip) {
        return Err(Refusal::Size);
    }
    Scene::new(panel.sheet, font, dark).paint_on(frame);
    Ok(ones(frame))
}
