// The panel's picture, painted and shown.
#![tactic(auto, using(desk::specs::laws::PageLaws::rows))]

ghost use Rattle.std.specs.Prelude.{◌≡◌};
ghost use Rattle.desk.specs.Page.{Puts};
ghost use Rattle.picture.specs.Paint.{frame_after};
ghost use Rattle.wall.specs.Beneath.{picture_bytes};
ghost use Rattle.wall.specs.Draw.{by_pairs, drawn_panel};

use crate::apart::{Dots, Drawing};
use crate::bitmap::write_bitmap;
use crate::codes::put_beneath;
use crate::draw::put_drawing;
use crate::svg::write_svg;
use desk::page::Page;
use mirror::panel::Panel;
use picture::frame::{MOST_FRAME_SIZE, frame_size};
use picture::mode::upright;
use picture::paint::paint;

// What a picture is written as: drawn by blocks or by marks, a bitmap, or a drawing for browsers.
#[derive(Clone, Copy)]
pub(crate) enum Form {
    Blocks,
    Marks,
    Bitmap,
    Svg,
}

impl Form {
    fn by_pairs(self) -> bool
        ensures { result ≡ by_pairs self }
    {
        !matches!(self, Form::Marks)
    }
}

// How the glass is shown: in a form and a font, its cells apart or not, with the blink dark or light, in mode A or as it is.
#[derive(Clone, Copy)]
pub(crate) struct Wanted<'a> {
    pub form: Form,
    pub font: &'a [u8],
    pub apart: bool,
    pub dark: bool,
    pub upright: bool,
}

// Lends room for the frame of a chip, in which no dot is lit.
fn lend<F: FnOnce(&mut [u8])>(chip: u8, f: F)
    requires { F.IsAlwaysCallable f }
{
    let mut frame = [0; MOST_FRAME_SIZE];
    f(&mut frame[..frame_size(chip)]);
}

impl Wanted<'_> {
    // The panel whose picture is drawn.
    fn drawn(&self, panel: Panel) -> Panel
        ensures { result ≡ drawn_panel self.now.upright panel }
    {
        if self.upright { upright(panel) } else { panel }
    }

    fn painted(&self, panel: Panel, frame: &mut [u8])
        ensures { frame.new ≡ frame_after (drawn_panel self.now.upright panel) self.now.font.now self.now.dark frame.old }
    {
        let _ = paint(self.drawn(panel), self.font, self.dark, frame);
    }

    // Paints into a frame of the panel's chip, and puts the drawing and the lines beneath it on a page.
    fn put_lent(&self, page: &mut Page, panel: Panel, frame: &mut [u8])
        ensures { let w = self.now in Puts (picture_bytes w.apart (by_pairs w.form) w.upright w.dark w.font.now panel frame.old) page.old page.new }
    {
        self.painted(panel, frame);
        let dots = Dots {
            chip: panel.sheet.registers.chip,
            frame,
        };
        let drawing = Drawing {
            dots,
            apart: self.apart,
        };
        put_drawing(page, &drawing, self.form.by_pairs());
        put_beneath(page, panel);
    }

    // Paints into a frame of the panel's chip, and shows it.
    fn show_lent(&self, panel: Panel, frame: &mut [u8]) {
        let sheet = panel.sheet;
        let chip = sheet.registers.chip;
        match self.form {
            Form::Bitmap => {
                self.painted(panel, frame);
                write_bitmap(&Dots { chip, frame });
            }
            Form::Svg => {
                self.painted(panel, frame);
                write_svg(sheet, &Dots { chip, frame });
            }
            Form::Blocks | Form::Marks => {
                let mut page = Page::blank();
                self.put_lent(&mut page, panel, frame);
                page.write_out();
            }
        }
    }

    pub(crate) fn show(&self, panel: Panel) {
        lend(
            panel.sheet.registers.chip,
            |frame| self.show_lent(panel, frame),
        );
    }

    // The picture on a page: the drawing, and the lines beneath it.
    pub(crate) fn put_picture(&self, page: &mut Page, panel: Panel) {
        lend(
            panel.sheet.registers.chip,
            |frame| self.put_lent(page, panel, frame),
        );
    }
}
