// The line of the written places, as the panel tells them.
#![tactic(auto, using(desk::specs::laws::PageLaws::rows, crate::specs::laws::DrawLaws::strings))]

ghost use Rattle.std.specs.Prelude.{◌<◌, ◌≡◌};
ghost use Rattle.chip.specs.Sizes.{display_size};
ghost use Rattle.desk.specs.Page.{Puts};
ghost use Rattle.mirror.specs.Written.{written_for};
ghost use Rattle.wall.specs.Draw.{strung};
ghost use Rattle.wall.specs.Written.{place_bytes, places_bytes, written_line};

use chip::sizes::DISPLAY_SIZE;
use desk::page::Page;
use mirror::panel::Panel;

// A place, where its bit is 1.
fn put_place(page: &mut Page, bits: u32, place: usize)
    requires { place < display_size }
    ensures { Puts (place_bytes bits place) page.old page.new }
{
    if (bits >> place) & 1 == 1 {
        let [high, low] = text::hex(place as u8);
        page.put(&[b' ', high, low]);
    }
}

// Every such place, from the lowest.
fn put_each(page: &mut Page, bits: u32)
    ensures { Puts (strung (place_bytes bits) display_size) page.old page.new }
{
    for place in 0..DISPLAY_SIZE {
        put_place(page, bits, place);
    }
}

fn put_places(page: &mut Page, bits: u32)
    ensures { Puts (places_bytes bits) page.old page.new }
{
    if bits == 0 {
        page.put(b" -");
    } else {
        put_each(page, bits);
    }
}

// The panel's bits. No log leaves a panel that is not sound; such a one has no place.
fn bits_of(panel: Panel) -> u32
    ensures { result ≡ (written_for panel).bits }
{
    panel.written().unwrap_or(0)
}

pub(crate) fn put_written(page: &mut Page, panel: Panel)
    ensures { Puts (written_line panel) page.old page.new }
{
    page.put(b"written");
    put_places(page, bits_of(panel));
    page.put(b"\n");
}
