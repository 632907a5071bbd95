// The print of a run: the whole panel, its two pictures, and the comparison.
ghost use Rattle.std.specs.Prelude.{◌≡◌};
ghost use Rattle.trace.specs.Show.{highest_first};

use buffer::buffer::Buffer;
use chip::address::Address;
use chip::registers::Registers;
use chip::sizes::{DISPLAY_SIZE, ONE_LINE, places};
use desk::bytes::ROOM;
use desk::print::{show, show_bytes, show_number};
use mirror::answer::Refusal;
use mirror::half::Half;
use mirror::panel::Panel;
use mirror::stream::Run;
use picture::compare::compare;
use picture::paint::paint;

fn show_bits(label: &[u8], bits: &[bool]) {
    show(label);
    for bit in bits {
        show_number(b" ", u64::from(*bit));
    }
}

// One digit where one will do.
fn show_short(label: &[u8], byte: u8) {
    if byte < 16 {
        show(label);
        show(&[text::digit(byte)]);
    } else {
        show_bytes(label, &[byte]);
    }
}

fn show_registers(r: &Registers) {
    match r.address {
        Address::Display(d) => show_bytes(b"\ncounter display ", &[d.0]),
        Address::Pattern(p) => show_bytes(b"\ncounter pattern ", &[p.0]),
    }
    show_number(b"\nshift ", u64::from(r.shift));
    show_bits(b"\nentry", &[r.up, r.follow]);
    show_bits(b"\nscreen", &[r.on, r.cursor, r.blink]);
    show(if r.eight { b"\nwidth 8" } else { b"\nwidth 4" });
    show_short(b" function ", r.function);
}

fn show_half(half: Half) {
    match half {
        Half::Empty => show(b"\nhalf none"),
        Half::Ignored { rs, rw } => {
            show_bits(b"\nhalf", &[rs, rw, true]);
            show(b" 0");
        }
        Half::Waiting { rs, rw, nibble } => {
            show_bits(b"\nhalf", &[rs, rw, false]);
            show_short(b" ", nibble);
        }
    }
}

// The places of the chip of one line, and all of every other number.
fn show_display(chip: u8, display: &[u8; DISPLAY_SIZE]) {
    show(b"\ndisplay");
    if chip == ONE_LINE {
        show_bytes(b" ", &display[..places(chip)]);
    } else {
        show_bytes(b" ", display);
    }
}

// The four bytes of a number, the highest first.
fn highest_first(n: u32) -> [u8; 4]
    ensures { result ≡ highest_first n }
{
    n.to_be_bytes()
}

fn show_panel(panel: &Panel) {
    let registers = panel.sheet.registers;
    show_bits(b"\nsound", &[panel.sound()]);
    show_number(b"\nchip ", u64::from(registers.chip));
    show_display(registers.chip, &panel.sheet.display);
    show(b"\npattern");
    show_bytes(b" ", &panel.sheet.pattern);
    show_registers(&registers);
    show_number(b"\nbusy ", panel.busy);
    show_number(b" last ", panel.last);
    show_half(panel.half);
    show_bits(b"\ngood", &[registers.good]);
    // The bits of the written places, as they stand.
    show(b"\nwritten ");
    show_bytes(b"", &highest_first(registers.written));
    show(b"\n");
}

fn show_refusal(label: &[u8], refusal: Refusal) {
    show_number(label, u64::from(refusal.number()));
}

pub(crate) fn show_run(run: &Run) {
    if let Some(refusal) = run.refusal() {
        show_refusal(b"refused ", refusal);
        show(b"\n");
    }
    show_number(b"records ", run.records);
    show_bits(b"\ncut", &[run.cut]);
    show(b"\ncounts");
    for n in run.counts {
        show_number(b" ", n);
    }
    show_panel(&run.panel);
}

// Paints into a frame as it is lent; then the answer, and every byte of the frame as it then stands.
fn show_lent(panel: Panel, font: &[u8], dark: bool, frame: &mut [u8]) {
    match paint(panel, font, dark, frame) {
        Ok(lit) => show_number(b" lit ", lit as u64),
        Err(refusal) => show_refusal(b" refused ", refusal),
    }
    if !frame.is_empty() {
        show(b" ");
    }
    show_bytes(b"", frame);
    show(b"\n");
}

// A painting, and the frame that it leaves. It is lent filled with A5h, so that what a painting overwrites and a refusal leaves
// can be seen.
pub(crate) fn show_painting(
    label: &[u8],
    panel: Panel,
    font: &[u8],
    dark: bool,
    size: usize,
) -> Buffer<ROOM> {
    let len = size.min(ROOM);
    let mut frame = Buffer {
        bytes: [0xA5; ROOM],
        len,
    };
    show(label);
    show_lent(panel, font, dark, &mut frame.bytes[..len]);
    frame
}

// The comparison of two frames of a chip.
pub(crate) fn show_difference(chip: u8, a: &[u8], b: &[u8]) {
    match compare(chip, a, b) {
        Ok(Some(dot)) => {
            show_number(b"differ ", dot.row as u64);
            show_number(b" ", dot.column as u64);
        }
        Ok(None) => show(b"differ none"),
        Err(refusal) => show_refusal(b"differ refused ", refusal),
    }
    show(b"\n");
}
