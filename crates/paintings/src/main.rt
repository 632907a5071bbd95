// Paints the panel that a log leaves a hundred thousand times, for the benchmark: prints the lit dots of all paintings
// (modulo a prime) and the last frame. Each painting has another shift, and every second one a dark blink.
#![tactic(auto)]

use chip::registers::Registers;
use chip::sheet::Sheet;
use chip::sizes::POSITIONS;
use desk::arguments::{Given, asked};
use desk::input::read_block;
use desk::print::{Stopped, show, show_bytes, show_number};
use desk::told::told_at;
use mirror::panel::Panel;
use picture::frame::{MOST_FRAME_SIZE, frame_size};
use picture::paint::paint;
use picture::pattern::FONT_SIZE;
use std::array;

// The group of arguments.
const CHIP: usize = 0;

const PAINTINGS: u32 = 100000;

// Some font: byte i is (37 i + 5) mod 256, as the twin of bench/paint.c has it.
fn trial_byte(i: usize) -> u8 {
    ((37 * (i % 256) + 5) % 256) as u8
}

// The panel with another shift, its display, cursor and blink on.
fn turned_on(panel: Panel, shift: u8) -> Panel {
    Panel {
        sheet: Sheet {
            registers: Registers {
                shift,
                on: true,
                cursor: true,
                blink: true,
                ..panel.sheet.registers
            },
            ..panel.sheet
        },
        ..panel
    }
}

fn paint_all(panel: Panel, font: &[u8], frame: &mut [u8]) -> u64 {
    let mut total: u64 = 0;
    for i in 0..PAINTINGS {
        let shown = turned_on(panel, (i % POSITIONS as u32) as u8);
        let lit = paint(shown, font, i % 2 == 1, frame).unwrap_or(0) as u64;
        total = (total % 1000000007 + lit % 1000) % 1000000007;
    }
    total
}

// Paints into the frame, then shows what was lit and what the frame then holds.
fn show_lent(panel: Panel, font: &[u8], frame: &mut [u8]) {
    show_number(b"", paint_all(panel, font, frame));
    show(b"\n");
    show_bytes(b"", frame);
    show(b"\n");
}

fn show_paintings(chip: u8, panel: Panel) {
    let font: [u8; FONT_SIZE] = array::from_fn(|i| trial_byte(i));
    let mut frame = [0; MOST_FRAME_SIZE];
    let size = frame_size(chip).min(MOST_FRAME_SIZE);
    show_lent(panel, &font, &mut frame[..size]);
}

// What was asked for.
fn arguments(rt: &HostRuntime) -> Result<Given, Stopped> {
    asked(
        rt,
        b"paintings",
        b"chip NAME",
        b"paintings < LOG paints the panel that a log of at most 65536 bytes leaves a hundred thousand times, for\n\
        the benchmark, and prints the lit dots of all paintings, modulo 1000000007, and the last frame.\n\
        chip NAME    6631, one line, or 6635, two lines; without it, 6631\n",
    )
}

fn run(rt: &HostRuntime) -> Result<(), Stopped> {
    let given = arguments(rt)?;
    let told = told_at(rt, b"paintings", given.places[CHIP], None)?;
    let mut block = io::large_buffer();
    // A log that can't be read is painted as an empty one, once a line has said so.
    let n = read_block(rt, &mut block).unwrap_or(0);
    show_paintings(told.chip, told.panel().run(&block[..n]).panel);
    Ok(())
}

// What stops it has been written by then.
fn main(rt: HostRuntime) {
    let _ = run(&rt);
}
