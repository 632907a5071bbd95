// Prints everything that a test or a doubtful colleague wants to see of a log: docs/TRACE.md has the print.
#![tactic(auto)]

mod answers;
mod frames;
mod panel_file;
mod records;
mod show;

use answers::answer_all;
use buffer::buffer::Buffer;
use desk::arguments::{GROUPS, Given, asked};
use desk::bytes::{ROOM, load};
use desk::print::{Stopped, complain};
use desk::told::told_at;
use frames::{frames_at, size_at};
use mirror::panel::Panel;
use mirror::stream::Run;
use panel_file::{Misfit, panel_told};
use picture::pattern::{FONT_SIZE, TALL};
use records::record_all;
use show::{show_difference, show_painting, show_run};
use std::array;

// The groups of arguments.
const FONT: usize = 0;

const CHIP: usize = 1;

const TIMES: usize = 2;

const PANEL: usize = 3;

const FRAME: usize = 4;

const FRAMES: usize = 5;

const RECORDS: usize = 6;

// What the painter and the comparison are lent; the two frames only where they were named.
#[derive(Clone, Copy)]
struct Lent {
    font: Buffer<ROOM>,
    size: usize,
    frames: Option<[Buffer<ROOM>; 2]>,
}

// The shape of code 20h: the font begins with code 10h.
const BLANK: usize = 16;

// The trial font: byte i is (37 i + 11 (i div 8) + 5) mod 256, but the eight bytes of code 20h are E0h, blank in the low
// five bits. docs/TRACE.md has it; the benchmark's is another.
fn trial_byte(i: usize) -> u8 {
    let shape = i / TALL;
    if shape == BLANK {
        return 0xE0;
    }
    // The inner remainders change no byte: they keep the sum small whatever i is.
    ((37 * (i % 256) + 11 * (shape % 256) + 5) % 256) as u8
}

fn font_at(rt: &HostRuntime, place: Option<usize>) -> Result<Buffer<ROOM>, Stopped> {
    let Some(at) = place else {
        let font: [u8; FONT_SIZE] = array::from_fn(|i| trial_byte(i));
        return Ok(Buffer::keep(&font));
    };
    load(rt, at)
}

// The panel in a file.
fn loaded_panel(rt: &HostRuntime, place: usize) -> Result<Panel, Stopped> {
    let file = load(rt, place)?;
    panel_told(file.as_slice()).map_err(|misfit| match misfit {
        Misfit::Size => complain(b"trace", b"a panel file has 106 bytes"),
        Misfit::Byte => complain(b"trace", b"the panel file holds a byte that no panel has"),
    })
}

fn first_panel(rt: &HostRuntime, places: [Option<usize>; GROUPS]) -> Result<Panel, Stopped> {
    let told = told_at(rt, b"trace", places[CHIP], places[TIMES])?;
    match places[PANEL] {
        Some(at) => loaded_panel(rt, at),
        None => Ok(told.panel()),
    }
}

// The lines of the run, once those of the records are written.
fn print(run: &Run, lent: &Lent) {
    let panel = run.panel;
    let chip = panel.sheet.registers.chip;
    let font = lent.font.as_slice();
    show_run(run);
    let light = show_painting(b"frame 0", panel, font, false, lent.size);
    let dark = show_painting(b"frame 1", panel, font, true, lent.size);
    let [a, b] = lent.frames.unwrap_or([light, dark]);
    show_difference(chip, a.as_slice(), b.as_slice());
}

// What was asked for.
fn arguments(rt: &HostRuntime) -> Result<Given, Stopped> {
    asked(
        rt,
        b"trace",
        b"font FILE, chip NAME, times R L S, panel FILE, frame N, frames A B, records",
        b"trace < LOG prints a line for each record, its answer and byte; then the whole panel, its picture\n\
        with the blink light and dark, and the first dot at which these two differ.\n\
        font FILE    1920 bytes: codes 10h to FFh, eight rows each; without it, a trial font\n\
        chip NAME    6631, one line, or 6635, two lines; without it, 6631\n\
        times R L S  reset, long and short time in microseconds; without it, 10000 1640 40\n\
        panel FILE   106 bytes: the panel to start from, its chip and times; without it, a fresh one\n\
        frame N      the size of the frames that are painted, 0 to 200; without it, 80, of two lines 160\n\
        frames A B   two files of at most 200 bytes, to compare in place of the two pictures\n\
        records      every record by a call of its own on the panel; without it, out of the stream\n",
    )
}

fn run(rt: &HostRuntime) -> Result<(), Stopped> {
    let places = arguments(rt)?.places;
    let panel = first_panel(rt, places)?;
    let lent = Lent {
        size: size_at(rt, places[FRAME], panel.sheet.registers.chip)?,
        font: font_at(rt, places[FONT])?,
        frames: frames_at(rt, places[FRAMES])?,
    };
    let run = match places[RECORDS] {
        Some(_) => record_all(rt, panel)?,
        None => answer_all(rt, panel)?,
    };
    print(&run, &lent);
    Ok(())
}

// What stops it has been written by then, and the launcher tells from that how it ended.
fn main(rt: HostRuntime) {
    let _ = run(&rt);
}
