// A line of the report: docs/REPORT.md has its columns. Room is made for a whole line before it is put, so nothing within it
// has to write (docs/DECISIONS.md, "Speed").
use account::columns::{Line, Meaning, Shown, What};
use desk::page::Page;
use framing::flaw::Flaw;

// More than any line has. The longest has 155 bytes: three numbers of 20 digits, a clock of 33, `instruction-write`,
// `length-` and a fourth, an answer, a byte, and what stands between them.
pub(crate) const LINE: usize = 256;

pub(crate) fn put_names(page: &mut Page) {
    page.put_here(b"record\tsecond\ttime\tclock\tanswer\twhat\tbyte\tmeaning\n");
}

// The number of the second half, where there is one.
fn put_second(page: &mut Page, second: Option<u64>) {
    match second {
        Some(number) => page.put_number_here(number),
        None => page.put_here(b"-"),
    }
}

// A time and its clock; a bad record has none.
pub(crate) fn put_time(page: &mut Page, time: Option<u64>) {
    match time {
        Some(time) => {
            page.put_number_here(time);
            page.put_here(b"\t");
            page.put_clock_here(time);
        }
        None => page.put_here(b"-\t-"),
    }
}

fn put_what(page: &mut Page, what: What) {
    match what {
        What::InstructionWrite => page.put_here(b"instruction-write"),
        What::DataWrite => page.put_here(b"data-write"),
        What::StatusRead => page.put_here(b"status-read"),
        What::DataRead => page.put_here(b"data-read"),
        What::Reset => page.put_here(b"reset"),
        What::Record => page.put_here(b"record"),
    }
}

fn put_shown(page: &mut Page, byte: Option<Shown>) {
    match byte {
        Some(Shown::Half(b)) => page.put_here(&[text::digit(b / 16), b'-']),
        Some(Shown::Whole(b)) => page.put_here(&text::hex(b)),
        None => page.put_here(b"-"),
    }
}

fn put_flaw(page: &mut Page, flaw: Flaw) {
    match flaw {
        Flaw::Kind(kind) => {
            page.put_here(b"kind-");
            page.put_number_here(kind);
        }
        Flaw::Length(length) => {
            page.put_here(b"length-");
            page.put_number_here(length as u64);
        }
        Flaw::LateTime => page.put_here(b"late-time"),
        Flaw::StrayControl => page.put_here(b"stray-control"),
    }
}

// A character that shows; the space by its name.
fn put_character(page: &mut Page, byte: u8) {
    match byte {
        0x20 => page.put_here(b"space"),
        0x21..=0x7E => page.put_here(&[byte]),
        _ => page.put_here(b"-"),
    }
}

fn put_instruction(page: &mut Page, byte: u8) {
    match byte {
        0x00 => page.put_here(b"nothing"),
        0x01 => page.put_here(b"Clear"),
        0x02..=0x03 => page.put_here(b"Home"),
        0x04..=0x07 => page.put_here(b"Entry-mode"),
        0x08..=0x0F => page.put_here(b"Display-bits"),
        0x10..=0x17 => page.put_here(b"Cursor-move"),
        0x18..=0x1F => page.put_here(b"Display-shift"),
        0x20..=0x3F => page.put_here(b"Function-Set"),
        0x40..=0x7F => page.put_here(b"Pattern-address"),
        0x80..=0xFF => page.put_here(b"Display-address"),
    }
}

fn put_meaning(page: &mut Page, meaning: Option<Meaning>) {
    match meaning {
        Some(Meaning::Flaw(flaw)) => put_flaw(page, flaw),
        Some(Meaning::TornBy(what)) => {
            page.put_here(b"torn-by-");
            put_what(page, what);
        }
        Some(Meaning::Character(byte)) => put_character(page, byte),
        Some(Meaning::Instruction(byte)) => put_instruction(page, byte),
        None => page.put_here(b"-"),
    }
}

pub(crate) fn put_line(page: &mut Page, line: Line) {
    page.make_room(LINE);
    page.put_number_here(line.number);
    page.put_here(b"\t");
    put_second(page, line.second);
    page.put_here(b"\t");
    put_time(page, line.time);
    page.put_here(b"\t");
    page.put_here(line.answer.name().as_bytes());
    page.put_here(b"\t");
    put_what(page, line.what);
    page.put_here(b"\t");
    put_shown(page, line.byte);
    page.put_here(b"\t");
    put_meaning(page, line.meaning);
    page.put_here(b"\n");
}
