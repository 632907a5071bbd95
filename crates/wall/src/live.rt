// The picture again and again, as the log comes. A picture and the three lines beneath it are gathered on a page, and on a
// terminal drawn over the last ones.
use crate::follow::Followed;
use crate::glass::Wanted;
use crate::look::{Look, alike, look_of};
use crate::status::{put_answers, put_clock_line, put_last};
use desk::input::{BLOCK, Listener, each_block};
use desk::page::Page;
use desk::print::{Stopped, show};
use desk::progress::Progress;
use mirror::stream::Stream;
use std::io::IsTerminal;

// A picture: what it is made of, and the page that it stands on.
#[derive(Clone, Copy)]
pub struct Drawn {
    look: Look,
    page: Page,
}

// How a picture stands to the one before it.
#[derive(Clone, Copy, PartialEq, Eq)]
enum Change {
    First,
    Other,
    Same,
}

// How the pictures are written, to a terminal or not; what was heard so far, and the picture that stands.
#[derive(Clone, Copy)]
struct Living<'a> {
    wanted: Wanted<'a>,
    terminal: bool,
    heard: Followed,
    drawn: Option<Drawn>,
}

fn put_status(page: &mut Page, heard: &Followed) {
    let run = heard.stream.end();
    put_clock_line(page, run.panel.last);
    put_answers(page, run.counts);
    put_last(page, heard.last);
}

// How many lines the bytes are.
fn lines_in(bytes: &[u8]) -> usize {
    bytes.iter().filter(|byte| **byte == b'\n').count()
}

// The cursor of the terminal to the front of the line so many lines up.
fn put_up(page: &mut Page, lines: usize) {
    page.put(b"\x1B[");
    page.put_number(lines as u64);
    page.put(b"A\r");
}

// Lines that are written over others: each clears what stood there.
fn put_over(page: &mut Page, bytes: &[u8]) {
    for line in bytes.split_inclusive(|byte| *byte == b'\n') {
        page.put(b"\x1B[K");
        page.put(line);
    }
}

// Over the lines that stand there, or, the first time, with the cursor hidden and long lines cut.
fn write_over(lines: &[u8], change: Change) {
    let mut page = Page::blank();
    if change == Change::First {
        page.put(b"\x1B[?25l\x1B[?7l");
    } else {
        put_up(&mut page, lines_in(lines));
    }
    put_over(&mut page, lines);
    page.write_out();
}

impl Living<'_> {
    // The picture of what was heard.
    fn picture(&self) -> Drawn {
        let panel = self.heard.stream.panel();
        let mut page = Page::blank();
        self.wanted.put_picture(&mut page, panel);
        Drawn {
            look: look_of(panel.sheet),
            page,
        }
    }

    // The picture and its three lines, or, where it has not changed, these three alone, and to a terminal alone.
    fn write(&self, drawn: &Drawn, change: Change) {
        let mut page = drawn.page;
        put_status(&mut page, &self.heard);
        let all = page.as_slice();
        match (self.terminal, change) {
            (true, Change::Same) => write_over(&all[drawn.page.end.min(all.len())..], change),
            (true, _) => write_over(all, change),
            (false, Change::Same) => {}
            (false, _) => show(all),
        }
    }

    // The next picture, written where it is another one. Where it is made of the same, nothing is painted.
    fn after(&self, before: Drawn) -> Drawn {
        if alike(look_of(self.heard.stream.panel().sheet), before.look) {
            self.write(&before, Change::Same);
            return before;
        }
        let drawn = self.picture();
        let same = drawn.page.as_slice() == before.page.as_slice();
        self.write(&drawn, if same { Change::Same } else { Change::Other });
        drawn
    }

    fn first(&self) -> Drawn {
        let drawn = self.picture();
        self.write(&drawn, Change::First);
        drawn
    }
}

impl Listener for Living<'_> {
    fn hear(&mut self, _progress: &mut Progress, part: &[u8]) -> bool {
        // No time is asked for, so none is too late.
        let _ = self.heard.follow(None, part);
        self.drawn = match self.drawn {
            Some(before) if part.is_empty() => Some(before),
            Some(before) => Some(self.after(before)),
            None => Some(self.first()),
        };
        true
    }
}

// The whole of standard input: a picture after the first read, and one for each that shows another.
pub(crate) fn show_living(
    rt: &HostRuntime,
    start: Stream,
    wanted: Wanted<'_>,
) -> Result<(), Stopped> {
    let mut block = [0; BLOCK];
    let mut living = Living {
        wanted,
        terminal: rt.stdout().is_terminal(),
        heard: Followed::start(start),
        drawn: None,
    };
    let read = each_block(rt, b"wall", Progress::hidden(), &mut block, &mut living);
    if living.terminal && living.drawn.is_some() {
        show(b"\x1B[?7h\x1B[?25h");
    }
    read
}
