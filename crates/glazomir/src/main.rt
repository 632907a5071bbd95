// The mirror program: reads a log on standard input, and prints the counts, the address and the codes.
#![tactic(auto)]

use chip::address::Address;
use chip::registers::Registers;
use chip::sizes::{DISPLAY_SIZE, places};
use desk::arguments::{Given, asked};
use desk::input::{BLOCK, Listener, each_block};
use desk::print::{Stopped, show, show_bytes, show_number};
use desk::progress::Progress;
use desk::told::told_at;
use mirror::answer::COUNTED;
use mirror::stream::{Run, Stream};

// The groups of arguments.
const CHIP: usize = 0;

const TIMES: usize = 1;

// The mirror, fed with the log.
#[derive(Clone, Copy)]
struct Fed {
    stream: Stream,
}

impl Listener for Fed {
    fn hear(&mut self, _progress: &mut Progress, part: &[u8]) -> bool {
        self.stream = self.stream.feed(part);
        true
    }
}

fn line(name: &str, n: u64) {
    show(name.as_bytes());
    show_number(b" ", n);
    show(b"\n");
}

fn print_counts(run: &Run) {
    line("records", run.records);
    for (answer, n) in COUNTED.iter().zip(run.counts.iter()) {
        line(answer.name(), *n);
    }
    line("cut", u64::from(run.cut));
}

fn print_address(registers: &Registers) {
    match registers.address {
        Address::Display(_) => show(b"address"),
        Address::Pattern(_) => show(b"pattern"),
    }
    show_bytes(b" ", &[registers.address.number(registers.chip)]);
}

// By display address, as many as the chip has.
fn print_codes(chip: u8, display: &[u8; DISPLAY_SIZE]) {
    show(b"\ncodes");
    show_bytes(b" ", &display[..places(chip)]);
    show(b"\n");
}

// What was asked for; its help explains the thirteen lines.
fn arguments(rt: &HostRuntime) -> Result<Given, Stopped> {
    asked(
        rt,
        b"glazomir",
        b"chip NAME, times R L S",
        b"glazomir < LOG carries a log of bus transfers out on a fresh panel, and prints thirteen lines:\n\
        records N   how many records the log has, up to a cut\n\
        taken N     carried out: instructions, data transfers and resets\n\
        doubtful N  data reads carried out that no address set, cursor shift or read had made good\n\
        held N      first halves of a pair that were kept\n\
        status N    status reads that were completed\n\
        ignored N   transfers that came while the chip was busy\n\
        torn N      second halves that differ from their first in RS or R/W\n\
        back N      records with a time below the last time seen\n\
        bad N       records that can't be used: their kind, length, time or control is wrong\n\
        none N      instruction writes of 00h while the chip was free\n\
        cut B       1 where the log breaks off within a record, otherwise 0\n\
        address A   where the address counter points; `pattern A` where that is in pattern memory\n\
        codes ..    the codes of display memory, by display address: sixteen, or 32 of two lines\n\
        Counts are decimal, the last two lines hexadecimal.\n\
        chip NAME    6631, one line, or 6635, two lines; without it, 6631\n\
        times R L S  reset, long and short time in microseconds; without it, 10000 1640 40\n\
        A log of any length is read as it comes, in constant memory. trace prints the answer to every record\n\
        and the whole panel, wall draws the glass, report lists what was not carried out.\n",
    )
}

fn run(rt: &HostRuntime) -> Result<(), Stopped> {
    let given = arguments(rt)?;
    let told = told_at(rt, b"glazomir", given.places[CHIP], given.places[TIMES])?;
    let mut fed = Fed {
        stream: Stream::start(told.panel()),
    };
    let mut block = [0; BLOCK];
    each_block(rt, b"glazomir", Progress::start(rt), &mut block, &mut fed)?;
    let run = fed.stream.end();
    print_counts(&run);
    print_address(&run.panel.sheet.registers);
    print_codes(told.chip, &run.panel.sheet.display);
    Ok(())
}

// What stops it has been written by then, and the launcher tells from that how it ended.
fn main(rt: HostRuntime) {
    let _ = run(&rt);
}
