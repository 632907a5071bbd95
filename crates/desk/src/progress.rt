// How far a program has read, shown on a terminal while it works.
//
// Standard error is for refusals: the launcher takes whatever is written there for one. It hands a program its own standard
// error once more, as descriptor 3, and there the line stands, where that is a terminal. A program that was started
// otherwise has no such descriptor, and shows nothing.
ghost use Rattle.std.specs.Prelude.{◌≡◌};
ghost use Rattle.desk.specs.Progress.{hidden};

use crate::number::number_of;
use std::fs::{File, metadata};
use std::io::{IsTerminal, Read, Result, Seek, SeekFrom};
use std::os::unix::fs::FileTypeExt;
use std::rt::CpuClock;

// Where the line is shown.
const BESIDE: i32 = 3;

const BESIDE_NAME: &str = "/proc/self/fd/3";

const INPUT_NAME: &str = "/proc/self/fd/0";

// In microseconds of work: when the line is first shown, and how long it stands before it is shown anew.
const SECOND: u64 = 1000000;

const WHILE: u64 = 250000;

// The line, where one is shown.
#[derive(Clone, Copy)]
pub struct Progress {
    line: Option<Line>,
}

// Whether the line stands there now, and whether the print goes to a terminal too; the bytes that lie before the next read,
// and the size of the file, where that is known; and the work after which the line is shown next. The two flags are facts of a
// line that is there: no value hangs on either.
#[derive(Clone, Copy)]
struct Line {
    stands: bool,
    same: bool,
    read: u64,
    size: Option<u64>,
    next: u64,
}

fn tell(bytes: &[u8]) {
    io::write_all(BESIDE, bytes);
}

// Whether the descriptor BESIDE is open on a terminal. It is reached by its name, which opens what it is open on once more:
// so only where that is a character device, since to open a pipe may wait.
fn beside_is_terminal(rt: &HostRuntime) -> bool {
    metadata(rt, BESIDE_NAME).is_ok_and(|found| found.file_type().is_char_device())
        && File::open(rt, BESIDE_NAME).is_ok_and(|file| file.is_terminal())
}

// The number of the first line of what Linux tells of a descriptor: `pos:`, a tab and the place in decimal.
fn place_in(told: &[u8]) -> Option<u64> {
    let lines = told.strip_prefix(b"pos:\t")?;
    let place = lines.split(|byte| *byte == b'\n').next()?;
    number_of(place, u64::MAX)
}

// Where standard input stands, if that is told.
fn input_place(rt: &HostRuntime) -> Result<Option<u64>> {
    let mut told = io::buffer();
    let n = File::open(rt, "/proc/self/fdinfo/0")?.read(&mut told)?;
    Ok(place_in(&told[..n]))
}

// The size of a device, as standard input is open on it.
fn device_size(rt: &HostRuntime) -> Result<u64> {
    File::open(rt, INPUT_NAME)?.seek(SeekFrom::End(0))
}

// The processor time that this process has used, in microseconds.
fn work(rt: &HostRuntime) -> Result<u64> {
    let time = rt.process_cpu_time()?;
    let seconds = time.as_secs().wrapping_mul(SECOND);
    Ok(seconds.wrapping_add(u64::from(time.subsec_micros())))
}

impl Line {
    // From where standard input stands, up to the size that it has. A pipe has no place and no size.
    fn start(rt: &HostRuntime) -> Line {
        let mut line = Line {
            stands: false,
            same: rt.stdout().is_terminal(),
            read: 0,
            size: None,
            next: SECOND,
        };
        let Ok(input) = metadata(rt, INPUT_NAME) else {
            return line;
        };
        if input.is_file() {
            line.size = Some(input.len());
        } else if input.file_type().is_block_device() {
            line.size = device_size(rt).ok();
        } else {
            return line;
        }
        line.read = input_place(rt).ok().flatten().unwrap_or(0);
        line
    }

    // Shows the line over the one that stands there. A file that has grown since is of no known size any more, and of an input of
    // none 0 bytes are all there are yet. The cursor goes back, so that what another program prints there begins where a line does.
    fn show(&mut self, name: &[u8]) {
        tell(b"\r");
        tell(name);
        tell(b": ");
        io::print_decimal(BESIDE, self.read);
        let size = self.size.unwrap_or(0);
        if self.read <= size {
            tell(b" of ");
            io::print_decimal(BESIDE, size);
        }
        tell(b" bytes read\x1B[K\r");
        self.stands = true;
    }

    fn clear(&mut self) {
        if self.stands {
            tell(b"\r\x1B[K");
        }
        self.stands = false;
    }
}

impl Progress {
    // Of a program whose print says how far it is: nothing is shown.
    pub fn hidden() -> Progress
        ensures { result ≡ hidden }
    {
        Progress { line: None }
    }

    // Before the first read, for a program that prints once all is read, or makes room before it prints.
    pub fn start(rt: &HostRuntime) -> Progress {
        if !beside_is_terminal(rt) {
            return Progress::hidden();
        }
        Progress {
            line: Some(Line::start(rt)),
        }
    }

    // The same for a program that prints all the while: on a terminal its print says how far it is.
    pub fn start_beside_print(rt: &HostRuntime) -> Progress {
        Progress {
            line: Progress::start(rt).line.filter(|line| !line.same),
        }
    }

    // After a read that brought so many bytes: shows the line where it is due.
    pub fn after(&mut self, rt: &HostRuntime, name: &[u8], len: usize) {
        let Some(line) = &mut self.line else {
            return;
        };
        line.read = line.read.wrapping_add(len as u64);
        let work = work(rt).unwrap_or(0);
        if line.next <= work {
            line.show(name);
            line.next = work.wrapping_add(WHILE);
        }
    }

    // Before something is printed in the midst of the log: takes the line away where the print goes to a terminal, which is
    // hardly another one.
    pub fn make_room(&mut self) {
        if let Some(line) = &mut self.line
            && line.same
        {
            line.clear();
        }
    }

    // Takes the line away, once all is read.
    pub fn clear(&mut self) {
        if let Some(line) = &mut self.line {
            line.clear();
        }
    }
}
