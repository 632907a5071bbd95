// The log up to a time.
use crate::follow::{Followed, TooLate};
use desk::input::{BLOCK, Listener, each_block};
use desk::print::Stopped;
use desk::progress::Progress;
use mirror::stream::Stream;

// A part of the log. Where no time is asked for, no answer is looked at.
fn watch_part(watched: &mut Followed, until: Option<u64>, part: &[u8]) -> Result<(), TooLate> {
    if until.is_some() {
        return watched.follow(until, part);
    }
    watched.stream = watched.stream.feed(part);
    Ok(())
}

// What was watched, and the time up to which the log is read, if any is asked for.
#[derive(Clone, Copy)]
struct Watching {
    watched: Followed,
    until: Option<u64>,
}

impl Listener for Watching {
    fn hear(&mut self, _progress: &mut Progress, part: &[u8]) -> bool {
        watch_part(&mut self.watched, self.until, part).is_ok()
    }
}

// The whole of standard input, or as much as there is up to the time.
pub(crate) fn watch_all(
    rt: &HostRuntime,
    start: Stream,
    until: Option<u64>,
) -> Result<Stream, Stopped> {
    let mut block = [0; BLOCK];
    let mut watching = Watching {
        watched: Followed::start(start),
        until,
    };
    each_block(rt, b"wall", Progress::start(rt), &mut block, &mut watching)?;
    Ok(watching.watched.stream)
}
