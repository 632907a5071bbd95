// The three lines of a living picture that tell of the log: the clock, the counts, and the answer to the last transfer.
#![tactic(auto, using(desk::specs::laws::PageLaws::rows))]

ghost use Rattle.std.specs.Prelude.{◌≡◌};
ghost use Rattle.desk.specs.Page.{Puts, PutsSome};
ghost use Rattle.wall.specs.Status.{AnswersLine, ClockLine, Count, last_after, last_line, last_name};

use desk::page::Page;
use framing::frame::Frame;
use mirror::answer::{Answer, COUNTED};
use mirror::count::COUNTS;

// The answer to the last transfer, with one more record. A reset and a bad record are no transfers.
pub(crate) fn last_after(last: Option<Answer>, front: Frame, answer: Answer) -> Option<Answer>
    ensures { result ≡ last_after last front answer }
{
    match front {
        Frame::Transfer { .. } => Some(answer),
        _ => last,
    }
}

pub(crate) fn put_clock_line(page: &mut Page, time: u64)
    ensures { PutsSome (ClockLine time) page.old page.new }
{
    page.put(b"clock ");
    page.put_clock(time);
    page.put(b"\n");
}

fn put_count(page: &mut Page, answer: Answer, n: u64)
    ensures { PutsSome (Count answer n) page.old page.new }
{
    page.put(b" ");
    page.put(answer.name().as_bytes());
    page.put(b" ");
    page.put_number(n);
}

pub(crate) fn put_answers(page: &mut Page, counts: [u64; COUNTS])
    ensures { PutsSome (AnswersLine counts) page.old page.new }
{
    page.put(b"answers");
    for (answer, n) in COUNTED.iter().zip(&counts) {
        put_count(page, *answer, *n);
    }
    page.put(b"\n");
}

pub(crate) fn put_last(page: &mut Page, last: Option<Answer>)
    ensures { Puts (last_line last) page.old page.new }
{
    page.put(b"last transfer ");
    match last {
        None => page.put(b"-"),
        Some(answer) => page.put(answer.name().as_bytes()),
    }
    page.put(b"\n");
}
