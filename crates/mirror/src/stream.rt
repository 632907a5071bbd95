// The streaming form: a log in parts of any size, the bytes between two parts carried in the state. And a run, which is
// one part.
ghost use Rattle.std.specs.Prelude.{◌≡◌};
ghost use Rattle.mirror.specs.Stream.{start_of, panel_in, number_in, waiting_bytes, front_of, rested_of, feed_of, end_of, ended_of};
ghost use Rattle.framing.specs.Carry.{filled_of};
ghost use Rattle.mirror.specs.engine.Read.{totals_read, read_of};
ghost use Rattle.mirror.specs.engine.Reading.{stopped_of};
ghost use Rattle.mirror.specs.Promise.{Replies, Runs, end_refusal, run_refusal};

use crate::answer::{Refusal, Verdict};
use crate::count::{COUNTS, raise};
use crate::panel::Panel;
use crate::reading::Reading;
use crate::totals::Totals;
use chip::sizes::{DISPLAY_SIZE, ONE_LINE, PATTERN_SIZE};
use framing::carry::{Carry, Filled};
use framing::flaw::Flaw;
use framing::frame::Frame;
use framing::front::wants_more;

// Nobody outside can put one together, so its panel is sound or was refused.
#[derive(Clone, Copy)]
pub struct Stream {
    totals: Totals,
    carry: Carry,
    // A cut was met: nothing more is read. No value hangs on it.
    over: bool,
    // The panel handed in, where it was refused.
    refused: Option<Panel>,
}

// A run that is refused is not cut (must-fail refused_is_cut), and the rules ask for both.
#[derive(Clone, Copy)]
pub struct Run {
    pub panel: Panel,
    pub counts: [u64; COUNTS],
    pub records: u64,
    pub cut: bool,
    pub refused: bool,
}

// What a call for one answer comes to: the answer; more bytes wanted; a cut, or a panel that was refused: these two are final.
// A Result around an Option would nest what the rules list as four.
#[derive(Clone, Copy)]
pub enum Reply<T> {
    Answered(T),
    More,
    Cut,
    Refused,
}

// What was asked as it is after the call, and how many bytes of the part were taken.
#[derive(Clone, Copy)]
pub struct Next<S, T> {
    pub after: S,
    pub taken: usize,
    pub reply: Reply<T>,
}

// A record, and what is wrong with it where it is bad: apart, since whoever acts on a frame asks for no flaw.
#[derive(Clone, Copy)]
pub struct Front {
    pub frame: Frame,
    pub flaw: Option<Flaw>,
}

impl<T: Copy> Reply<T> {
    // What ends a reading; none where it goes on.
    pub fn refusal(self) -> Option<Refusal>
        ensures { result ≡ end_refusal self }
    {
        match self {
            Reply::Answered(_) | Reply::More => None,
            Reply::Cut => Some(Refusal::Cut),
            Reply::Refused => Some(Refusal::Unsound),
        }
    }
}

impl Run {
    // What ended it; none where it was read to its end.
    pub fn refusal(self) -> Option<Refusal>
        ensures { result ≡ run_refusal self }
    {
        if self.refused {
            return Some(Refusal::Unsound);
        }
        if self.cut { Some(Refusal::Cut) } else { None }
    }
}

impl Stream {
    pub fn start(panel: Panel) -> Stream
        ensures { result ≡ start_of panel }
    {
        if panel.sound() {
            return Stream {
                totals: Totals::start(panel),
                carry: Carry::empty(),
                over: false,
                refused: None,
            };
        }
        Stream {
            totals: Totals::start(Panel::fresh(ONE_LINE, 0, 0, 0)),
            carry: Carry::empty(),
            over: false,
            refused: Some(panel),
        }
    }

    // The panel so far; the one that was handed in, where it was refused.
    pub fn panel(self) -> Panel
        ensures { result ≡ panel_in self }
    {
        self.refused.unwrap_or(self.totals.panel)
    }

    // The number of the record that comes next, counted from 1.
    pub fn number(self) -> u64
        ensures { result ≡ number_in self }
    {
        raise(self.totals.records)
    }

    // The record that the bytes waiting and the part make whole.
    #[tactic(auto, using(crate::specs::laws::StreamLaws::front_read))]
    pub fn front(self, part: &[u8]) -> Front
        ensures { result ≡ front_of self part.now }
    {
        let filled = self.gathered(part);
        Front {
            frame: filled.carry.frame(),
            flaw: filled.carry.flaw(),
        }
    }

    // With these totals, and this tail unread.
    #[tactic(auto, using(crate::specs::laws::StreamLaws::rested_wants, crate::specs::laws::StreamLaws::keeps_wanting))]
    fn rest(self, totals: Totals, tail: &[u8]) -> Stream
        ensures { result ≡ rested_of self totals tail.now }
    {
        if wants_more(tail) {
            Stream {
                totals,
                carry: Carry::keep(tail),
                over: false,
                ..self
            }
        } else {
            Stream {
                totals,
                carry: Carry::empty(),
                over: true,
                ..self
            }
        }
    }

    // A part of any size, empty too: the records that are then whole are answered.
    #[tactic(auto, using(crate::specs::laws::ReadLaws::gathered_within))]
    pub fn feed(self, part: &[u8]) -> Stream
        ensures { result ≡ feed_of self part.now }
    {
        if self.over {
            return self;
        }
        let filled = self.gathered(part);
        let held = filled.carry.bytes();
        let first = self.totals.consume(held);
        if first.at == 0 {
            return self.rest(first.totals, held);
        }
        let second = first.totals.consume(&part[filled.taken..]);
        let at = filled.taken + second.at;
        self.rest(second.totals, &part[at..])
    }

    // No record is answered: a cut was met, or more bytes are wanted.
    fn stopped(self, taken: usize) -> Next<Stream, Verdict>
        ensures { result ≡ stopped_of self taken }
    {
        let reply = if self.over { Reply::Cut } else { Reply::More };
        Next {
            after: self,
            taken,
            reply,
        }
    }

    // The next record alone: no more of the part is taken than it needs.
    pub fn next(self, part: &[u8]) -> Next<Stream, Verdict>
        ensures { Replies self part.now result }
    {
        if self.refused.is_some() {
            return Next {
                after: self,
                taken: 0,
                reply: Reply::Refused,
            };
        }
        if self.over {
            return self.stopped(0);
        }
        let filled = self.gathered(part);
        let held = filled.carry.bytes();
        let r = self.totals.panel.turned(held);
        if r.used == 0 {
            return self.rest(self.totals, held).stopped(filled.taken);
        }
        Next {
            after: self.rest(self.totals.count(r), &[]),
            taken: filled.taken,
            reply: Reply::Answered(Verdict {
                answer: r.answer,
                byte: r.byte,
            }),
        }
    }

    // Whether nothing more is read: the panel was refused, or a cut was met.
    pub fn ended(self) -> bool
        ensures { result ≡ ended_of self }
    {
        self.refused.is_some() || self.over
    }

    // The bytes waiting, with just those of the part that make their record whole.
    #[tactic(auto, using(crate::specs::laws::StreamLaws::gathers))]
    pub fn gathered(self, part: &[u8]) -> Filled
        ensures { result ≡ filled_of (waiting_bytes self) part.now }
    {
        self.carry.wanting().fill(part)
    }

    // What was read of it, record by record, with this tail unread. A panel that is not sound is refused, whoever put it
    // together.
    pub fn read(
        self,
        reading: Reading,
        display: [u8; DISPLAY_SIZE],
        pattern: [u8; PATTERN_SIZE],
        counts: [u64; COUNTS],
        tail: &[u8],
    ) -> Stream
        ensures { result ≡ read_of self (totals_read reading display pattern counts) tail.now }
    {
        let totals = reading.totals(display, pattern, counts);
        if totals.panel.sound() {
            return self.rest(totals, tail);
        }
        Stream::start(totals.panel)
    }

    // The end of the log.
    pub fn end(self) -> Run
        ensures { result ≡ end_of self }
    {
        if let Some(given) = self.refused {
            return Run {
                panel: given,
                counts: [0; COUNTS],
                records: self.totals.records,
                cut: false,
                refused: true,
            };
        }
        Run {
            panel: self.totals.panel,
            counts: self.totals.counts,
            records: self.totals.records,
            cut: self.over || !self.carry.bytes().is_empty(),
            refused: false,
        }
    }
}

impl Panel {
    // A whole log.
    #[tactic(auto, using(crate::specs::laws::NextLaws::runs, crate::specs::laws::StreamLaws::feed_run))]
    pub fn run(self, log: &[u8]) -> Run
        ensures { Runs self log.now result }
    {
        Stream::start(self).feed(log).end()
    }
}
