// A record's turn, and what a transfer comes to. A byte that completes is told first, so that what acts on it stands in one
// place: the compiler sets that into the loop over records, and keeps what it would need twice out of it. The memories are lent
// side by side, as the chip's steps take them: each is lent the one that it touches.
ghost use Rattle.std.specs.Prelude.{◌≡◌, leb};
ghost use Rattle.framing.specs.Frame.{frame_of, size_of};
ghost use Rattle.mirror.specs.engine.Record.{transferred, answered};
ghost use Rattle.mirror.specs.engine.Live.{Offers, panel_of, settled_of, recorded_of};
ghost use Rattle.mirror.specs.engine.Acts.{IsInTime, completed_of, Finishes, Reads, Rests, Begins, Ends};

use crate::answer::{Answer, Verdict};
use crate::bus::Transfer;
use crate::half::Half;
use crate::live::{Live, span};
use crate::panel::Panel;
use crate::record::Recorded;
use chip::registers::Registers;
use chip::sizes::{DISPLAY_SIZE, PATTERN_SIZE};
use framing::frame::Frame;
use framing::front::frame;

// How a record was answered, and how many bytes it has.
#[derive(Clone, Copy)]
pub(crate) struct Outcome {
    pub verdict: Verdict,
    pub used: usize,
}

impl Live {
    // The byte that this transfer completes, where the chip takes one: written whole while it is free, or joined of two halves
    // that count.
    fn completed(&self, t: Transfer) -> Option<u8>
        ensures { result ≡ completed_of self.now.registers.eight self.now.half (leb self.now.busy t.time) t.rs t.rw t.data }
    {
        if t.rw {
            return None;
        }
        if self.registers.eight {
            return self.free(t.time).then_some(t.data);
        }
        match self.half {
            Half::Waiting { rs, rw, nibble } if rs == t.rs && !rw => {
                Some(nibble % 16 * 16 + t.data / 16)
            }
            _ => None,
        }
    }

    // A byte that is complete: data, none, or an instruction.
    fn finish(
        &mut self,
        t: Transfer,
        byte: u8,
        display: &mut [u8; DISPLAY_SIZE],
        pattern: &mut [u8; PATTERN_SIZE],
    ) -> Verdict
        ensures { Finishes t.time t.rs byte self.old display.old pattern.old self.new display.new pattern.new result }
    {
        let was = self.registers;
        if t.rs {
            let next = was.write(byte, display, pattern);
            return self.done(next, t.time, self.times.short, Answer::Taken, 0);
        }
        if byte == 0 {
            return self.pass(t.time, Answer::Nothing, 0);
        }
        let next = was.obey(byte, display);
        self.done(next, t.time, span(self.times, byte), Answer::Taken, 0)
    }

    // A data read that is carried out: one that is not good is doubtful, and carries 0.
    fn read(&mut self, t: Transfer, byte: u8) -> Verdict
        ensures { Reads t.time byte self.old self.new result }
    {
        let was = self.registers;
        let next = was.read();
        if was.good {
            return self.done(next, t.time, self.times.short, Answer::Taken, byte);
        }
        self.done(next, t.time, self.times.short, Answer::Doubtful, 0)
    }

    // A transfer at width 8 that completes no byte: a read, or a write that the busy chip ignores.
    fn whole(
        &mut self,
        t: Transfer,
        display: &[u8; DISPLAY_SIZE],
        pattern: &[u8; PATTERN_SIZE],
    ) -> Verdict
        ensures { Rests t.time t.rs t.«rw» self.old display.now pattern.now self.new result }
    {
        let Transfer { time, rs, rw, .. } = t;
        if rw && !rs {
            let status = self.status(time);
            return self.pass(time, Answer::Status, status);
        }
        if rw && self.free(time) {
            return self.read(t, self.registers.here(display, pattern));
        }
        self.pass(time, Answer::Ignored, 0)
    }

    // The first half of a read that counts: the low half waits.
    fn offer(&mut self, t: Transfer, byte: u8) -> Verdict
        ensures { Offers t.time t.rs t.rw byte self.old self.new result }
    {
        let half = Half::Waiting {
            rs: t.rs,
            rw: t.rw,
            nibble: byte % 16,
        };
        self.hold(t.time, half, Answer::Held, byte / 16 * 16)
    }

    // The first half of a pair: whether it counts is decided here for the pair.
    fn first(
        &mut self,
        t: Transfer,
        display: &[u8; DISPLAY_SIZE],
        pattern: &[u8; PATTERN_SIZE],
    ) -> Verdict
        ensures { Begins t.time t.rs t.rw t.data self.old display.now pattern.now self.new result }
    {
        let Transfer { time, rs, rw, data } = t;
        if rw && !rs {
            let status = self.status(time);
            return self.offer(t, status);
        }
        if !self.free(time) {
            return self.hold(time, Half::Ignored { rs, rw }, Answer::Ignored, 0);
        }
        if rw {
            let good = self.registers.good;
            let byte = if good {
                self.registers.here(display, pattern)
            } else {
                0
            };
            return self.offer(t, byte);
        }
        let nibble = data / 16;
        self.hold(time, Half::Waiting { rs, rw, nibble }, Answer::Held, 0)
    }

    // The second half of a pair, by the RS and R/W of its first and the nibble that waits, none where that was ignored. It
    // completes no byte.
    fn second(&mut self, t: Transfer, rs: bool, rw: bool, nibble: Option<u8>) -> Verdict
        ensures { Ends t.time t.rs t.rw rs rw nibble self.old self.new result }
    {
        if rs != t.rs || rw != t.rw {
            return self.pass(t.time, Answer::Torn, 0);
        }
        let Some(nibble) = nibble else {
            return self.pass(t.time, Answer::Ignored, 0);
        };
        let low = nibble % 16 * 16;
        if t.rs {
            return self.read(t, low);
        }
        self.pass(t.time, Answer::Status, low)
    }

    // A transfer that is neither bad nor back.
    fn transfer(
        &mut self,
        t: Transfer,
        display: &mut [u8; DISPLAY_SIZE],
        pattern: &mut [u8; PATTERN_SIZE],
    ) -> Verdict
        ensures { settled_of self.new display.new pattern.new result ≡ transferred t.time t.rs t.rw t.data (panel_of self.old display.old pattern.old) }
    {
        if let Some(byte) = self.completed(t) {
            return self.finish(t, byte, display, pattern);
        }
        if self.registers.eight {
            return self.whole(t, display, pattern);
        }
        match self.half {
            Half::Empty => self.first(t, display, pattern),
            Half::Ignored { rs, rw } => self.second(t, rs, rw, None),
            Half::Waiting { rs, rw, nibble } => self.second(t, rs, rw, Some(nibble)),
        }
    }

    // What stands at the front of a log.
    fn act(
        &mut self,
        front: Frame,
        display: &mut [u8; DISPLAY_SIZE],
        pattern: &mut [u8; PATTERN_SIZE],
    ) -> Verdict
        requires { IsInTime front }
        ensures { recorded_of self.new display.new pattern.new result (size_of front) ≡ answered front (panel_of self.old display.old pattern.old) }
    {
        match front {
            Frame::Cut => Verdict::of(Answer::Cut),
            Frame::Bad(_) => Verdict::of(Answer::Bad),
            Frame::Reset { time } | Frame::Transfer { time, .. } if self.back(time) => {
                Verdict::of(Answer::Back)
            }
            Frame::Reset { time } => {
                let next = Registers::fresh(self.registers.chip, display, pattern);
                self.done(next, time, self.times.reset, Answer::Taken, 0)
            }
            Frame::Transfer { time, rs, rw, data } => {
                self.transfer(Transfer { time, rs, rw, data }, display, pattern)
            }
        }
    }

    // One record at the front of the log.
    #[tactic(auto, using(crate::specs::laws::ActsLaws::in_time))]
    pub(crate) fn turn(
        &mut self,
        log: &[u8],
        display: &mut [u8; DISPLAY_SIZE],
        pattern: &mut [u8; PATTERN_SIZE],
    ) -> Outcome
        ensures { recorded_of self.new display.new pattern.new result.verdict result.used ≡ answered (frame_of log.now) (panel_of self.old display.old pattern.old) }
    {
        let front = frame(log);
        Outcome {
            verdict: self.act(front, display, pattern),
            used: front.size(),
        }
    }
}

impl Panel {
    // One record, of a panel that is known to be sound.
    pub(crate) fn turned(self, log: &[u8]) -> Recorded
        ensures { result ≡ answered (frame_of log.now) self }
    {
        let mut display = self.sheet.display;
        let mut pattern = self.sheet.pattern;
        let mut live = Live::of(self);
        let Outcome { verdict, used } = live.turn(log, &mut display, &mut pattern);
        Recorded {
            panel: live.panel(display, pattern),
            answer: verdict.answer,
            byte: verdict.byte,
            used,
        }
    }
}
