// A stream that is being read, record by record: its totals without the memories and the counts, which are lent beside it,
// so that nothing large is carried from one record to the next (docs/DECISIONS.md, "Speed").
ghost use Rattle.std.specs.Prelude.{◌≡◌};
ghost use Rattle.mirror.specs.Run.{raised};
ghost use Rattle.mirror.specs.engine.Read.{reading_of, totals_read, used_read, answer_read, last_read, half_read, eight_read, Steps};

use crate::answer::{Answer, Verdict};
use crate::count::{COUNTS, raise, tally};
use crate::half::Half;
use crate::live::Live;
use crate::panel::Panel;
use crate::totals::Totals;
use crate::transfer::Outcome;
use chip::sizes::{DISPLAY_SIZE, PATTERN_SIZE};

// Nobody outside can look into one.
#[derive(Clone, Copy)]
pub struct Reading {
    live: Live,
    outcome: Outcome,
    records: u64,
}

impl Reading {
    // Of a panel, after so many records. The panel's own memories are to be lent with it.
    pub fn of(panel: Panel, records: u64) -> Reading
        ensures { result ≡ reading_of panel records }
    {
        let verdict = Verdict::of(Answer::Cut);
        Reading {
            live: Live::of(panel),
            outcome: Outcome { verdict, used: 0 },
            records,
        }
    }

    // The record at the front of the log: nothing is counted where it is cut.
    pub fn next(
        &mut self,
        log: &[u8],
        display: &mut [u8; DISPLAY_SIZE],
        pattern: &mut [u8; PATTERN_SIZE],
        counts: &mut [u64; COUNTS],
    )
        ensures { Steps self.old log.now display.old pattern.old counts.old self.new display.new pattern.new counts.new }
    {
        self.outcome = self.live.turn(log, display, pattern);
        if self.outcome.used > 0 {
            tally(counts, self.outcome.verdict.answer);
            self.records = raise(self.records);
        }
    }

    // How many bytes the last record had, 0 where it was cut, as a frame's size has it.
    pub fn used(self) -> usize
        ensures { result ≡ used_read self }
    {
        self.outcome.used
    }

    // How it was answered.
    pub fn answer(self) -> Answer
        ensures { result ≡ answer_read self }
    {
        self.outcome.verdict.answer
    }

    // The number of the record that comes next, counted from 1.
    pub fn number(self) -> u64
        ensures { result ≡ raised self.records }
    {
        raise(self.records)
    }

    // The last time seen.
    pub fn last(self) -> u64
        ensures { result ≡ last_read self }
    {
        self.live.last
    }

    // The half that waits.
    pub fn half(self) -> Half
        ensures { result ≡ half_read self }
    {
        self.live.half
    }

    // Whether the width is eight.
    pub fn eight(self) -> bool
        ensures { result ≡ eight_read self }
    {
        self.live.registers.eight
    }

    // The totals that it stands for, with the memories and the counts.
    pub(crate) fn totals(
        self,
        display: [u8; DISPLAY_SIZE],
        pattern: [u8; PATTERN_SIZE],
        counts: [u64; COUNTS],
    ) -> Totals
        ensures { result ≡ totals_read self display pattern counts }
    {
        Totals {
            panel: self.live.panel(display, pattern),
            counts,
            records: self.records,
        }
    }
}
