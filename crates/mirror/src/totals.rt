// What a run has come to, and the loop over the records of a log.
ghost use Rattle.std.specs.Prelude.{◌≡◌};
ghost use Rattle.mirror.specs.Run.{started, counted};
ghost use Rattle.mirror.specs.engine.Reading.{consumed_of};

use crate::count::{COUNTS, raise, tally};
use crate::panel::Panel;
use crate::reading::Reading;
use crate::record::Recorded;

// The panel, the counts, each at its answer's place, and the number of records.
#[derive(Clone, Copy)]
pub struct Totals {
    pub panel: Panel,
    pub counts: [u64; COUNTS],
    pub records: u64,
}

// The totals after the whole records at the front of a log, and how many bytes these are.
#[derive(Clone, Copy)]
pub struct Consumed {
    pub totals: Totals,
    pub at: usize,
}

impl Totals {
    // Nothing is read yet.
    pub(crate) fn start(panel: Panel) -> Totals
        ensures { result ≡ started panel }
    {
        Totals {
            panel,
            counts: [0; COUNTS],
            records: 0,
        }
    }

    // One record more, answered so.
    pub(crate) fn count(mut self, r: Recorded) -> Totals
        ensures { result ≡ counted self r }
    {
        self.panel = r.panel;
        tally(&mut self.counts, r.answer);
        self.records = raise(self.records);
        self
    }

    // Every whole record at the front of the log, one after the other. No iterator: where a record ends is what each turn answers.
    pub(crate) fn consume(self, log: &[u8]) -> Consumed
        ensures { result ≡ consumed_of self log.now }
    {
        let mut display = self.panel.sheet.display;
        let mut pattern = self.panel.sheet.pattern;
        let mut counts = self.counts;
        let mut reading = Reading::of(self.panel, self.records);
        let mut at: usize = 0;
        loop {
            reading.next(&log[at..], &mut display, &mut pattern, &mut counts);
            let used = reading.used();
            if used == 0 {
                let totals = reading.totals(display, pattern, counts);
                return Consumed { totals, at };
            }
            at += used;
        }
    }
}
