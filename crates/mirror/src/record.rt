// One record at the front of a slice.
ghost use Rattle.mirror.specs.Promise.{Records};

use crate::answer::Answer;
use crate::panel::Panel;

// The next panel, with the answer, the bus byte and the bytes used beside it: 0 where the record is cut or the panel refused, as
// the rules have it (docs/DECISIONS.md, "Readings of the rules"). Answer and byte stand apart, as the definitions of a row have them.
#[derive(Clone, Copy)]
pub struct Recorded {
    pub panel: Panel,
    pub answer: Answer,
    pub byte: u8,
    pub used: usize,
}

impl Panel {
    #[tactic(auto, using(crate::specs::laws::TableLaws::records, crate::specs::laws::TableLaws::answered_sound, crate::specs::laws::TableLaws::refused_unsound))]
    pub fn record(self, log: &[u8]) -> Recorded
        ensures { Records self log.now result }
    {
        if !self.sound() {
            return Recorded {
                panel: self,
                answer: Answer::Unsound,
                byte: 0,
                used: 0,
            };
        }
        self.turned(log)
    }
}
