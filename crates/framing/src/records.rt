// How many records a log has.
ghost use Rattle.std.specs.Prelude.{◌≡◌};
ghost use Rattle.framing.specs.Frames.{records_of};

use crate::front::whole;

// The whole records before the cut or the end, off the lengths alone.
#[tactic(auto, using(crate::specs::laws::FrontLaws::some_front, crate::specs::laws::FramesLaws::records_end))]
pub fn records(log: &[u8]) -> usize
    ensures { result ≡ records_of log.now }
{
    let mut rest = log;
    let mut count = 0;
    while let Some(size) = whole(rest) {
        rest = &rest[size..];
        count += 1;
    }
    count
}
