// Counts.
ghost use Rattle.std.specs.Prelude.{◌≡◌};
ghost use Rattle.mirror.specs.Run.{raised, tallied};

use crate::answer::Answer;

// The counts of a run: of taken, of doubtful, and of the answers 1 to 7.
pub const COUNTS: usize = 9;

// One more. A count stays at its greatest number, which no real log reaches.
pub fn raise(n: u64) -> u64
    ensures { result ≡ raised n }
{
    n.saturating_add(1)
}

// The count of an answer, raised.
#[tactic(auto, unfolding(crate::specs::Run::tallied))]
pub fn tally(counts: &mut [u64; COUNTS], answer: Answer)
    ensures { counts.new ≡ tallied counts.old answer }
{
    let n = answer.place() as usize;
    if n < COUNTS {
        counts[n] = raise(counts[n]);
    }
}
