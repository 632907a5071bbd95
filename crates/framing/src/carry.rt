// The bytes of a record that is cut at the end of one part of a log, carried to the next part.
ghost use Rattle.std.specs.Prelude.{◌≡◌, ◌≤◌, [], take};
ghost use Rattle.framing.specs.Flaw.{flaw_of};
ghost use Rattle.framing.specs.Frame.{frame_of, wants_more};
ghost use Rattle.framing.specs.Carry.{room, carried_of, carry_of, wanting_of, topped_of, filled_of};
ghost use Rattle.framing.specs.engine.Reading.{Reach};

use crate::flaw::Flaw;
use crate::frame::Frame;
use crate::front::{flaw, frame, told, wants_more};
use buffer::buffer::Buffer;

// The largest record, 64 bytes and the length's own two.
const ROOM: usize = 66;

// The bytes carried.
#[derive(Clone, Copy)]
pub struct Carry {
    pub held: Buffer<ROOM>,
}

// A carry, and how many bytes of the part it took.
#[derive(Clone, Copy)]
pub struct Filled {
    pub carry: Carry,
    pub taken: usize,
}

impl Carry {
    // Nothing carried.
    pub fn empty() -> Carry
        ensures { result ≡ carry_of [] }
    {
        Carry {
            held: Buffer::empty(),
        }
    }

    // The whole of a part that wants more: at most 65 bytes. Of a longer part, the first 66.
    pub fn keep(part: &[u8]) -> Carry
        ensures { result ≡ carry_of (take room part.now) }
    {
        Carry {
            held: Buffer::keep(part),
        }
    }

    // The bytes carried.
    pub fn bytes(&self) -> &[u8]
        ensures { result.now ≡ carried_of self.now }
    {
        self.held.as_slice()
    }

    // What stands at the front of the carried bytes.
    pub fn frame(&self) -> Frame
        ensures { result ≡ frame_of (carried_of self.now) }
    {
        frame(self.bytes())
    }

    // What is wrong with it.
    pub fn flaw(&self) -> Option<Flaw>
        ensures { result ≡ flaw_of (carried_of self.now) }
    {
        flaw(self.bytes())
    }

    // Whether they may be a whole record once more bytes follow.
    pub fn wants_more(&self) -> bool
        ensures { result ≡ wants_more (carried_of self.now) }
    {
        wants_more(self.bytes())
    }

    // The same bytes, 0 after them; none where they want no more.
    #[tactic(auto, using(crate::specs::laws::CarryLaws::keep_wanting, crate::specs::laws::CarryLaws::drop_broken))]
    pub fn wanting(self) -> Carry
        ensures { result ≡ carry_of (wanting_of (carried_of self)) }
    {
        if self.wants_more() {
            Carry::keep(self.bytes())
        } else {
            Carry::empty()
        }
    }

    // How many bytes its record wants: the length's own two until they are there, then all that it counts.
    #[tactic(auto, using(crate::specs::laws::CarryLaws::reach_is))]
    fn reach(self) -> usize
        ensures { Reach (carried_of self) result }
    {
        told(self.bytes()).unwrap_or(2)
    }

    // The carry with the bytes of a part that bring it up to `to`.
    fn topped(self, to: usize, part: &[u8]) -> Filled
        requires { to ≤ room }
        ensures { result ≡ topped_of (carried_of self) to part.now }
    {
        let taken = to.saturating_sub(self.bytes().len()).min(part.len());
        let mut held = self.held;
        held.extend(&part[..taken]);
        Filled {
            carry: Carry { held },
            taken,
        }
    }

    // The carry with just the bytes of a part that make its record whole: first up to its length, then all that this
    // counts, and never more.
    pub fn fill(self, part: &[u8]) -> Filled
        ensures { result ≡ filled_of (carried_of self) part.now }
    {
        let to = self.topped(2, part).carry.reach();
        self.topped(to, part)
    }
}
