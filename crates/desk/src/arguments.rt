// The arguments of a program: --help alone, or groups of words, in any order, each at most once. What a program takes is
// said once, as it also prints it: `at TIME, font FILE` are two groups, each a name and the words that follow it.
ghost use Rattle.std.specs.Prelude.{◌+◌, ◌<◌, ◌≤◌, IfSome};

use crate::print::{STDERR, Stopped, complain, show};
use buffer::buffer::Buffer;
use std::env::FillError;
use std::rt::Env;

// The most groups that a program may take.
pub const GROUPS: usize = 11;

// The most bytes of an argument.
pub(crate) const WORD: usize = 4096;

// Of each group that a program takes, in their order, the place after its name, where it was given. A program numbers its groups
// and has no enum of them: the order is that of the words in the text that it prints.
#[derive(Clone, Copy)]
pub struct Given {
    pub places: [Option<usize>; GROUPS],
}

// Which group a name begins, and how many words follow it.
#[derive(Clone, Copy)]
struct Group {
    which: usize,
    words: usize,
}

// The argument at a place; no bytes where there is none, or where it is longer than the room. Its bytes may be any. No Option:
// an empty word is refused wherever a missing one is, in the same words.
#[tactic(auto, unfolding(buffer::specs::Buffer::buffer_of))]
pub(crate) fn argument(rt: &HostRuntime, place: usize) -> Buffer<WORD>
    ensures { result.len ≤ 4096 }
{
    let mut word = Buffer::empty();
    word.len = rt.arg(place, &mut word.bytes).unwrap_or(0);
    word
}

// Whether there is an argument at a place.
fn stands(rt: &HostRuntime, place: usize) -> bool {
    !matches!(rt.arg(place, &mut [0u8; 1]), Err(FillError::NotPresent))
}

// How many arguments there are, the program's own name among them.
fn argument_count(rt: &HostRuntime) -> usize {
    (0..usize::MAX)
        .take_while(|place| stands(rt, *place))
        .count()
}

// Which group of those that are taken a word begins. Commas and spaces stand between them.
fn group_of(takes: &[u8], word: &[u8]) -> Option<Group> {
    for (which, part) in takes.split(|byte| *byte == b',').enumerate() {
        let group = part.strip_prefix(b" ").unwrap_or(part);
        let mut words = group.split(|byte| *byte == b' ');
        if words.next() == Some(word) && !word.is_empty() {
            return Some(Group {
                which,
                words: words.count(),
            });
        }
    }
    None
}

impl Given {
    // The group that begins at a place: where the next one does. None where it is not taken, lacks a word or was given before.
    fn read_group(
        &mut self,
        rt: &HostRuntime,
        takes: &[u8],
        at: usize,
        count: usize,
    ) -> Option<usize>
        requires { at < count }
        ensures { IfSome result (λ next. (at < next) × (next ≤ count)) }
    {
        let group = group_of(takes, argument(rt, at).as_slice())?;
        if count - at <= group.words {
            return None;
        }
        let place = self.places.get_mut(group.which)?;
        if place.is_some() {
            return None;
        }
        *place = Some(at + 1);
        Some(at + 1 + group.words)
    }
}

// All groups. The program's own name stands at place 0, and a group takes as many places as it has words.
fn read_groups(rt: &HostRuntime, takes: &[u8], count: usize) -> Option<Given> {
    let mut given = Given {
        places: [None; GROUPS],
    };
    let mut next = 1;
    while next < count {
        next = given.read_group(rt, takes, next, count)?;
    }
    Some(given)
}

// One line on standard error: what the program takes.
fn complain_of(name: &[u8], takes: &[u8]) -> Stopped {
    if takes.is_empty() {
        return complain(name, b"takes no argument but --help");
    }
    io::write_all(STDERR, name);
    io::write_all(STDERR, b": takes ");
    io::write_all(STDERR, takes);
    io::write_all(STDERR, b", each at most once, or --help alone\n");
    Stopped
}

// The arguments of the program `name`, which takes the groups `takes`. It is not to go on where it was asked for help,
// which is then written, or for something that it does not take: then a line was written.
pub fn asked(rt: &HostRuntime, name: &[u8], takes: &[u8], help: &[u8]) -> Result<Given, Stopped> {
    let count = argument_count(rt);
    if count == 2 && argument(rt, 1).as_slice() == b"--help".as_slice() {
        show(help);
        return Err(Stopped);
    }
    read_groups(rt, takes, count).ok_or_else(|| complain_of(name, takes))
}
