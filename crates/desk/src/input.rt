// Standard input, block by block.
ghost use Rattle.std.specs.Prelude.{IfOk};
ghost use Rattle.io.specs.Counts.{IsPrefixLen};

use crate::print::{Stopped, fail};
use crate::progress::Progress;
use std::io::Read;

// The bytes that a program asks for at once. More makes no program faster, and each holds its block twice while it starts.
pub const BLOCK: usize = 32768;

// Reads once, into the front of the block: how many bytes there came, 0 at the end. A failure writes a line.
pub fn read_block(rt: &HostRuntime, block: &mut [u8]) -> Result<usize, Stopped>
    ensures { IfOk result (λ n. IsPrefixLen n block.new) }
{
    rt.stdin()
        .read(block)
        .map_err(|error| fail(rt, b"standard input", error))
}

// What a program does with its input. A trait and no closure: a call of a method asks nothing of whoever hands one in.
pub trait Listener {
    // Takes what a read brought, nothing at the end: whether more is wanted.
    fn hear(&mut self, progress: &mut Progress, part: &[u8]) -> bool;
}

// Hands over what each read brought, nothing at the end of the input, as long as more is wanted. A proved loop has to end, and
// nothing says that an input does: there are more turns than a run uses up.
fn hand_over<L: Listener>(
    rt: &HostRuntime,
    name: &[u8],
    progress: &mut Progress,
    block: &mut [u8],
    listener: &mut L,
) -> Result<(), Stopped> {
    for _ in 0..u64::MAX {
        let read = read_block(rt, block);
        progress.after(rt, name, read.unwrap_or(0));
        let n = read?;
        if !listener.hear(progress, &block[..n]) || n == 0 {
            break;
        }
    }
    Ok(())
}

// Reads standard input block by block, and hands over what each read brought, nothing at its end, as long as the listener wants
// more. The progress is shown all the while under the program's name, and taken away once all is read.
pub fn each_block<L: Listener>(
    rt: &HostRuntime,
    name: &[u8],
    start: Progress,
    block: &mut [u8],
    listener: &mut L,
) -> Result<(), Stopped> {
    let mut progress = start;
    let read = hand_over(rt, name, &mut progress, block, listener);
    progress.clear();
    read
}
