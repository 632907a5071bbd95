// The frames that the painter and the comparison are lent.
use buffer::buffer::Buffer;
use desk::bytes::{ROOM, load};
use desk::number::number_at;
use desk::print::{Stopped, complain};
use picture::frame::frame_size;

// The largest frame, to paint or to compare.
const MOST: u64 = 200;

// The size of the frames that are painted: what an argument names, or that of the chip's frame.
pub(crate) fn size_at(rt: &HostRuntime, place: Option<usize>, chip: u8) -> Result<usize, Stopped> {
    let Some(at) = place else {
        return Ok(frame_size(chip));
    };
    match number_at(rt, at, MOST) {
        Some(size) => Ok(size as usize),
        None => Err(complain(b"trace", b"frame takes a number of at most 200")),
    }
}

// A frame to compare, in a file.
fn frame_at(rt: &HostRuntime, place: usize) -> Result<Buffer<ROOM>, Stopped> {
    let frame = load(rt, place)?;
    if MOST < frame.len as u64 {
        return Err(complain(b"trace", b"a frame to compare has at most 200 bytes"));
    }
    Ok(frame)
}

// The two frames to compare, where they are named.
pub(crate) fn frames_at(
    rt: &HostRuntime,
    place: Option<usize>,
) -> Result<Option<[Buffer<ROOM>; 2]>, Stopped> {
    let Some(at) = place else {
        return Ok(None);
    };
    let first = frame_at(rt, at)?;
    let second = frame_at(rt, at.wrapping_add(1))?;
    Ok(Some([first, second]))
}
