// The record at the front of a log: told by its length, kind, time and control.
ghost use Rattle.std.specs.Prelude.{◌≡◌, ◌+◌, ◌≤◌, length};
ghost use Rattle.framing.specs.Flaw.{flaw_of};
ghost use Rattle.framing.specs.Frame.{num16, time_of, told_size, whole_size, wants_more, frame_of};
ghost use Rattle.framing.specs.engine.Reading.{Whole};

use crate::flaw::Flaw;
use crate::frame::Frame;

// 2^48: times are below it.
pub const TIME_END: u64 = 1 << 48;

// Length 12 and kind 1, as the first four bytes of a transfer have them.
const TRANSFER: u32 = 0x0001_000C;

// The little-endian number of two bytes at a place.
fn num16(log: &[u8], at: usize) -> u16
    requires { at + 2 ≤ length log.now }
    ensures { result ≡ num16 log.now at }
{
    u16::from_le_bytes([log[at], log[at + 1]])
}

// The time of a record that has one. Byte by byte: a try_from would answer a Result where all are there.
fn time(log: &[u8]) -> u64
    requires { 12 ≤ length log.now }
    ensures { result ≡ time_of log.now }
{
    u64::from_le_bytes([
        log[4], log[5], log[6], log[7], log[8], log[9], log[10], log[11],
    ])
}

// The record's size that its length tells; none where the length isn't there yet or lies outside 2 to 64.
#[tactic(auto, using(crate::specs::laws::FrontLaws::told_laws))]
pub fn told(log: &[u8]) -> Option<usize>
    ensures { result ≡ told_size log.now }
{
    if log.len() < 2 {
        return None;
    }
    match num16(log, 0) as usize {
        length @ 2..=64 => Some(length + 2),
        _ => None,
    }
}

// The size of the record at the front, with its length's own two bytes; none where it is cut.
#[tactic(auto, using(crate::specs::laws::FrontLaws::whole_told))]
pub fn whole(log: &[u8]) -> Option<usize>
    ensures { result ≡ whole_size log.now }
{
    told(log).filter(|size| *size <= log.len())
}

// Whether what is cut here may be whole once more bytes follow.
#[tactic(auto, using(crate::specs::laws::CutLaws::wants_told))]
pub fn wants_more(log: &[u8]) -> bool
    ensures { result ≡ wants_more log.now }
{
    log.len() < 2 || told(log).is_some_and(|size| log.len() < size)
}

// A transfer of the right length: its time and control are tested here.
#[tactic(auto, using(crate::specs::laws::FrameLaws::transfer_laws))]
fn transfer(log: &[u8]) -> Frame
    requires { Whole log.now 14 1 }
    ensures { result ≡ frame_of log.now }
{
    let time = time(log);
    if TIME_END <= time {
        return Frame::Bad(14);
    }
    let control = log[12];
    if 4 <= control {
        return Frame::Bad(14);
    }
    Frame::Transfer {
        time,
        rs: control % 2 == 1,
        rw: control / 2 % 2 == 1,
        data: log[13],
    }
}

// A reset of the right length.
#[tactic(auto, using(crate::specs::laws::FrameLaws::reset_laws))]
fn reset(log: &[u8]) -> Frame
    requires { Whole log.now 12 2 }
    ensures { result ≡ frame_of log.now }
{
    let time = time(log);
    if TIME_END <= time {
        return Frame::Bad(12);
    }
    Frame::Reset { time }
}

// Any record, by its size and kind. It has a way to a transfer too: asked whether one stands there in one place alone, the
// mirror's loop over records takes a twelfth longer, and a fifth where all are writes.
#[tactic(auto, using(crate::specs::laws::FrameLaws::any_laws))]
fn any(log: &[u8]) -> Frame
    ensures { result ≡ frame_of log.now }
{
    let Some(size) = whole(log) else {
        return Frame::Cut;
    };
    match (num16(log, 2), size) {
        (1, 14) => transfer(log),
        (2, 12) => reset(log),
        _ => Frame::Bad(size),
    }
}

// The record at the front, whatever follows it. Nearly all are transfers of the right length, which one look at the
// first four bytes tells.
pub fn frame(log: &[u8]) -> Frame
    ensures { result ≡ frame_of log.now }
{
    if 14 <= log.len() {
        let head = u32::from_le_bytes([log[0], log[1], log[2], log[3]]);
        if head == TRANSFER {
            return transfer(log);
        }
    }
    any(log)
}

// What is wrong with the record at the front: the first of these, whatever follows it.
#[tactic(auto, using(crate::specs::laws::FlawLaws::flaw_laws))]
pub fn flaw(log: &[u8]) -> Option<Flaw>
    ensures { result ≡ flaw_of log.now }
{
    let size = whole(log)?;
    let flaw = match (num16(log, 2), size) {
        (1, 14) | (2, 12) if TIME_END <= time(log) => Flaw::LateTime,
        (1, 14) if 4 <= log[12] => Flaw::StrayControl,
        (1, 14) | (2, 12) => return None,
        (1 | 2, _) => Flaw::Length(size - 2),
        (kind, _) => Flaw::Kind(u64::from(kind)),
    };
    Some(flaw)
}
