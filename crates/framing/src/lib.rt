// The framing that every chip's log shares: the record at the front, how many records there are, and the bytes carried
// from one part of a log to the next.
#![tactic(auto)]

pub mod carry;
pub mod flaw;
pub mod frame;
pub mod front;
pub mod records;
