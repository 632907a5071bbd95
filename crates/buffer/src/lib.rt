// Bytes by value, in a room of a fixed size.
#![tactic(auto)]

pub mod buffer;
