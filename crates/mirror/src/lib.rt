// The mirror: the panel, which is the sheet's machine with a clock and at most one waiting half, and its answers.
#![tactic(auto)]

pub mod answer;
mod bus;
pub mod count;
pub mod half;
mod live;
pub mod panel;
pub mod reading;
pub mod record;
pub mod stream;
mod totals;
mod transfer;
pub mod written;
