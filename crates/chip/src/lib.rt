// The sheet's machine: the chip with no clock and no half transfers.
#![tactic(auto)]

pub mod address;
pub mod instruction;
pub mod registers;
pub mod sheet;
pub mod sizes;
pub mod written;
