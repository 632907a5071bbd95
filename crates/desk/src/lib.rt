// What the programs share: their arguments, the files, numbers, chips and times among these, standard input, what they
// write, at once or gathered on a page, and what they show of how far they are.
#![tactic(auto)]

pub mod arguments;
pub mod bytes;
pub mod chips;
pub mod clock;
pub mod input;
pub mod number;
pub mod page;
pub mod print;
pub mod progress;
pub mod times;
pub mod told;
