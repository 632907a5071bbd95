// The picture of a panel: patterns as arrays, where a dot lands, in mode A and in mode B, the codes and the cursor on the screen,
// the painter, the count of lit dots and the comparison.
#![tactic(auto)]

mod canvas;
pub mod compare;
mod count;
pub mod cursor;
pub mod frame;
pub mod mode;
pub mod paint;
pub mod pattern;
pub mod screen;
