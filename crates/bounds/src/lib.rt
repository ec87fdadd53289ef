// What a rule can still reach over a box: the least and the greatest value of the divisions and constraints of a basic
// set, by a row of ends that follows the box from one to the next, one axis at a time.
#![tactic(auto)]

mod ends;
mod holding;
mod rows;

pub use ends::{end_at, extreme, no_values};
pub use holding::{bounded, can_stand};
pub use rows::{fresh, gap, place, settle};
