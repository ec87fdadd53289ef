// How many points of a box are in a set: the whole, and for each value of a chosen axis.
#![tactic(auto)]

mod calls;
mod levels;

pub use calls::{count, counts};
pub use levels::Counted;
