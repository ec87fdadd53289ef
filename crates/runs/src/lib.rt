// Runs: values of one axis, one after the other, at each of which a basic set cannot hold, or at each of which it
// holds.
#![tactic(auto)]

mod guesses;
mod holding;
mod keeping;
mod lasting;

pub use holding::failing_run;
pub use keeping::keeping_run;
