// The first point of a set in a box; the steps of its walk, for whoever walks a box by the same prefix rule.
#![tactic(auto)]

mod first;
mod keeping;
mod levels;
mod opening;
mod windows;

pub use first::{FirstPoint, first_point};
pub use keeping::lasting;
pub use levels::{Outcome, Passed, Prefix, Stop, Way, climb, span_of, value_at};
pub use windows::{begin, corners_fit, limit_fits, upright};
