// Divisions joined, opposites, and rules tightened: the parts of a cut that need no test (document 01, "Cutting rules").
#![tactic(auto)]

mod divisions;
mod opposites;
mod tightening;

pub use divisions::{Joined, join, moved};
pub use tightening::{
    any_divisible, joining_rule, opposite_above, opposite_below, tight_above, tight_below,
    tight_set, void,
};
