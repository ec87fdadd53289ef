// The difference of two sets (document 01, "Cutting rules"): each basic set of the first cut by all of the second.
#![tactic(auto)]

mod levels;

pub use levels::{subtract, subtract_from};
