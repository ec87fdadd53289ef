// Candidates (document 01, "Cutting rules"): whether the test for fractions keeps one, alone or with the pivots of the working constraints' test.
#![tactic(auto)]

mod alone;
mod survivors;

pub use alone::{keeps, put};
pub use survivors::{Survivors, follow, kept, kept_alone, start};
