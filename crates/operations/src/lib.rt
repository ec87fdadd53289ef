// Union, intersection, difference and complement of sets (document 01, "Cutting rules").
#![tactic(auto)]

mod calls;
mod pairs;

pub use calls::{complement, difference, intersection, union};
