// A whole fleet at one look: which of up to 64 points are in a set, in one pass over its basic sets.
#![tactic(auto)]

mod looks;
mod marks;

pub use looks::{Seen, look, mask_in};
