// One cut: the pieces of the candidates that are kept (document 01, "Cutting rules"), and two basic sets in one.
#![tactic(auto)]

mod pieces;

pub use pieces::{CutSteps, both, cut, piece};
