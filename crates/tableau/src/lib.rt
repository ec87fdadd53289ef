// The rows of a simplex tableau as machine numbers, each over its own denominator: their exchange, and the searches that choose one.
#![tactic(auto)]

mod pivot;
mod row;
mod search;

pub use pivot::exchange;
pub use row::replace;
pub use search::{helping, is_violated, narrow, small, violated};
