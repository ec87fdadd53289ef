// The rows of a simplex tableau in numbers of two words: the exchange, and the searches that choose one. As `tableau`, at 128 bits.
#![tactic(auto)]

pub mod pivot;
pub mod row;
pub mod search;

pub use pivot::exchange;
pub use search::{helping, narrow, violated};
