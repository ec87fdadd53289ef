// Pivots shared among the tests for fractions of one cut: the test of the working constraints is run once and its pivots are kept; the test
// of one constraint more begins with the same pivots, so its row is brought through them and the test goes on from there.
#![tactic(auto)]

mod history;
mod working;

pub use history::Standing;
pub use working::{begin, candidate, grow};
