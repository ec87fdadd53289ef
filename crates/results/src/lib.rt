// The result of an operation: its basic sets put into the lent table, and the answer of the call.
#![tactic(auto)]

mod results;

pub use results::{Done, emit, finish, refuse};
