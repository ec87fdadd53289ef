// The test for fractions at two word sizes: what is wide at 64 bits goes on from that very pivot in numbers of two words.
#![tactic(auto)]

pub mod both;
pub mod carry;
pub mod choose;
pub mod going;
pub mod testing;

pub use testing::{test, test_basic, test_counted};
