// Basic sets as values: decoded from checked bytes, encoded into a lent table.
#![tactic(auto)]

mod decoding;
mod writing;

pub use decoding::decode_basic;
pub use writing::{clear, copy_bytes, encode_basic};
