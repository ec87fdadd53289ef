// Numbers of two words, with a sign, by value. Their laws (proofs/) are over the base of a word and over the width.
#![tactic(auto)]

mod division;
mod signed;
mod words;

pub use division::gcd;
pub use signed::{
    SIGN, determinant, high_of, is_narrow, is_negative, is_small, narrow, negate, quotient, unpack,
    widen,
};
pub use words::{is_one, is_zero};

// A number below 2^128, of two words.
#[derive(Clone, Copy)]
pub struct Magnitude {
    pub hi: u64,
    pub lo: u64,
}

// A signed number of two words: its sign and its size. 0 may have either sign.
#[derive(Clone, Copy)]
pub struct Wide {
    pub neg: bool,
    pub magnitude: Magnitude,
}
