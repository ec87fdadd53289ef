// The greatest and the least value of an expression over a basic set (document 02, request 11).
#![tactic(auto)]

pub mod asking;
pub mod begin;
pub mod value;
mod words;

pub use asking::{greatest, least};
use wide::{Magnitude, Wide};
pub use words::value_words;

// A fraction in lowest terms.
#[derive(Clone, Copy)]
pub struct Fraction {
    pub numerator: Wide,
    pub denominator: Magnitude,
}

// The answer; `extreme_is` in specs/Answers says what each case means.
#[derive(Clone, Copy)]
pub enum Extent {
    Empty,
    Unbounded,
    TooWide,
    TooLong,
    Value(Fraction),
}
