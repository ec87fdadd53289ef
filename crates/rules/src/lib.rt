// The numbers of an expression, a rule or divisions as a call takes them: refused, or as the values of crate `model`.
#![tactic(auto)]

mod coefficients;
mod constraints;
mod divisions;
mod expressions;

pub use constraints::{check_rule, constraint_of};
pub use divisions::{check_start, divisions_of};
pub use expressions::{check_expression, inequality_of};
use model::limit;

// An expression as an inequality's numbers: constant + axes·x + divisions·q.
#[derive(Clone, Copy)]
pub struct Expression {
    pub constant: i32,
    pub axes: [i32; limit::AXES],
    pub divisions: [i32; limit::DIVISIONS],
}

// A rule as numbers: constant + axes·x + divisions·q, that is = 0 (equality) or ≥ 0.
#[derive(Clone, Copy)]
pub struct Rule {
    pub equality: bool,
    pub constant: i32,
    pub axes: [i32; limit::AXES],
    pub divisions: [i32; limit::DIVISIONS],
}

// A division as numbers: floor((axes·x + constant) / divisor).
#[derive(Clone, Copy)]
pub struct Quotient {
    pub divisor: i32,
    pub constant: i32,
    pub axes: [i32; limit::AXES],
}
