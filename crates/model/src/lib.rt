// Decoded basic sets as values, field by field the definitions of specs/Sets. `basicSetOf` in specs/Values is what a value means.
#![tactic(auto)]

pub mod limit;
mod refusal;

pub use refusal::Refusal;

// floor((axes·x + constant) / divisor)
#[derive(Clone, Copy)]
pub struct Division {
    pub divisor: u32,
    pub constant: i32,
    pub axes: [i16; limit::AXES],
}

// constant + axes·x + divisions·q, that is = 0 (equality) or ≥ 0 (document 01: a rule); its number in the rulebook, 0 for none
#[derive(Clone, Copy)]
pub struct Constraint {
    pub equality: bool,
    pub number: u16,
    pub constant: i32,
    pub axes: [i16; limit::AXES],
    pub divisions: [i16; limit::DIVISIONS],
}

// The first `divs` divisions and the first `cons` constraints.
#[derive(Clone, Copy)]
pub struct BasicSet {
    pub divisions: [Division; limit::DIVISIONS],
    pub constraints: [Constraint; limit::CONSTRAINTS],
    pub divs: usize,
    pub cons: usize,
}
