// Both halves of the search for an extreme value (document 02, request 11) on a table of two-word numbers, with the expression's
// row beside it: the table has room for the conditions of a basic set and no more.
#![tactic(auto)]

pub mod climb;
pub mod cross;
pub mod point;
pub mod stops;

// How the second half ends: no column improves the value, no row stops the one that does, or a limit.
#[derive(Clone, Copy)]
pub enum Outcome {
    Best,
    Endless,
    Long,
    Wide,
}

// What a step of the second half says: an end, or the variables of the row and the column to exchange.
#[derive(Clone, Copy)]
pub enum Step {
    Ends(Outcome),
    Turns(usize, usize),
}
