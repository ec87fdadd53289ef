// Named states (document 02, request 8): one working basic set with its tableau, and marks to step back to, in lent memory.
#![tactic(auto)]

mod adding;
mod marking;
mod opening;

pub use adding::add;
pub use marking::{back, mark};
pub use opening::start;

// What a call says that is not refused: the state's word, or that the memory has no state.
#[derive(Clone, Copy)]
pub enum Said {
    Point,
    Empty,
    Wide,
    Long,
    Misused,
}
