// The script program as definitions (specs/): what a script prints, and the turns in which it is printed. Here: what a turn
// goes by.
#![tactic(auto)]

// Where a listing stands: the place of the next command in the set's bytes, the basic sets opened before it, and the
// divisions of the last one.
#[derive(Clone, Copy, Debug, PartialEq, Eq)]
pub struct Cursor {
    pub set: usize,
    pub place: usize,
    pub basics: usize,
    pub divisions: usize,
}

// n, 0 before `10` gives it, and the listing that is under way.
#[derive(Clone, Copy, Debug, PartialEq, Eq)]
pub struct State {
    pub axes: usize,
    pub listing: Option<Cursor>,
}

// What comes after a turn.
#[derive(Clone, Copy, Debug, PartialEq, Eq)]
pub enum Next {
    // another turn
    Goes,
    // more input, or that there is none, before the next turn
    Reads,
    Ends,
    // memory or a state that no turn leaves
    Misused,
}
