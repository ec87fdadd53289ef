// The memory of a state with its marks (document 02, request 8): four lent tables of 17 slots, the state's own and one a name.
#![tactic(auto)]

pub mod ranks;
pub mod slots;
pub mod sound;
