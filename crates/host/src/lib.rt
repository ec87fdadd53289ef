// The engine for the board's host in C: numbers and byte slices in, a signed number out (include/pitsets.h). The header's
// signatures stay: coordinates one by one, and what is answered beside the number through a lent place.
#![tactic(auto)]

mod asking;
mod counts;
mod looking;
mod operating;
mod ranging;
mod stepping;
mod values;

pub use asking::pitsets_member;
pub use counts::{pitsets_count, pitsets_counts};
pub use looking::pitsets_fleet;
pub use operating::{pitsets_complement, pitsets_difference, pitsets_intersection, pitsets_union};
pub use ranging::pitsets_range;
pub use stepping::{
    pitsets_state_add_in, pitsets_state_back_in, pitsets_state_mark_in, pitsets_state_start_in,
};
pub use values::{pitsets_greatest, pitsets_least};
