// The points of a box that are not in a set, and scale readings as ranges (document 02, 5).
#![tactic(auto)]

mod boxing;
mod outsides;
mod ranges;

pub use outsides::outside;
pub use ranges::{Range, Reading, box_range};
