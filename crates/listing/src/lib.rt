// The lines that the script program prints, as bytes of text.
#![tactic(auto)]

mod lines;
mod text;

pub use lines::{at_line, constraint_line, counted_line, division_line, header};
pub use text::word;
