// One whole command of a script, on lent memory.
#![tactic(auto)]

mod commands;
mod memory;

pub use commands::{CommandDone, command, refused_line};
pub use memory::table;
