// The public calls for tests and benchmarks written in C alone: each does what the call that it names does. The
// signatures are those of tests/probe.c: coordinates one by one, and what is answered beside the number through a lent place.
#![tactic(auto)]

mod asking;
mod counts;
mod looking;
mod numbers;
mod operating;
mod ranges;
mod searching;
mod testing;
mod values;

pub use asking::{probe_check, probe_holder, probe_member, probe_part};
pub use counts::{probe_count, probe_counts};
pub use looking::probe_fleet;
pub use operating::{probe_complement, probe_difference, probe_intersection, probe_union};
pub use ranges::probe_range;
pub use searching::{probe_coordinate, probe_search, probe_tally};
pub use testing::{probe_built, probe_pivots, probe_test, probe_tests};
pub use values::{probe_greatest, probe_least};
