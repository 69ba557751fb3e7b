//! References on cells: opened, marked, closed and trimmed by a CPU, as moves of the list machine.
#![tactic(auto)]

mod refs;

pub use refs::{Closed, close_ref, mark_empty, open_ref, trim_ref};
