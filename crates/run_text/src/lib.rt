//! What a run prints: the rows of a `print`, the lines of `areas`, and the last line.
#![tactic(auto)]

pub mod areas;
pub mod counts;
pub mod done;
pub mod laws;
pub mod print;
mod rows;

pub use areas::write_areas;
pub use counts::{ops_in, rounds_in};
pub use done::{Done, write_done};
pub use print::print_locked;
