//! The CPUs of a round side by side: each takes its own ops, in a thread of its own.
#![tactic(auto)]

mod laws;
mod running;
mod sending;
mod sorting;

pub use laws::{lanes_go_by_number, lanes_have_the_ops_of_their_cpus};
pub use running::run_lanes;
pub use sending::workers_cross_threads;
pub use sorting::by_cpu;
