//! The word machine, run step by step: each step of each CPU is one step of the step rules, and every state
//! between two steps is safe.
#![tactic(auto)]

pub mod bounds;
pub mod laws;
pub mod machine;
pub mod op;
pub mod run;
pub mod step_table;

pub use machine::Core;
pub use op::{Actor, Cause, Event, Op, QueueError, StepRefused};

#[cfg(test)]
mod tests;
