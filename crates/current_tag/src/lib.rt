//! The tag under which a task allocates. A hook puts another one in its place, and is taken off again.
#![tactic(auto)]

mod laws;
mod task;

pub use laws::{hooks_are_inverse, worked_hooks};
pub use task::{Saved, Task};

#[cfg(test)]
mod tests;
