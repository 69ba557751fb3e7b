//! The step language: a schedule, and how it is read.
#![tactic(auto)]

mod laws;
mod step_lines;
mod step_reading;
mod step_words;
mod steps;

pub use laws::steps_are_formed;
pub use step_reading::read_steps;
pub use steps::{StepAct, StepActor, StepLine, StepLines, StepOp, Steps};

#[cfg(test)]
mod tests;
