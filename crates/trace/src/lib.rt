//! The trace language: a trace, and how it is read. The readers of both languages stand here.
#![tactic(auto)]

mod laws;
mod trace_lines;
mod trace_reading;
mod trace_words;
mod traces;

pub use input_form::{Code, LineError, TextError, error_at};
pub use laws::traces_are_formed;
pub use step_text::{
    StepAct, StepActor, StepLine, StepLines, StepOp, Steps, read_steps, steps_are_formed,
};
pub use trace_reading::read_trace;
pub use traces::{Item, Items, OnOp, OnOps, Trace, TraceOp};

#[cfg(test)]
mod tests;
