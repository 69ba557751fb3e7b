//! The ops of a CPU: the machine of hands, places and queues, the steps of each op, and why a step is refused.
#![tactic(auto)]

mod inside;
mod machine;
mod op;
mod refusal;
mod refused;
mod reserved;
mod scene;
mod step;
mod waiting;
mod words;

pub use inside::Inside;
pub use machine::Machine;
pub use op::{CpuOp, KEY_END, MAX_PARTS, MAX_QUEUED};
pub use refused::{QueueError, StepRefused};
pub use scene::{Scene, loaded};
pub use step::WordStep;
pub use words::CpuWords;
