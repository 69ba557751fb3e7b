//! The manager of modules: who is inside which, the module list, and what loads, unloads and cleans.
#![tactic(auto)]

mod event;
mod modules;
mod op;

pub use event::{Cause, Event};
pub use modules::ModuleTable;
pub use op::ManagerOp;
