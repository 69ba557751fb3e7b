//! Runs a trace: item after item, on a plant.
#![tactic(auto)]

mod item;
mod items;
mod outcome;
mod running;

pub use items::play_items;
pub use outcome::{Outcome, Refusal};
pub use running::{RunError, run};
