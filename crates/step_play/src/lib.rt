//! What a schedule of the step language means, and the player that does what it means.
#![tactic(auto)]

mod acts;
mod laws;
mod play;
mod print;
mod rows;
mod schedule;

pub use laws::{inputs_are_safe, schedules_are_safe};
pub use rows::{worked_schedules, worked_schedules_of_modules};
pub use schedule::{End, Run, run_schedule};
