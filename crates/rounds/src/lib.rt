//! Runs a trace: round after round, each with one thread for each CPU that has ops in it.
#![tactic(auto)]

mod beginning;
mod dealing;
mod desk;
mod ending;
mod loading;
mod printing;
mod settling;
mod turning;

pub use desk::Desk;
