//! The check of a trace's rounds.
#![tactic(auto)]

mod cpus;
mod key_checks;
mod keys;
mod laws;
mod modules;
mod table;
mod walk;

pub use laws::{refusals_in_order, refusals_of_a_line_in_order, rounds_that_passed};
pub use walk::check_rounds;

#[cfg(test)]
mod tests;
