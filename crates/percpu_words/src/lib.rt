//! The words of CPUs, as those read them who have the right to them.
#![tactic(auto)]

pub mod laws;
#[cfg(test)]
mod tests;
mod words;

pub use words::{own_word, quiet_total};
