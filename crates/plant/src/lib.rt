//! A table with all that stands on it.
#![tactic(auto)]

mod laws;
mod left;
mod starting;
mod table;
mod words;
mod worker;

pub use laws::workers_begin_as_the_meaning_does;
pub use left::Left;
pub use starting::Started;
pub use table::{Plant, print_quiet};

#[cfg(test)]
mod tests;
