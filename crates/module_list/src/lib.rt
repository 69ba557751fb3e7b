//! The module list as the machine keeps it: its records, the sweep that finds out which dead ones nothing names, and why
//! a sweep left one. Each change of it is one step of the step rules. Whoever takes that step reads the words.
#![tactic(auto)]

pub mod list;
pub mod row_laws;

pub use list::RecordList;

#[cfg(test)]
mod tests;
