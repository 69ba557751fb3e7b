//! The module list of the core: which modules are loaded or dead, and the sweep that finds out which dead ones nothing
//! names. Each change of it is one step of the step rules.
#![tactic(auto)]

pub mod list;
pub mod rows;

pub use list::{CoreList, Next};

#[cfg(test)]
mod tests;
