//! Sections of code tags: one for the kernel, and one for each module.
#![tactic(auto)]

pub mod module_name;
pub mod sections;
mod tag_lines;

pub use module_name::is_module_name;
pub use sections::{SectionError, Sections};

#[cfg(test)]
mod tests;
