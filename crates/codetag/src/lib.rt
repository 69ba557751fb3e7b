//! Code tags: a place in a source file, the function around it, and the text that names both.
#![tactic(auto)]

pub mod names;
mod number;
pub mod tag;
pub mod text;

pub use names::{is_file, is_function};
pub use number::write_number;
pub use tag::{CodeTag, TagError};
pub use text::TagText;

#[cfg(test)]
mod tests;
