//! Blocks are split into parts, and two of them exchange their references.
#![tactic(auto)]

mod laws;
mod refs;
mod split;
mod swapping;

pub use laws::{parts_follow_the_list_machine, worked_parts};
pub use split::{split_half, split_to};
pub use swapping::swap;

#[cfg(test)]
mod tests;
