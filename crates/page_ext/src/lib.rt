//! The page allocator: a node gives blocks of frames, and each block carries the tag under which it was allocated.
#![tactic(auto)]

mod alloc;
mod block;
mod laws;
mod node;

pub use alloc::{NoFrames, alloc_pages, count_under, free_pages, take_back};
pub use block::{Block, Returned};
pub use laws::{blocks_follow_the_list_machine, worked_blocks};
pub use node::Node;

#[cfg(test)]
mod tests;
