//! A walk over the tags of the kernel's section and of all modules' ranges, while modules come and go between its steps.
#![tactic(auto)]

pub mod iter;
pub mod laws;
pub mod place;
mod range;
mod walk;

pub use iter::TagIter;
pub use place::TagPlace;
pub use walk::next_locked;
