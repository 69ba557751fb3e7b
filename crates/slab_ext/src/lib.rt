//! Vectors of cells. A CPU has some, and each slab that takes one keeps the references of its objects in it.
#![tactic(auto)]

mod laws;
mod vectors;

pub use laws::made_pools_are_whole;
pub use vectors::{Vector, VectorPool};

#[cfg(test)]
mod tests;
