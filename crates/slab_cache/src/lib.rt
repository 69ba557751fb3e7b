//! Slab caches: objects by size class, in slabs of blocks, each with its reference in a vector of the slab.
#![tactic(auto)]

mod class;
mod frame_set;
mod giving;
mod homing;
mod laws;
mod node;
mod object;
mod place;
mod slab;
mod table;

pub use giving::{ObjError, kmalloc};
pub use homing::{kfree, take_home};
pub use laws::the_classes;
pub use node::SlabNode;
pub use object::{Back, Obj, is_counted};

#[cfg(test)]
mod tests;
