//! What the whole of memprof speaks of: the shape of a machine, tags and references, and the state of its
//! words. The definitions of the laws stand in `specs/`, and each step that the machine may take is proved to
//! keep them in `safe_laws` and the other files of laws.
#![tactic(auto)]

pub mod cover_laws;
pub mod index;
pub mod limits;
pub mod list_machine;
pub mod part_laws;
pub mod plain_laws;
pub mod ref_word;
pub mod release_laws;
pub mod safe_laws;
pub mod shape;
pub mod state;
pub mod sum_laws;
pub mod sweep_laws;
pub mod worked_laws;

pub use index::{byte_word, call_word, obj_cell, page_cell};
pub use limits::{
    AREA_TAGS, KERNEL_TAGS, MAX_CPUS, MAX_FRAMES, MAX_HAND_CALLS, MAX_PLACES, MAX_TAGS,
    MAX_VECTORS, SIZE_END, VECTOR_CELLS,
};
pub use ref_word::{Ref, RefWord};
pub use shape::{Shape, ShapeError};
pub use state::{
    CpuPart, Hand, Held, Kind, ListPart, Note, Part, Reader, Record, Run, Stop, Sweep, Tag,
};

#[cfg(test)]
mod tests;
