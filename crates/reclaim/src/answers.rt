//! What the calls answer.

use tag_model::Kind;
use thiserror::Error;

/// What became of an unloaded module.
#[derive(Clone, Copy, Debug, PartialEq, Eq)]
pub enum Reclaim {
    /// Nothing is counted under its tags, and its range may be given again.
    Released,
    /// The words of this kind of this tag add up to `sum`, which isn't 0.
    Kept { tag: u32, kind: Kind, sum: u64 },
}

/// Why a module wasn't unloaded.
#[derive(Clone, Copy, Debug, PartialEq, Eq, Error)]
pub enum UnloadError {
    #[error("no module of this id is loaded")]
    NotLoaded,
    #[error("so many CPUs are inside the module: {0}")]
    Busy(u32),
}

/// No module of the id is loaded.
#[derive(Clone, Copy, Debug, PartialEq, Eq)]
pub struct NotLoaded;
