//! Why a step isn't taken, and why an op isn't queued.

use std::alloc::AllocError;

/// Why a step isn't taken.
#[derive(Clone, Copy, Debug, PartialEq, Eq)]
pub enum StepRefused {
    /// The actor's queue is empty.
    NoStep,
    /// The manager holds the module list.
    ListHeld,
    /// The key has no reference, or an op under way names it.
    NotLive(u32),
    /// The key holds something, or an op under way names it.
    KeyUsed(u32),
    /// The CPU isn't inside the section's module.
    NotRunning(u32),
    /// The CPU is inside the section's module.
    Inside(u32),
    /// The section has no loaded module.
    NotLoaded(u32),
    /// The section has a loaded module.
    AlreadyLoaded(u32),
    /// So many CPUs are inside the module.
    Busy(u32),
    /// The module list is full, or the last id is given.
    Full,
    /// No range of the area is free for the module.
    NoRoom,
    /// The size can't be divided into so many equal parts.
    Uneven,
    /// A trim takes no fewer bytes than the reference has.
    TooSmall,
}

/// Why an op isn't queued.
#[derive(Debug, Drop)]
pub enum QueueError {
    QueueFull,
    Memory(AllocError),
}
