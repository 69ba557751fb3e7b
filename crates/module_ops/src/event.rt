//! What a step tells.

use tag_model::Kind;

/// Which op a sweep is of.
#[derive(Clone, Copy, Debug, PartialEq, Eq)]
pub enum Cause {
    Unload,
    Clean,
}

/// What a step that was taken tells.
#[derive(Clone, Copy, Debug, PartialEq, Eq)]
pub enum Event {
    Stepped,
    /// A module's range is released.
    Released {
        section: u32,
        by: Cause,
    },
    /// A module's range is kept, since the words of one of its tags don't sum up to 0.
    Kept {
        section: u32,
        index: u32,
        kind: Kind,
        sum: u64,
        by: Cause,
    },
}
