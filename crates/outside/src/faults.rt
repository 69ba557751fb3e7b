//! The ways in which reading and writing fail.
ghost use Rattle.std.specs.Prelude.{◌≡◌};
ghost use Rattle.outside.specs.declared.faults.ReadError.TheVariants.{Failed as read_failed, Memory};

use std::alloc::AllocError;
use thiserror::Error;

/// A call of a source or a sink failed. Its count of faults rose in that call.
#[derive(Clone, Copy, Debug, PartialEq, Eq)]
pub struct Failed;

/// Why the bytes of a source could not be read whole.
#[derive(Debug, Drop, Error)]
pub enum ReadError {
    #[error("the input could not be read")]
    Failed,
    #[error("the input is too long")]
    TooLong,
    #[error("no memory was left for the input")]
    Memory(AllocError),
}

impl From<Failed> for ReadError {
    ghost from_gives = { λ _ e. e ≡ read_failed };

    fn from(_failed: Failed) -> ReadError {
        ReadError::Failed
    }
}

impl From<AllocError> for ReadError {
    ghost from_gives = { λ cause e. e ≡ Memory cause };

    fn from(cause: AllocError) -> ReadError {
        ReadError::Memory(cause)
    }
}
