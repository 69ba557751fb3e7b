use std::alloc::AllocError;
use thiserror::Error;

/// Why no rows were read.
#[derive(Clone, Copy, Debug, PartialEq, Eq, Error)]
pub enum InfoError {
    #[error("line {line} is not of its form")]
    Refused { line: u32 },
    #[error("out of memory")]
    Memory(AllocError),
}

impl From<AllocError> for InfoError {
    ghost use Rattle.std.specs.Prelude.{◌≡◌};
    ghost use Rattle.info_read.specs.declared.error.InfoError.TheVariants.{Memory};

    ghost from_gives = { λ cause error. error ≡ Memory cause };

    fn from(cause: AllocError) -> InfoError {
        InfoError::Memory(cause)
    }
}
