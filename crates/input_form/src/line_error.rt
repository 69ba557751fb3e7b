//! Why a line was not taken.

ghost use Rattle.std.specs.Prelude.{◌≡◌};
ghost use Rattle.input_form.specs.declared.line_error.LineError.TheVariants.{Memory, Refused};

use crate::code::Code;
use std::alloc::AllocError;

/// The first check that failed, or want of memory.
#[derive(Debug, Drop)]
pub enum LineError {
    Refused(Code),
    Memory(AllocError),
}

impl From<Code> for LineError {
    ghost from_gives = { λ code error. error ≡ Refused code };

    fn from(code: Code) -> LineError {
        LineError::Refused(code)
    }
}

impl From<AllocError> for LineError {
    ghost from_gives = { λ error made. made ≡ Memory error };

    fn from(error: AllocError) -> LineError {
        LineError::Memory(error)
    }
}
