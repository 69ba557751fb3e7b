//! A line's error, with the line's number.

ghost use Rattle.std.specs.Prelude.{◌≡◌};
ghost use Rattle.input_form.specs.Judging.{error_at};

use crate::code::TextError;
use crate::line_error::LineError;

/// The error, at the line.
pub fn error_at(line: u32, error: LineError) -> TextError
    ensures { result ≡ error_at line error }
{
    match error {
        LineError::Refused(code) => TextError::Refused { line, code },
        LineError::Memory(error) => TextError::Memory(error),
    }
}
