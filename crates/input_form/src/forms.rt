//! The form of every line.

ghost use Rattle.std.specs.Prelude.{◌≡◌, ◌<◌, Ok, Err, drop, length, MatchResult, IfOk};
ghost use Rattle.text_form.specs.Lines.{lines_of, tail_of};
ghost use Rattle.input_form.specs.Forms.{is_skipped, line_form, tail_form, first_line};

use crate::code::Code;
use crate::words::need;
use text_form::{has_form_bytes, next_line};

/// The most lines of an input.
pub(crate) const LINE_LIMIT: u32 = 131_072;

/// The most bytes of a line, without its newline.
const LENGTH_LIMIT: usize = 300;

/// A line that a newline ends.
#[tactic(auto, unfolding(crate::specs::Forms::line_form))]
pub(crate) fn line_form(number: u32, line: &[u8]) -> Result<(), Code>
    ensures { result ≡ line_form number line.now }
{
    need(number <= LINE_LIMIT, Code::Lines)?;
    need(line.len() <= LENGTH_LIMIT, Code::Long)?;
    need(has_form_bytes(line), Code::Byte)
}

/// What stands behind the last newline.
#[tactic(auto, unfolding(crate::specs::Forms::tail_form))]
pub(crate) fn tail_form(number: u32, tail: &[u8]) -> Result<(), Code>
    ensures { result ≡ tail_form number tail.now }
{
    if tail.is_empty() {
        Ok(())
    } else if number <= LINE_LIMIT {
        Err(Code::Cut)
    } else {
        Err(Code::Lines)
    }
}

/// Whether a line is empty or a comment.
#[tactic(auto, unfolding(crate::specs::Forms::is_skipped))]
pub(crate) fn is_skipped(line: &[u8]) -> bool
    ensures { result ≡ is_skipped line.now }
{
    line.is_empty() || line[0] == b'#'
}

/// The first line, which is to be the header, and the text behind it.
#[tactic(auto, unfolding(crate::specs::Forms::first_line))]
pub fn first_line(text: &[u8]) -> Result<(&[u8], &[u8]), Code>
    ensures judged { MatchResult result
        (λ x. first_line (lines_of text.now) (tail_of text.now) ≡ Ok x.0.now)
        (λ code. first_line (lines_of text.now) (tail_of text.now) ≡ Err code) }
    ensures rest { IfOk result (λ x. (lines_of x.1.now ≡ drop 1 (lines_of text.now))
        × (tail_of x.1.now ≡ tail_of text.now) × (length x.1.now < length text.now)) }
{
    match next_line(text) {
        None => {
            tail_form(1, text)?;
            Err(Code::Header)
        }
        Some((line, rest)) => {
            line_form(1, line)?;
            Ok((line, rest))
        }
    }
}
