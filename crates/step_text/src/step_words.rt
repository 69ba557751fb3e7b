//! The words of the step language that say what a line is.

ghost use Rattle.std.specs.Prelude.{◌≡◌};
ghost use Rattle.step_text.specs.StepWords.{step_keyword, op_name};

use input_form::{Code, Keyword, head_word, is_word};

/// The first word of a body line.
#[derive(Clone, Copy, Debug, PartialEq, Eq)]
pub(crate) enum BodyWord {
    Do,
    Go,
    Print,
    Words,
}

/// The third word of a `do` line.
#[derive(Clone, Copy, Debug, PartialEq, Eq)]
pub(crate) enum OpName {
    Open,
    Close,
    Split,
    Swap,
    Trim,
    Enter,
    Leave,
    Load,
    Unload,
    Clean,
}

#[tactic(auto, unfolding(crate::specs::StepWords::step_keyword))]
pub(crate) fn step_keyword(word: &[u8]) -> Result<Keyword<BodyWord>, Code>
    ensures { result ≡ step_keyword word.now }
{
    if is_word(word, b"do") {
        Ok(Keyword::Body(BodyWord::Do))
    } else if is_word(word, b"go") {
        Ok(Keyword::Body(BodyWord::Go))
    } else if is_word(word, b"print") {
        Ok(Keyword::Body(BodyWord::Print))
    } else if is_word(word, b"words") {
        Ok(Keyword::Body(BodyWord::Words))
    } else {
        Ok(Keyword::Head(head_word(word)?))
    }
}

#[tactic(auto, unfolding(crate::specs::StepWords::op_name))]
pub(crate) fn op_name(word: &[u8]) -> Result<OpName, Code>
    ensures { result ≡ op_name word.now }
{
    if is_word(word, b"open") {
        Ok(OpName::Open)
    } else if is_word(word, b"close") {
        Ok(OpName::Close)
    } else if is_word(word, b"split") {
        Ok(OpName::Split)
    } else if is_word(word, b"swap") {
        Ok(OpName::Swap)
    } else if is_word(word, b"trim") {
        Ok(OpName::Trim)
    } else if is_word(word, b"enter") {
        Ok(OpName::Enter)
    } else if is_word(word, b"leave") {
        Ok(OpName::Leave)
    } else if is_word(word, b"load") {
        Ok(OpName::Load)
    } else if is_word(word, b"unload") {
        Ok(OpName::Unload)
    } else if is_word(word, b"clean") {
        Ok(OpName::Clean)
    } else {
        Err(Code::Word)
    }
}
