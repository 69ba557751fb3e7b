//! The words of the trace language that say what a line is.

ghost use Rattle.std.specs.Prelude.{◌≡◌};
ghost use Rattle.trace.specs.TraceWords.{trace_keyword, on_name};

use input_form::{Code, HeadWord, Keyword, Size, head_word, is_word};

/// The first word of a body line.
#[derive(Clone, Copy, Debug, PartialEq, Eq)]
pub(crate) enum BodyWord {
    On,
    Round,
    Load,
    Print,
    Areas,
}

/// The third word of an `on` line.
#[derive(Clone, Copy, Debug, PartialEq, Eq)]
pub(crate) enum OnName {
    Page,
    Kmalloc,
    Free,
    Split,
    Swap,
    Trim,
    Hook,
    Unhook,
    Enter,
    Leave,
    Unload,
}

#[tactic(auto, unfolding(crate::specs::TraceWords::trace_keyword))]
pub(crate) fn trace_keyword(word: &[u8]) -> Result<Keyword<BodyWord>, Code>
    ensures { result ≡ trace_keyword word.now }
{
    if is_word(word, b"on") {
        Ok(Keyword::Body(BodyWord::On))
    } else if is_word(word, b"round") {
        Ok(Keyword::Body(BodyWord::Round))
    } else if is_word(word, b"load") {
        Ok(Keyword::Body(BodyWord::Load))
    } else if is_word(word, b"print") {
        Ok(Keyword::Body(BodyWord::Print))
    } else if is_word(word, b"areas") {
        Ok(Keyword::Body(BodyWord::Areas))
    } else if is_word(word, b"frames") {
        Ok(Keyword::Head(HeadWord::Size(Size::Frames)))
    } else if is_word(word, b"vectors") {
        Ok(Keyword::Head(HeadWord::Size(Size::Vectors)))
    } else {
        Ok(Keyword::Head(head_word(word)?))
    }
}

#[tactic(auto, unfolding(crate::specs::TraceWords::on_name))]
pub(crate) fn on_name(word: &[u8]) -> Result<OnName, Code>
    ensures { result ≡ on_name word.now }
{
    if is_word(word, b"page") {
        Ok(OnName::Page)
    } else if is_word(word, b"kmalloc") {
        Ok(OnName::Kmalloc)
    } else if is_word(word, b"free") {
        Ok(OnName::Free)
    } else if is_word(word, b"split") {
        Ok(OnName::Split)
    } else if is_word(word, b"swap") {
        Ok(OnName::Swap)
    } else if is_word(word, b"trim") {
        Ok(OnName::Trim)
    } else if is_word(word, b"hook") {
        Ok(OnName::Hook)
    } else if is_word(word, b"unhook") {
        Ok(OnName::Unhook)
    } else if is_word(word, b"enter") {
        Ok(OnName::Enter)
    } else if is_word(word, b"leave") {
        Ok(OnName::Leave)
    } else if is_word(word, b"unload") {
        Ok(OnName::Unload)
    } else {
        Err(Code::Word)
    }
}
