//! The reader of both languages.

ghost use Rattle.std.specs.Prelude.{◌≡◌, ◌<◌, Bool, ℕ, List, Result};
ghost use Rattle.text_form.specs.Lines.{FitsInput, lines_of, tail_of};
ghost use Rattle.input_form.specs.declared.code.Code.{Code};
ghost use Rattle.input_form.specs.declared.head.Head.{Head};
ghost use Rattle.input_form.specs.declared.reading.Keyword.{Keyword};
ghost use Rattle.input_form.specs.Judging.{Leaves, Reads};
ghost use Rattle.input_form.specs.Reading.{body_line, judged_line, judged_lines, word_line};

use crate::code::{Code, TextError};
use crate::forms::{is_skipped, line_form, tail_form};
use crate::head::{Head, HeadWord, head_line, section_form};
use crate::line_error::LineError;
use crate::text_error::error_at;
use std::alloc::Global;
use text_form::{LineWords, cut_words, next_line};

/// What the first word of a line says: it stands before the body, or is one of the body's lines.
#[derive(Clone, Copy, Debug, PartialEq, Eq)]
pub enum Keyword<W> {
    Head(HeadWord),
    Body(W),
}

/// What the lines so far say, before the body and in it.
#[derive(Debug, Drop)]
pub struct Reading<B> {
    pub head: Head,
    pub body: B,
}

/// The body of one of the languages, as far as it is read.
pub trait Body: Drop {
    /// What the first word of one of its lines says.
    type Word: Drop;

    /// What a first word of the language says.
    ghost keywords: { List ℕ → Result (Keyword Self.Word) Code };

    /// Whether the body has begun.
    ghost begun: { Self → Bool };

    /// What one of its lines makes of it, after sections that are whole.
    ghost says: { Head → Self.Word → ℕ → List ℕ → Self → Result Self Code };

    fn keyword(word: &[u8]) -> Result<Keyword<Self::Word>, Code>
        ensures { result ≡ keywords word.now };

    fn has_begun(&self) -> bool
        ensures { result ≡ begun self.now };

    fn read_line(
        &mut self,
        alloc: Global,
        head: &Head,
        word: Self::Word,
        number: u32,
        line: &LineWords<'_>,
    ) -> Result<(), LineError>
        ensures { Leaves result self.new (says head.now word number line.now self.old) };
}

// A line of the body.
#[tactic(auto, unfolding(crate::specs::Reading::body_line))]
fn read_body<B: Body>(
    alloc: Global,
    reading: &mut Reading<B>,
    word: B::Word,
    number: u32,
    line: &LineWords<'_>,
) -> Result<(), LineError>
    ensures { Leaves result reading.new (body_line B.says word number line.now reading.old) }
{
    section_form(&reading.head.sections)?;
    reading
        .body
        .read_line(alloc, &reading.head, word, number, line)
}

// A line that is neither empty nor a comment.
#[tactic(auto, unfolding(crate::specs::Reading::word_line))]
fn read_words<B: Body>(
    alloc: Global,
    reading: &mut Reading<B>,
    number: u32,
    line: &LineWords<'_>,
) -> Result<(), LineError>
    ensures { Leaves result reading.new (word_line B.keywords B.begun B.says number line.now reading.old) }
{
    match B::keyword(line.at(0))? {
        Keyword::Head(which) => {
            let in_body = reading.body.has_begun();
            head_line(alloc, &mut reading.head, which, in_body, line)
        }
        Keyword::Body(word) => read_body(alloc, reading, word, number, line),
    }
}

// A line from the second on.
#[tactic(auto, unfolding(crate::specs::Reading::judged_line))]
fn read_line<B: Body>(
    alloc: Global,
    reading: &mut Reading<B>,
    number: u32,
    line: &[u8],
) -> Result<(), LineError>
    ensures { Leaves result reading.new (judged_line (word_line B.keywords B.begun B.says) number line.now reading.old) }
{
    line_form(number, line)?;
    if is_skipped(line) {
        return Ok(());
    }
    match cut_words(line) {
        None => Err(LineError::Refused(Code::Word)),
        Some(words) => read_words(alloc, reading, number, &words),
    }
}

/// All lines from the second on, and the end.
pub fn read_lines<B: Body>(
    alloc: Global,
    text: &[u8],
    reading: Reading<B>,
) -> Result<Reading<B>, TextError>
    requires { FitsInput text.now }
    ensures { Reads result (judged_lines (word_line B.keywords B.begun B.says) 2 (lines_of text.now) (tail_of text.now) reading) }
{
    let mut reading = reading;
    let mut rest = text;
    let mut number: u32 = 2;
    while let Some((line, after)) = next_line(rest) {
        if let Err(error) = read_line(alloc, &mut reading, number, line) {
            return Err(error_at(number, error));
        }
        rest = after;
        number += 1;
    }
    if let Err(code) = tail_form(number, rest) {
        return Err(TextError::Refused { line: number, code });
    }
    if let Err(code) = section_form(&reading.head.sections) {
        return Err(TextError::Refused { line: number, code });
    }
    Ok(reading)
}
