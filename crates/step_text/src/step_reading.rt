//! How a schedule is read.

ghost use Rattle.std.specs.Prelude.{◌≡◌, ◌<◌, IfOk, OnOk};
ghost use Rattle.text_form.specs.Lines.{FitsInput};
ghost use Rattle.input_form.specs.Judging.{Reads};
ghost use Rattle.step_text.specs.StepForm.{AreSteps};
ghost use Rattle.step_text.specs.StepReading.{begun, body_words, empty_reading, steps_from, steps_of, with_act, with_print};
ghost use Rattle.step_text.specs.StepWords.{step_keyword};

use crate::step_lines::{do_line, go_line, words_line};
use crate::step_words::{BodyWord, step_keyword};
use crate::steps::{StepAct, StepLine, Steps};
use input_form::{
    Body, Code, Head, Keyword, LineError, Reading, Series, TextError, cpus_of, empty_head,
    first_line, is_word, need, read_lines,
};
use std::alloc::{AllocError, Global};
use text_form::LineWords;

/// The most lines that print.
const PRINT_LIMIT: u32 = 64;

/// The body so far.
#[derive(Debug, Drop)]
pub(crate) struct StepBody {
    lines: Series<StepLine>,
    prints: u32,
}

fn empty_reading(alloc: Global) -> Reading<StepBody>
    ensures { result ≡ empty_reading }
{
    Reading {
        head: empty_head(alloc),
        body: StepBody {
            lines: Series::new(alloc),
            prints: 0,
        },
    }
}

impl StepBody {
    fn with_act(&mut self, line: u32, act: StepAct) -> Result<(), AllocError>
        ensures { OnOk result (self.new ≡ with_act line act self.old) }
    {
        self.lines.push(StepLine { line, act })
    }

    fn with_print(&mut self, line: u32, act: StepAct) -> Result<(), AllocError>
        requires { self.old.prints < 64 }
        ensures { OnOk result (self.new ≡ with_print line act self.old) }
    {
        self.lines.push(StepLine { line, act })?;
        self.prints += 1;
        Ok(())
    }
}

impl Body for StepBody {
    type Word = BodyWord;

    ghost keywords = { step_keyword };

    ghost begun = { begun };

    ghost says = { body_words };

    fn keyword(word: &[u8]) -> Result<Keyword<BodyWord>, Code> {
        step_keyword(word)
    }

    fn has_begun(&self) -> bool {
        !self.lines.is_empty()
    }

    fn read_line(
        &mut self,
        _alloc: Global,
        head: &Head,
        word: BodyWord,
        number: u32,
        line: &LineWords<'_>,
    ) -> Result<(), LineError> {
        match word {
            BodyWord::Do => {
                let act = do_line(cpus_of(head), &head.sections, line)?;
                self.with_act(number, act)?;
            }
            BodyWord::Go => {
                let act = go_line(cpus_of(head), line)?;
                self.with_act(number, act)?;
            }
            BodyWord::Print => {
                need(line.count() == 1, Code::Word)?;
                need(self.prints < PRINT_LIMIT, Code::Prints)?;
                self.with_print(number, StepAct::Print)?;
            }
            BodyWord::Words => {
                let act = words_line(&head.sections, line)?;
                need(self.prints < PRINT_LIMIT, Code::Prints)?;
                self.with_print(number, act)?;
            }
        }
        Ok(())
    }
}

// The schedule that a text spells.
#[tactic(auto, unfolding(crate::specs::StepReading::steps_of))]
fn whole_schedule(alloc: Global, text: &[u8]) -> Result<Steps, TextError>
    requires { FitsInput text.now }
    ensures { Reads result (steps_of text.now) }
{
    let (header, rest) = match first_line(text) {
        Ok(parts) => parts,
        Err(code) => return Err(TextError::Refused { line: 1, code }),
    };
    if !is_word(header, b"memprof-steps 1.0") {
        return Err(TextError::Refused {
            line: 1,
            code: Code::Header,
        });
    }
    let reading = read_lines(alloc, rest, empty_reading(alloc))?;
    Ok(Steps {
        cpus: cpus_of(&reading.head),
        area: reading.head.area.unwrap_or(896),
        sections: reading.head.sections,
        body: reading.body.lines,
    })
}

/// The schedule that a text spells, which is well formed, or the first line that fails with its code.
pub fn read_steps(alloc: Global, text: &[u8]) -> Result<Steps, TextError>
    requires { FitsInput text.now }
    ensures value { Reads result (steps_of text.now) }
    ensures formed { IfOk result AreSteps }
{
    whole_schedule(alloc, text)
}
