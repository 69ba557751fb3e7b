//! How a trace is read.

ghost use Rattle.std.specs.Prelude.{◌≡◌, ◌<◌, IfOk, OnOk};
ghost use Rattle.text_form.specs.Lines.{FitsInput};
ghost use Rattle.trace.specs.Formed.{IsFormedTrace};
ghost use Rattle.input_form.specs.Judging.{Leaves, Reads};
ghost use Rattle.trace.specs.TraceReading.{begun, body_words, empty_reading, closed, print_line, trace_header, trace_from, trace_of, with_item, with_op, with_print, with_round};
ghost use Rattle.trace.specs.TraceWords.{trace_keyword};

use crate::trace_lines::on_line;
use crate::trace_words::{BodyWord, trace_keyword};
use crate::traces::{Item, OnOp, Trace};
use input_form::{
    Body, Code, Head, Keyword, LineError, Reading, Series, TextError, cpus_of, empty_head,
    first_line, is_word, module_word, need, read_lines,
};
use std::alloc::{AllocError, Global};
use text_form::LineWords;

/// The most lines that print.
const PRINT_LIMIT: u32 = 64;

/// The body so far. A round that is open is not yet among the items.
#[derive(Debug, Drop)]
pub(crate) struct TraceBody {
    items: Series<Item>,
    round: Option<Series<OnOp>>,
    prints: u32,
}

fn empty_reading(alloc: Global) -> Reading<TraceBody>
    ensures { result ≡ empty_reading }
{
    Reading {
        head: empty_head(alloc),
        body: TraceBody {
            items: Series::new(alloc),
            round: None,
            prints: 0,
        },
    }
}

// The round that is open ends.
fn close(items: &mut Series<Item>, round: Option<Series<OnOp>>) -> Result<(), AllocError>
    ensures { OnOk result (items.new ≡ closed items.old round) }
{
    match round {
        None => Ok(()),
        Some(ops) => items.push(Item::Round { ops }),
    }
}

impl TraceBody {
    fn with_item(&mut self, item: Item) -> Result<(), AllocError>
        ensures { OnOk result (self.new ≡ with_item item self.old) }
    {
        close(&mut self.items, self.round.take())?;
        self.items.push(item)
    }

    fn with_print(&mut self, item: Item) -> Result<(), AllocError>
        requires { self.old.prints < 64 }
        ensures { OnOk result (self.new ≡ with_print item self.old) }
    {
        self.with_item(item)?;
        self.prints += 1;
        Ok(())
    }

    fn with_round(&mut self, alloc: Global) -> Result<(), AllocError>
        ensures { OnOk result (self.new ≡ with_round self.old) }
    {
        close(&mut self.items, self.round.take())?;
        self.round = Some(Series::new(alloc));
        Ok(())
    }

    fn with_op(&mut self, op: OnOp) -> Result<(), AllocError>
        ensures { OnOk result (self.new ≡ with_op op self.old) }
    {
        match &mut self.round {
            None => Ok(()),
            Some(ops) => ops.push(op),
        }
    }

    // `print` and `areas`
    #[tactic(auto, unfolding(crate::specs::TraceReading::print_line))]
    fn print_line(&mut self, item: Item, line: &LineWords<'_>) -> Result<(), LineError>
        ensures { Leaves result self.new (print_line item line.now self.old) }
    {
        need(line.count() == 1, Code::Word)?;
        need(self.prints < PRINT_LIMIT, Code::Prints)?;
        self.with_print(item)?;
        Ok(())
    }
}

impl Body for TraceBody {
    type Word = BodyWord;

    ghost keywords = { trace_keyword };

    ghost begun = { begun };

    ghost says = { body_words };

    fn keyword(word: &[u8]) -> Result<Keyword<BodyWord>, Code> {
        trace_keyword(word)
    }

    fn has_begun(&self) -> bool {
        !self.items.is_empty() || self.round.is_some()
    }

    fn read_line(
        &mut self,
        alloc: Global,
        head: &Head,
        word: BodyWord,
        line: u32,
        words: &LineWords<'_>,
    ) -> Result<(), LineError> {
        match word {
            BodyWord::On => {
                need(self.round.is_some(), Code::NoRound)?;
                let op = on_line(cpus_of(head), &head.sections, line, words)?;
                self.with_op(op)?;
            }
            BodyWord::Round => {
                need(words.count() == 1, Code::Word)?;
                self.with_round(alloc)?;
            }
            BodyWord::Load => {
                need(words.count() == 2, Code::Word)?;
                let section = module_word(&head.sections, words.at(1))?;
                self.with_item(Item::Load { line, section })?;
            }
            BodyWord::Print => self.print_line(Item::Print, words)?,
            BodyWord::Areas => self.print_line(Item::Areas, words)?,
        }
        Ok(())
    }
}

// Whether kept ranges are shown, by the header's version.
#[tactic(auto, unfolding(crate::specs::TraceReading::trace_header))]
fn trace_header(line: &[u8]) -> Result<bool, Code>
    ensures { result ≡ trace_header line.now }
{
    if is_word(line, b"memprof-trace 1.0") {
        Ok(false)
    } else if is_word(line, b"memprof-trace 1.1") {
        Ok(true)
    } else {
        Err(Code::Header)
    }
}

fn trace_from(shows_kept: bool, reading: Reading<TraceBody>) -> Result<Trace, AllocError>
    ensures { IfOk result (λ trace. trace ≡ trace_from shows_kept reading) }
{
    let mut body = reading.body.items;
    close(&mut body, reading.body.round)?;
    Ok(Trace {
        shows_kept,
        cpus: cpus_of(&reading.head),
        area: reading.head.area.unwrap_or(896),
        frames: reading.head.frames.unwrap_or(1024),
        vectors: reading.head.vectors.unwrap_or(64),
        sections: reading.head.sections,
        body,
    })
}

// The trace that a text spells.
#[tactic(auto, unfolding(crate::specs::TraceReading::trace_of))]
fn whole_trace(alloc: Global, text: &[u8]) -> Result<Trace, TextError>
    requires { FitsInput text.now }
    ensures { Reads result (trace_of text.now) }
{
    let (header, rest) = match first_line(text) {
        Ok(parts) => parts,
        Err(code) => return Err(TextError::Refused { line: 1, code }),
    };
    let shows_kept = match trace_header(header) {
        Ok(shows_kept) => shows_kept,
        Err(code) => return Err(TextError::Refused { line: 1, code }),
    };
    let reading = read_lines(alloc, rest, empty_reading(alloc))?;
    match trace_from(shows_kept, reading) {
        Ok(trace) => Ok(trace),
        Err(error) => Err(TextError::Memory(error)),
    }
}

/// The trace that a text spells, which is formed, or the first line that fails with its code.
pub fn read_trace(alloc: Global, text: &[u8]) -> Result<Trace, TextError>
    requires { FitsInput text.now }
    ensures judged { Reads result (trace_of text.now) }
    ensures formed { IfOk result (λ trace. IsFormedTrace trace) }
{
    whole_trace(alloc, text)
}
