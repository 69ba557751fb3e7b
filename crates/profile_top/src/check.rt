//! The command `check`: whether an input is of its form, and the rounds of a trace as they may be. A `run` begins so too.

ghost use Rattle.std.specs.Prelude.{◌≡◌, ◌++◌, ◌≤◌, None, Ok, length, IfOk, IfErr, OnOk, OnErr};
ghost use Rattle.text_form.specs.Lines.{lines_of};
ghost use Rattle.step_text.specs.StepReading.{steps_of};
ghost use Rattle.trace.specs.Formed.{IsFormedTrace};
ghost use Rattle.trace.specs.TraceReading.{trace_of};
ghost use Rattle.round_check.specs.Walk.{rounds_of};
ghost use Rattle.trace_play.specs.Answer.{run_answer};
ghost use Rattle.profile_top.specs.Answers.{Gives, ok_text, all_well, is_schedule, steps_checked, trace_checked, checked};
ghost use Rattle.profile_top.specs.Commands.{IsRunnable, written_of};

use crate::answer::{Answer, refusal};
use codetag::write_number;
use round_check::check_rounds;
use std::alloc::{AllocError, Global};
use tag_section::Sections;
use text_form::next_line;
use trace::{TextError, Trace, read_steps, read_trace};

/// How many lines a text has.
fn line_count(text: &[u8]) -> u64
    requires { length text.now ≤ 4194304 }
    ensures { result ≡ length (lines_of text.now) }
{
    let mut rest = text;
    let mut count: u64 = 0;
    while let Some((_, after)) = next_line(rest) {
        rest = after;
        count += 1;
    }
    count
}

fn write_ok(count: u64, out: &mut Vec<u8>) -> Result<(), AllocError>
    ensures { OnOk result (out.new.items ≡ out.old.items ++ ok_text count) }
{
    out.extend_from_slice(b"ok lines ")?;
    write_number(count, out)?;
    out.extend_from_slice(b"\n")
}

fn all_well(alloc: Global, input: &[u8]) -> Result<Answer, AllocError>
    requires { length input.now ≤ 4194304 }
    ensures { IfOk result (λ answer. Gives answer (all_well input.now)) }
{
    let mut text = Vec::new(alloc);
    write_ok(line_count(input), &mut text)?;
    Ok(Answer { status: 0, text })
}

/// Whether the first line is that of a schedule.
fn is_schedule(input: &[u8]) -> bool
    ensures { result ≡ is_schedule input.now }
{
    match next_line(input) {
        Some((line, _)) => line == b"memprof-steps 1.0".as_slice(),
        None => false,
    }
}

fn check_steps(alloc: Global, input: &[u8]) -> Result<Answer, AllocError>
    requires { length input.now ≤ 4194304 }
    ensures { IfOk result (λ answer. Gives answer (steps_checked input.now (steps_of input.now))) }
{
    match read_steps(alloc, input) {
        Ok(_steps) => all_well(alloc, input),
        Err(TextError::Refused { line, code }) => refusal(alloc, &Sections::new(alloc), line, code),
        Err(TextError::Memory(error)) => Err(error),
    }
}

/// The trace that an input spells, if its rounds are as they may be. Else the answer, which is that of `check` and of `run`.
pub(crate) fn checked_trace(
    alloc: Global,
    input: &[u8],
) -> Result<Result<Trace, Answer>, AllocError>
    requires { length input.now ≤ 4194304 }
    ensures form { IfOk result (λ found. IfOk found (λ trace. IsFormedTrace trace × (trace_of input.now ≡ Ok trace))) }
    ensures rounds { IfOk result (λ found. IfOk found (λ trace. rounds_of trace ≡ Ok tt)) }
    ensures check { IfOk result (λ found. IfErr found (λ answer. Gives answer (trace_checked input.now (trace_of input.now)))) }
    ensures run { IfOk result (λ found. IfErr found (λ answer. (answer.status ≡ 1) × Gives answer (written_of (run_answer None input.now)))) }
    ensures not_run { IfOk result (λ found. OnErr found (¬ IsRunnable input.now)) }
{
    let trace = match read_trace(alloc, input) {
        Ok(trace) => trace,
        Err(TextError::Refused { line, code }) => {
            return Ok(Err(refusal(alloc, &Sections::new(alloc), line, code)?));
        }
        Err(TextError::Memory(error)) => return Err(error),
    };
    match check_rounds(alloc, &trace) {
        Ok(()) => Ok(Ok(trace)),
        Err(TextError::Refused { line, code }) => {
            Ok(Err(refusal(alloc, &trace.sections, line, code)?))
        }
        Err(TextError::Memory(error)) => Err(error),
    }
}

fn check_trace(alloc: Global, input: &[u8]) -> Result<Answer, AllocError>
    requires { length input.now ≤ 4194304 }
    ensures { IfOk result (λ answer. Gives answer (trace_checked input.now (trace_of input.now))) }
{
    match checked_trace(alloc, input)? {
        Ok(_trace) => all_well(alloc, input),
        Err(answer) => Ok(answer),
    }
}

/// The answer to `check`.
pub(crate) fn check_answer(alloc: Global, input: &[u8]) -> Result<Answer, AllocError>
    requires { length input.now ≤ 4194304 }
    ensures { IfOk result (λ answer. Gives answer (checked input.now)) }
{
    if is_schedule(input) {
        check_steps(alloc, input)
    } else {
        check_trace(alloc, input)
    }
}
