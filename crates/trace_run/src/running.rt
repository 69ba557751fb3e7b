//! A trace run on a plant.

ghost use Rattle.std.specs.Prelude.{ℕ, ◌≡◌, ◌++◌, [], Bool, Err, IfOk, IsTrue, None, Ok, OnOk, Option, Some, count_by, false, sum_by};
ghost use Rattle.std.specs.Option.{option_map};
ghost use Rattle.input_form.specs.declared.code.Code.{Code};
ghost use Rattle.plant.specs.Fresh.{FitsShape};
ghost use Rattle.plant.specs.Table.{quiet_text};
ghost use Rattle.round_check.specs.Walk.{rounds_of};
ghost use Rattle.trace.specs.Formed.{IsFormedTrace};
ghost use Rattle.trace.specs.declared.traces.Trace.{Trace};
ghost use Rattle.trace_play.specs.Printed.{print_text};
ghost use Rattle.trace_play.specs.Play.{done_text, is_round, ops_in, run_text, trace_played};
ghost use Rattle.rounds.specs.Places.{IsSomewhere, IsThere, Place, machine_at};
ghost use Rattle.trace_run.specs.Items.{line_code};
ghost use Rattle.trace_run.specs.Runs.{HasRun, IsBegun, IsEnded, IsRun};
ghost use Rattle.trace_run.specs.declared.running.RunError.TheVariants.{Refused};

use crate::items::play_items;
use crate::outcome::{Outcome, Refusal};
use plant::Plant;
use round_worker::Gate;
use rounds::Desk;
use run_text::{ops_in, rounds_in, write_done};
use std::alloc::{AllocError, Global};
use std::mem;
use std::sync::{Arc, Wait};
use std::thread::Threads;
use tag_section::Sections;
use thiserror::Error;
use trace::{Code, Trace};

/// Why a trace wasn't run to its end.
#[derive(Clone, Copy, Debug, PartialEq, Eq, Error)]
pub enum RunError {
    /// A `load` finds 64 ranges, or no gap that is long enough.
    #[error("line {line} is refused")]
    Refused { line: u32, code: Code },
    #[error("out of memory")]
    Memory(AllocError),
}

impl From<AllocError> for RunError {
    ghost use Rattle.std.specs.Prelude.{◌≡◌};
    ghost use Rattle.trace_run.specs.declared.running.RunError.TheVariants.{Memory};

    ghost from_gives = { λ cause error. error ≡ Memory cause };

    fn from(cause: AllocError) -> RunError {
        RunError::Memory(cause)
    }
}

/// Runs a checked trace on a fresh plant, each CPU's ops of a round in a thread of its own, and appends its text.
pub fn run<R: Threads + Wait + Sync, G: Gate + Sync>(
    rt: &R,
    alloc: Global,
    plant: &mut Plant,
    gate: &G,
    trace: Trace,
    top: Option<u32>,
    out: &mut Vec<u8>,
) -> Result<(), RunError>
    requires fresh { IsTrue plant.old.fresh }
    requires fits { FitsShape plant.old.shape trace }
    requires formed { IsFormedTrace trace }
    requires passes { rounds_of trace ≡ Ok tt }
    ensures text { OnOk result (((trace_played trace top).refused ≡ None) × (out.new.items ≡ out.old.items ++ run_text trace (trace_played trace top).played)) }
    ensures refused { (line : ℕ) (code : Code) → result ≡ Err (Refused line code) → ((trace_played trace top).refused ≡ Some (line, code)) × (out.new.items ≡ out.old.items) }
    ensures plant { IsRun result → HasRun (trace_played trace top).played.machine plant.old plant.new }
    ensures printed { IsRun result → (kept : Bool) (some : Option ℕ) → quiet_text kept some plant.new ≡ print_text trace.sections kept some (trace_played trace top).played.machine }
{
    let mut trace = trace;
    let rounds = rounds_in(&trace);
    let ops = ops_in(&trace);
    let desk = begin(alloc, plant, &mut trace)?;
    let mut text = Vec::new(alloc);
    let items = trace.body.as_slice();
    let outcome = play_items(rt, gate, desk, items, trace.shows_kept, top, &mut text)?;
    finish(plant, outcome, rounds, ops, &mut text)?;
    out.extend_from_slice(&text)?;
    Ok(())
}

// The desk of a run that begins. It takes the trace's sections.
fn begin(alloc: Global, plant: &mut Plant, trace: &mut Trace) -> Result<Desk, AllocError>
    requires fresh { IsTrue plant.old.fresh }
    requires fits { FitsShape plant.old.shape trace.old }
    ensures begun { IfOk result (IsBegun plant.old.shape trace.old) }
    ensures trace { trace.new ≡ record trace.old { sections = [] } }
    ensures plant { OnOk result (plant.new ≡ record plant.old { fresh = false; cpus = []; left = None }) }
{
    let sections = mem::replace(&mut trace.sections, Sections::new(alloc));
    let sections = Arc::new(alloc, sections)?;
    let shared = Arc::try_clone(&sections)?;
    let started = plant.start(trace, shared)?;
    Ok(Desk::begin(alloc, started, sections, trace.area))
}

// The run answers, and its tokens go back to the plant.
fn finish(
    plant: &mut Plant,
    outcome: Outcome,
    rounds: u64,
    ops: u64,
    text: &mut Vec<u8>,
) -> Result<(), RunError>
    requires used { plant.old.fresh ≡ false }
    requires ended { IsEnded plant.old.shape outcome.desk }
    ensures text { OnOk result ((outcome.refused ≡ None) × ((p : Place) → IsThere p outcome.desk → p.back ≡ [] → rounds ≡ count_by is_round p.trace.body → ops ≡ sum_by ops_in p.trace.body → text.new.items ≡ text.old.items ++ done_text p.trace.body (machine_at p))) }
    ensures refused { (line : ℕ) (code : Code) → result ≡ Err (Refused line code) → option_map line_code outcome.refused ≡ Some (line, code) }
    ensures plant { (p : Place) → IsThere p outcome.desk → p.board.shape ≡ plant.old.shape → HasRun (machine_at p) plant.old plant.new }
    ensures printed { (p : Place) → IsThere p outcome.desk → (kept : Bool) (top : Option ℕ) → quiet_text kept top plant.new ≡ print_text p.trace.sections kept top (machine_at p) }
{
    let Outcome { desk, refused } = outcome;
    let ended = end(&desk, refused, rounds, ops, text);
    let (cpus, left) = desk.into_left();
    plant.settle(cpus, left);
    ended
}

// What a run answers. Behind a trace that wasn't refused comes its last line.
fn end(
    desk: &Desk,
    refused: Option<Refusal>,
    rounds: u64,
    ops: u64,
    text: &mut Vec<u8>,
) -> Result<(), RunError>
    requires somewhere { IsSomewhere desk.now }
    ensures text { OnOk result ((refused ≡ None) × ((p : Place) → IsThere p desk.now → p.back ≡ [] → rounds ≡ count_by is_round p.trace.body → ops ≡ sum_by ops_in p.trace.body → text.new.items ≡ text.old.items ++ done_text p.trace.body (machine_at p))) }
    ensures refused { (line : ℕ) (code : Code) → result ≡ Err (Refused line code) → option_map line_code refused ≡ Some (line, code) }
{
    match refused {
        Some(why) => Err(RunError::Refused {
            line: why.line,
            code: why.code,
        }),
        None => write_end(desk, rounds, ops, text),
    }
}

// Appends the last line.
fn write_end(desk: &Desk, rounds: u64, ops: u64, out: &mut Vec<u8>) -> Result<(), RunError>
    requires { IsSomewhere desk.now }
    ensures text { (p : Place) → IsThere p desk.now → p.back ≡ [] → rounds ≡ count_by is_round p.trace.body → ops ≡ sum_by ops_in p.trace.body → OnOk result (out.new.items ≡ out.old.items ++ done_text p.trace.body (machine_at p)) }
    ensures refused { (line : ℕ) (code : Code) → result ≡ Err (Refused line code) → ⊥ }
{
    write_done(desk.numbers(rounds, ops), out)?;
    Ok(())
}
