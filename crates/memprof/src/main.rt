//! The program `memprof`: memory-allocation profiles by code tag.
#![tactic(auto)]

ghost use Rattle.std.specs.Prelude.{ℕ, List, ◌≡◌, ◌≢◌, ◌<◌, ◌⊎◌, ◌↔◌, IsTrue, drop, map, codes, Some, None, IfOk, IfErr, OnErr};
ghost use Rattle.std.specs.Option.{option_copied};
ghost use Rattle.std.specs.String.{string_bytes};
ghost use Rattle.std.specs.Io.KnownBytes.{Appends};
ghost use Rattle.tag_model.specs.Index.{program_shape};
ghost use Rattle.trace_play.specs.Answer.{run_answer};
ghost use Rattle.profile_top.specs.declared.mode.Mode.{Mode};
ghost use Rattle.profile_top.specs.Answers.{TellsFaults};
ghost use Rattle.profile_top.specs.Commands.{Command, Still, Run, CommandServed, CommandServedInPart, IsRunnable, command_answer, command_of};
ghost use Rattle.trace_run.specs.Runs.{HasRun};
ghost use Rattle.memprof.specs.Unread.{status_of};

use outside::{Sink, Source, StdSink, StdSource};
use plant::Plant;
use profile_top::memprof;
use round_worker::{Gate, OpenGate};
use std::alloc::{AllocError, Global};
use std::env;
use std::process::ExitCode;
use std::sync::Wait;
use std::thread::Threads;
use tag_model::Shape;

#[cfg(test)]
mod tests;

/// The status where memory ran out.
const NO_MEMORY: u8 = 3;

/// The status where the words are not taken.
const USAGE: u8 = 2;

/// The words of the command line: the arguments behind the first, which is the program's name.
fn words(arguments: &[String]) -> &[String]
    ensures behind_the_name { result.now ≡ drop 1 arguments.now }
{
    match arguments.split_first() {
        Some((_name, words)) => words,
        None => arguments,
    }
}

/// What is said on standard error.
fn complaint(status: u8) -> Option<&'static str>
    ensures usage { status ≡ 2 → option_copied result ≡ Some (codes "memprof: usage") }
    ensures memory { status ≡ 3 → option_copied result ≡ Some (codes "memprof: out of memory") }
    ensures read { status ≡ 4 → option_copied result ≡ Some (codes "memprof: read fault") }
    ensures write { status ≡ 5 → option_copied result ≡ Some (codes "memprof: write fault") }
    ensures nothing { (status < 2) ⊎ (5 < status) → option_copied result ≡ None }
{
    match status {
        2 => Some("memprof: usage"),
        3 => Some("memprof: out of memory"),
        4 => Some("memprof: read fault"),
        5 => Some("memprof: write fault"),
        _ => None,
    }
}

/// Why there are no arguments to serve.
#[derive(Debug, Drop)]
enum Unread {
    /// They can't be read as texts, so that they are none that are taken.
    Failed,
    Memory(AllocError),
}

/// Serves the words behind the program's name on a fresh plant of the program's shape, and answers the status.
fn serve<R: Threads + Wait + Sync, G: Gate + Sync, S: Source, K: Sink>(
    rt: &R,
    alloc: Global,
    plant: &mut Plant,
    gate: &G,
    arguments: Result<Vec<String>, Unread>,
    source: &mut S,
    sink: &mut K,
) -> u8
    requires fresh { IsTrue plant.old.fresh }
    requires shape { plant.old.shape ≡ program_shape }
    ensures unread { IfErr arguments (λ why. result ≡ status_of why) }
    ensures untouched { OnErr arguments ((source.new ≡ source.old) × (sink.new ≡ sink.old) × (plant.new ≡ plant.old)) }
    ensures words { IfOk arguments (λ all. (result ≡ 2) ↔ (command_of (map string_bytes (drop 1 all.items)) ≡ None)) }
    ensures decided { IfOk arguments (λ all. (command : Command) (input : List ℕ) → command_of (map string_bytes (drop 1 all.items)) ≡ Some command → S.left source.old ≡ Some input → result < 2
        → (result ≡ (command_answer command input).status) × Appends (K.taken sink.old) (K.taken sink.new) (command_answer command input).text) }
    ensures served { IfOk arguments (λ all. (command : Command) → command_of (map string_bytes (drop 1 all.items)) ≡ Some command → result < 2
        → CommandServed command result (S.left source.old) (S.left source.new) (K.taken sink.old) (K.taken sink.new) plant.old plant.new) }
    ensures in_part { IfOk arguments (λ all. (command : Command) → command_of (map string_bytes (drop 1 all.items)) ≡ Some command → result ≡ 5
        → CommandServedInPart command (S.left source.old) (S.left source.new) (K.taken sink.old) (K.taken sink.new) plant.old plant.new) }
    ensures range { result < 6 }
    ensures silent { (result ≡ 2) ⊎ (result ≡ 3) ⊎ (result ≡ 4) → sink.new ≡ sink.old }
    ensures read_faults { TellsFaults 4 result (S.faults source.old) (S.faults source.new) }
    ensures write_faults { TellsFaults 5 result (K.faults sink.old) (K.faults sink.new) }
    // The plant: only `run` changes it, and only where the input's trace is run.
    ensures still { IfOk arguments (λ all. (mode : Mode) → command_of (map string_bytes (drop 1 all.items)) ≡ Some (Still mode) → plant.new ≡ plant.old) }
    ensures plant { (result ≡ 2) ⊎ (result ≡ 4) → plant.new ≡ plant.old }
    ensures not_run { (input : List ℕ) → S.left source.old ≡ Some input → ¬ IsRunnable input → plant.new ≡ plant.old }
    ensures ran { IfOk arguments (λ all. (input : List ℕ) → command_of (map string_bytes (drop 1 all.items)) ≡ Some Run → S.left source.old ≡ Some input → result ≢ 3 → result ≢ 4
        → IsRunnable input → HasRun (run_answer None input).machine plant.old plant.new) }
{
    match arguments {
        Ok(all) => memprof(rt, alloc, plant, gate, words(all.as_slice()), source, sink),
        Err(Unread::Failed) => USAGE,
        Err(Unread::Memory(_)) => NO_MEMORY,
    }
}

fn main(rt: HostRuntime) -> ExitCode {
    let arguments = match env::args(&rt) {
        Ok(all) => all
            .collect::<Vec<String>>(rt.alloc())
            .map_err(Unread::Memory),
        Err(_) => Err(Unread::Failed),
    };
    let mut source = StdSource::new(rt.stdin());
    let mut sink = StdSink::new(rt.stdout());
    let status = match Plant::new(rt.alloc(), Shape::program()) {
        Ok(mut plant) => serve(
            &rt,
            rt.alloc(),
            &mut plant,
            &OpenGate,
            arguments,
            &mut source,
            &mut sink,
        ),
        Err(_) => NO_MEMORY,
    };
    if let Some(text) = complaint(status) {
        let _said = eprintln!(rt; "{text}");
    }
    ExitCode::from(status)
}
