//! The call that the program makes, which runs traces too.

ghost use Rattle.std.specs.Prelude.{◌≡◌, ◌≢◌, ◌<◌, ◌⊎◌, ◌↔◌, ℕ, IsTrue, List, [], ◌∷◌, Some, None, map, codes};
ghost use Rattle.std.specs.String.{string_bytes};
ghost use Rattle.std.specs.Io.KnownBytes.{Appends};
ghost use Rattle.outside.specs.Faults.{Rose};
ghost use Rattle.outside.specs.Bytes.{TookWithin};
ghost use Rattle.tag_model.specs.Index.{program_shape};
ghost use Rattle.info_group.specs.Keys.{file_key, module_key};
ghost use Rattle.trace_play.specs.Answer.{run_answer};
ghost use Rattle.profile_top.specs.declared.mode.Mode.{Mode};
ghost use Rattle.profile_top.specs.Answers.{TellsFaults, input_limit};
ghost use Rattle.profile_top.specs.Commands.{Command, Still, Run, CommandServed, CommandServedInPart, IsRunnable, command_answer, command_of, is_run};
ghost use Rattle.trace_run.specs.Runs.{HasRun};
ghost use Rattle.profile_top.specs.Spelled.{ServedBy, SentInPart, StepSays, CheckSays, GroupsSay, RunSays};

use crate::run::run_answer;
use crate::still::{INPUT_LIMIT, finish, memprof_still};
use outside::{ReadError, Sink, Source, read_all};
use plant::Plant;
use round_worker::Gate;
use std::alloc::Global;
use std::sync::Wait;
use std::thread::Threads;

/// Whether the words are the one word `run`.
fn is_run(words: &[String]) -> bool
    ensures { result ≡ is_run (map string_bytes words.now) }
{
    match words {
        [word] => word.as_bytes() == b"run".as_slice(),
        _ => false,
    }
}

/// Serves `run` on a fresh plant of the program's shape, and all that `memprof_still` serves. The gate is passed before
/// each op of a trace. The status is 0 where the input is accepted, 1 where it is refused, 2 where the words are not
/// taken, 3 where memory ran out, 4 where reading failed and 5 where writing failed.
pub fn memprof<R: Threads + Wait + Sync, G: Gate + Sync, S: Source, K: Sink>(
    rt: &R,
    alloc: Global,
    plant: &mut Plant,
    gate: &G,
    words: &[String],
    source: &mut S,
    sink: &mut K,
) -> u8
    requires fresh { IsTrue plant.old.fresh }
    requires shape { plant.old.shape ≡ program_shape }
    ensures range { result < 6 }
    ensures words { (result ≡ 2) ↔ (command_of (map string_bytes words.now) ≡ None) }
    ensures unread { result ≡ 2 → source.new ≡ source.old }
    ensures silent { (result ≡ 2) ⊎ (result ≡ 3) ⊎ (result ≡ 4) → sink.new ≡ sink.old }
    ensures served { (command : Command) → command_of (map string_bytes words.now) ≡ Some command → result < 2
        → CommandServed command result (S.left source.old) (S.left source.new) (K.taken sink.old) (K.taken sink.new) plant.old plant.new }
    ensures decided { (command : Command) (input : List ℕ) → command_of (map string_bytes words.now) ≡ Some command → S.left source.old ≡ Some input → result < 2
        → (result ≡ (command_answer command input).status) × Appends (K.taken sink.old) (K.taken sink.new) (command_answer command input).text }
    ensures in_part { (command : Command) → command_of (map string_bytes words.now) ≡ Some command → result ≡ 5
        → CommandServedInPart command (S.left source.old) (S.left source.new) (K.taken sink.old) (K.taken sink.new) plant.old plant.new }
    // No call of the source or the sink failed, but where the status says so.
    ensures read_faults { TellsFaults 4 result (S.faults source.old) (S.faults source.new) }
    ensures write_faults { TellsFaults 5 result (K.faults sink.old) (K.faults sink.new) }
    ensures complete { (command : Command) → command_of (map string_bytes words.now) ≡ Some command → ¬ Rose (S.faults source.old) (S.faults source.new) → ¬ Rose (K.faults sink.old) (K.faults sink.new) → result ≢ 3 → result < 2 }
    // Where memory ran out or reading failed, no more was read than an input may have.
    ensures within { (result ≡ 3) ⊎ (result ≡ 4) → TookWithin input_limit (S.left source.old) (S.left source.new) }
    // The plant: only `run` changes it, and only where the input's trace is run. It then has what the trace comes to, also
    // where a `load` line is refused and where writing failed.
    ensures still { (mode : Mode) → command_of (map string_bytes words.now) ≡ Some (Still mode) → plant.new ≡ plant.old }
    ensures untouched { (result ≡ 2) ⊎ (result ≡ 4) → plant.new ≡ plant.old }
    ensures not_run { (input : List ℕ) → S.left source.old ≡ Some input → ¬ IsRunnable input → plant.new ≡ plant.old }
    ensures ran { (input : List ℕ) → command_of (map string_bytes words.now) ≡ Some Run → S.left source.old ≡ Some input → result ≢ 3 → result ≢ 4
        → IsRunnable input → HasRun (run_answer None input).machine plant.old plant.new }
    // What is served, spelled out by the word.
    ensures step { map string_bytes words.now ≡ codes "step" ∷ [] → result < 2 → ServedBy StepSays result (S.left source.old) (S.left source.new) (K.taken sink.old) (K.taken sink.new) }
    ensures check { map string_bytes words.now ≡ codes "check" ∷ [] → result < 2 → ServedBy CheckSays result (S.left source.old) (S.left source.new) (K.taken sink.old) (K.taken sink.new) }
    ensures files { map string_bytes words.now ≡ codes "files" ∷ [] → result < 2 → ServedBy (GroupsSay file_key) result (S.left source.old) (S.left source.new) (K.taken sink.old) (K.taken sink.new) }
    ensures modules { map string_bytes words.now ≡ codes "modules" ∷ [] → result < 2 → ServedBy (GroupsSay module_key) result (S.left source.old) (S.left source.new) (K.taken sink.old) (K.taken sink.new) }
    ensures run { map string_bytes words.now ≡ codes "run" ∷ [] → result < 2 → ServedBy RunSays result (S.left source.old) (S.left source.new) (K.taken sink.old) (K.taken sink.new) }
    // And the same of what went out where writing failed.
    ensures step_in_part { map string_bytes words.now ≡ codes "step" ∷ [] → result ≡ 5 → SentInPart StepSays (S.left source.old) (S.left source.new) (K.taken sink.old) (K.taken sink.new) }
    ensures check_in_part { map string_bytes words.now ≡ codes "check" ∷ [] → result ≡ 5 → SentInPart CheckSays (S.left source.old) (S.left source.new) (K.taken sink.old) (K.taken sink.new) }
    ensures files_in_part { map string_bytes words.now ≡ codes "files" ∷ [] → result ≡ 5 → SentInPart (GroupsSay file_key) (S.left source.old) (S.left source.new) (K.taken sink.old) (K.taken sink.new) }
    ensures modules_in_part { map string_bytes words.now ≡ codes "modules" ∷ [] → result ≡ 5 → SentInPart (GroupsSay module_key) (S.left source.old) (S.left source.new) (K.taken sink.old) (K.taken sink.new) }
    ensures run_in_part { map string_bytes words.now ≡ codes "run" ∷ [] → result ≡ 5 → SentInPart RunSays (S.left source.old) (S.left source.new) (K.taken sink.old) (K.taken sink.new) }
{
    if is_run(words) {
        serve_run(rt, alloc, plant, gate, source, sink)
    } else {
        memprof_still(alloc, words, source, sink)
    }
}

// Serves `run`.
fn serve_run<R: Threads + Wait + Sync, G: Gate + Sync, S: Source, K: Sink>(
    rt: &R,
    alloc: Global,
    plant: &mut Plant,
    gate: &G,
    source: &mut S,
    sink: &mut K,
) -> u8
    requires fresh { IsTrue plant.old.fresh }
    requires shape { plant.old.shape ≡ program_shape }
    ensures range { (result < 6) × (result ≢ 2) }
    ensures silent { (result ≡ 3) ⊎ (result ≡ 4) → sink.new ≡ sink.old }
    ensures served { result < 2 → CommandServed Run result (S.left source.old) (S.left source.new) (K.taken sink.old) (K.taken sink.new) plant.old plant.new }
    ensures decided { (input : List ℕ) → S.left source.old ≡ Some input → result < 2
        → (result ≡ (command_answer Run input).status) × Appends (K.taken sink.old) (K.taken sink.new) (command_answer Run input).text }
    ensures in_part { result ≡ 5 → CommandServedInPart Run (S.left source.old) (S.left source.new) (K.taken sink.old) (K.taken sink.new) plant.old plant.new }
    ensures read_faults { TellsFaults 4 result (S.faults source.old) (S.faults source.new) }
    ensures write_faults { TellsFaults 5 result (K.faults sink.old) (K.faults sink.new) }
    ensures within { (result ≡ 3) ⊎ (result ≡ 4) → TookWithin input_limit (S.left source.old) (S.left source.new) }
    ensures untouched { result ≡ 4 → plant.new ≡ plant.old }
    ensures not_run { (input : List ℕ) → S.left source.old ≡ Some input → ¬ IsRunnable input → plant.new ≡ plant.old }
    ensures ran { (input : List ℕ) → S.left source.old ≡ Some input → result ≢ 3 → result ≢ 4 → IsRunnable input → HasRun (run_answer None input).machine plant.old plant.new }
{
    let input = match read_all(alloc, source, INPUT_LIMIT) {
        Ok(input) => input,
        Err(ReadError::TooLong) => return finish(sink, 1, b"input too long\n"),
        Err(ReadError::Failed) => return 4,
        Err(ReadError::Memory(_)) => return 3,
    };
    match run_answer(rt, alloc, plant, gate, &input) {
        Ok(answer) => finish(sink, answer.status, &answer.text),
        Err(_) => 3,
    }
}
