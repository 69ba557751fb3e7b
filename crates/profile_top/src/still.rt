//! The call that the program makes.

ghost use Rattle.std.specs.Prelude.{◌≡◌, ◌≢◌, ◌<◌, ◌≤◌, ◌⊎◌, ◌↔◌, ℕ, List, [], ◌∷◌, Some, None, map, codes};
ghost use Rattle.std.specs.String.{string_bytes};
ghost use Rattle.std.specs.Io.KnownBytes.{Appends};
ghost use Rattle.outside.specs.Faults.{Rose};
ghost use Rattle.outside.specs.Bytes.{AppendsPrefix, TookWithin};
ghost use Rattle.profile_top.specs.declared.mode.Mode.{Mode};
ghost use Rattle.info_group.specs.Keys.{file_key, module_key};
ghost use Rattle.profile_top.specs.Spelled.{ServedBy, SentInPart, StepSays, CheckSays, GroupsSay};
ghost use Rattle.profile_top.specs.Answers.{input_limit, mode_of, answer_of, Served, ServedInPart, TellsFaults};

use crate::mode::{Mode, answer_input, mode_of};
use outside::{ReadError, Sink, Source, read_all, write_all};
use std::alloc::Global;

/// The most bytes of an input.
pub const INPUT_LIMIT: usize = 4_194_304;

/// Writes the text. The status is 5 where that fails.
pub(crate) fn finish<K: Sink>(sink: &mut K, status: u8, text: &[u8]) -> u8
    ensures whole { result ≢ 5 → (result ≡ status) × Appends (K.taken sink.old) (K.taken sink.new) text.now }
    ensures part { result ≡ 5 → (status ≡ 5) ⊎ (Rose (K.faults sink.old) (K.faults sink.new) × AppendsPrefix (K.taken sink.old) (K.taken sink.new) text.now) }
    ensures kept { K.faults sink.old ≤ K.faults sink.new }
    ensures steady { result ≢ 5 → K.faults sink.new ≡ K.faults sink.old }
{
    match write_all(sink, text) {
        Ok(()) => status,
        Err(_failed) => 5,
    }
}

/// Serves `step`, `check`, `files` and `modules`: reads the source, and writes the answer to the sink. The status is 0 where the input is
/// accepted, 1 where it is refused, 2 where the words are not taken, 3 where memory ran out, 4 where reading failed and
/// 5 where writing failed.
pub fn memprof_still<S: Source, K: Sink>(
    alloc: Global,
    words: &[String],
    source: &mut S,
    sink: &mut K,
) -> u8
    ensures range { result < 6 }
    ensures words { (result ≡ 2) ↔ (mode_of (map string_bytes words.now) ≡ None) }
    ensures unread { result ≡ 2 → source.new ≡ source.old }
    ensures silent { (result ≡ 2) ⊎ (result ≡ 3) ⊎ (result ≡ 4) → sink.new ≡ sink.old }
    ensures served { (mode : Mode) → mode_of (map string_bytes words.now) ≡ Some mode → result < 2 → Served mode result (S.left source.old) (S.left source.new) (K.taken sink.old) (K.taken sink.new) }
    ensures decided { (mode : Mode) (input : List ℕ) → mode_of (map string_bytes words.now) ≡ Some mode → S.left source.old ≡ Some input → result < 2
        → (result ≡ (answer_of mode input).status) × Appends (K.taken sink.old) (K.taken sink.new) (answer_of mode input).text }
    ensures in_part { (mode : Mode) → mode_of (map string_bytes words.now) ≡ Some mode → result ≡ 5 → ServedInPart mode (S.left source.old) (S.left source.new) (K.taken sink.old) (K.taken sink.new) }
    // No call of the source or the sink failed, but where the status says so.
    ensures read_faults { TellsFaults 4 result (S.faults source.old) (S.faults source.new) }
    ensures write_faults { TellsFaults 5 result (K.faults sink.old) (K.faults sink.new) }
    ensures complete { (mode : Mode) → mode_of (map string_bytes words.now) ≡ Some mode → ¬ Rose (S.faults source.old) (S.faults source.new) → ¬ Rose (K.faults sink.old) (K.faults sink.new) → result ≢ 3 → result < 2 }
    // Where memory ran out or reading failed, no more was read than an input may have.
    ensures within { (result ≡ 3) ⊎ (result ≡ 4) → TookWithin input_limit (S.left source.old) (S.left source.new) }
    // What is served, spelled out by the word.
    ensures step { map string_bytes words.now ≡ codes "step" ∷ [] → result < 2 → ServedBy StepSays result (S.left source.old) (S.left source.new) (K.taken sink.old) (K.taken sink.new) }
    ensures check { map string_bytes words.now ≡ codes "check" ∷ [] → result < 2 → ServedBy CheckSays result (S.left source.old) (S.left source.new) (K.taken sink.old) (K.taken sink.new) }
    ensures files { map string_bytes words.now ≡ codes "files" ∷ [] → result < 2 → ServedBy (GroupsSay file_key) result (S.left source.old) (S.left source.new) (K.taken sink.old) (K.taken sink.new) }
    ensures modules { map string_bytes words.now ≡ codes "modules" ∷ [] → result < 2 → ServedBy (GroupsSay module_key) result (S.left source.old) (S.left source.new) (K.taken sink.old) (K.taken sink.new) }
    // And the same of what went out where writing failed.
    ensures step_in_part { map string_bytes words.now ≡ codes "step" ∷ [] → result ≡ 5 → SentInPart StepSays (S.left source.old) (S.left source.new) (K.taken sink.old) (K.taken sink.new) }
    ensures check_in_part { map string_bytes words.now ≡ codes "check" ∷ [] → result ≡ 5 → SentInPart CheckSays (S.left source.old) (S.left source.new) (K.taken sink.old) (K.taken sink.new) }
    ensures files_in_part { map string_bytes words.now ≡ codes "files" ∷ [] → result ≡ 5 → SentInPart (GroupsSay file_key) (S.left source.old) (S.left source.new) (K.taken sink.old) (K.taken sink.new) }
    ensures modules_in_part { map string_bytes words.now ≡ codes "modules" ∷ [] → result ≡ 5 → SentInPart (GroupsSay module_key) (S.left source.old) (S.left source.new) (K.taken sink.old) (K.taken sink.new) }
{
    match mode_of(words) {
        Some(mode) => serve(alloc, mode, source, sink),
        None => 2,
    }
}

// Serves one of them, by the definition of its answer.
fn serve<S: Source, K: Sink>(alloc: Global, mode: Mode, source: &mut S, sink: &mut K) -> u8
    ensures range { (result < 6) × (result ≢ 2) }
    ensures silent { (result ≡ 3) ⊎ (result ≡ 4) → sink.new ≡ sink.old }
    ensures served { result < 2 → Served mode result (S.left source.old) (S.left source.new) (K.taken sink.old) (K.taken sink.new) }
    ensures decided { (input : List ℕ) → S.left source.old ≡ Some input → result < 2
        → (result ≡ (answer_of mode input).status) × Appends (K.taken sink.old) (K.taken sink.new) (answer_of mode input).text }
    ensures in_part { result ≡ 5 → ServedInPart mode (S.left source.old) (S.left source.new) (K.taken sink.old) (K.taken sink.new) }
    ensures read_faults { TellsFaults 4 result (S.faults source.old) (S.faults source.new) }
    ensures write_faults { TellsFaults 5 result (K.faults sink.old) (K.faults sink.new) }
    ensures within { (result ≡ 3) ⊎ (result ≡ 4) → TookWithin input_limit (S.left source.old) (S.left source.new) }
{
    let input = match read_all(alloc, source, INPUT_LIMIT) {
        Ok(input) => input,
        Err(ReadError::TooLong) => return finish(sink, 1, b"input too long\n"),
        Err(ReadError::Failed) => return 4,
        Err(ReadError::Memory(_)) => return 3,
    };
    match answer_input(alloc, mode, &input) {
        Ok(answer) => finish(sink, answer.status, &answer.text),
        Err(_) => 3,
    }
}
