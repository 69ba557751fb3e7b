//! The sum law and the theorem of a release once more, spelled out by `specs/Plainly.antt`, which takes nothing from the
//! definitions that these laws are proved by. The functions do nothing: what they promise are laws of the definitions.

ghost use Rattle.std.specs.Prelude.{ℕ, ◌≡◌, ◌≢◌, ◌+◌, ◌<◌, ◌≤◌, ◌%◌, Some, true, List, ◌∷◌, ◌++◌, sum_by};
ghost use Rattle.tag_model.specs.Laws.{Safe};
ghost use Rattle.tag_model.specs.Plainly.{RecordGoes, byte_word, bytes_under, call_word, calls_under};
ghost use Rattle.tag_model.specs.Shape.{IsChecked};
ghost use Rattle.tag_model.specs.declared.shape.Shape.{Shape};
ghost use Rattle.tag_model.specs.declared.state.CpuPart.{CpuPart};
ghost use Rattle.tag_model.specs.declared.state.Hand.{Hand};
ghost use Rattle.tag_model.specs.declared.state.Held.TheVariants as held;
ghost use Rattle.tag_model.specs.declared.state.Part.TheVariants.{Cpu, Place};
ghost use Rattle.tag_model.specs.declared.state.Part.{Part};
ghost use Rattle.tag_model.specs.declared.state.Record.{Record};
ghost use Rattle.tag_model.specs.declared.state.Tag.{Tag};

/// In a safe state the byte words of a tag, added over the CPUs, are the sizes of the references that name its number and
/// the bytes of the hands on it, modulo 2^64; and its call words are the number of these references and the calls of the
/// hands.
pub fn words_are_what_is_counted()
    ensures bytes { (k : Shape) (parts : List Part) (t : ℕ) → Safe k parts → sum_by (byte_word t) parts % 18446744073709551616 ≡ sum_by (bytes_under t) parts % 18446744073709551616 }
    ensures calls { (k : Shape) (parts : List Part) (t : ℕ) → Safe k parts → sum_by (call_word t) parts % 18446744073709551616 ≡ sum_by (calls_under t) parts % 18446744073709551616 }
{}

/// Where a record is in the module list of a safe state, and none of its id is there after a step or a base move, it was
/// dead, and no reference and no hand had its id, or the number of a tag of its range.
pub fn nothing_names_a_record_that_goes()
    ensures dead { (k : Shape) (r : Record) (old new : List Part) → IsChecked k → Safe k old → RecordGoes k r old new → r.dead ≡ true }
    ensures places { (k : Shape) (r : Record) (old new : List Part) → IsChecked k → Safe k old → RecordGoes k r old new → (ahead : List Part) (n : ℕ) (tag : Tag) (size : ℕ) (behind : List Part) → old ≡ ahead ++ Place n (held.Counted tag size) ∷ behind
        → (tag.module ≢ r.id) × (r.start ≤ tag.number → ¬ (tag.number < r.start + r.length)) }
    ensures hands { (k : Shape) (r : Record) (old new : List Part) → IsChecked k → Safe k old → RecordGoes k r old new → (ahead : List Part) (c : CpuPart) (hand : Hand) (behind : List Part) → old ≡ ahead ++ Cpu c ∷ behind → c.hand ≡ Some hand
        → (hand.tag.module ≢ r.id) × (r.start ≤ hand.tag.number → ¬ (hand.tag.number < r.start + r.length)) }
{}
