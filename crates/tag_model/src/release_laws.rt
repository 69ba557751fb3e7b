//! What a release finds, why a module is kept, which allocations begin, and whose words change. The functions do nothing:
//! what they promise are laws of the definitions.

ghost use Rattle.std.specs.List.{list_any};
ghost use Rattle.std.specs.Prelude.{ℕ, ◌≡◌, ◌<◌, ◌==◌, ◌&&◌, IsTrue, List, [], ◌∷◌, Some, true, count_by, sum_by};
ghost use Rattle.tag_model.specs.Histories.{IsHistory, Leads, PassHistory, last_state, stops_at};
ghost use Rattle.tag_model.specs.Laws.{Safe};
ghost use Rattle.tag_model.specs.Shape.{IsChecked};
ghost use Rattle.tag_model.specs.StepRules.{Becomes, BeginsAllocation, Releases, Stands};
ghost use Rattle.tag_model.specs.Telling.{AreNobodys, IsNobodys, is_live_by, own_word};
ghost use Rattle.tag_model.specs.WordState.{counted, counted_of, in_range};
ghost use Rattle.tag_model.specs.declared.shape.Shape.{Shape};
ghost use Rattle.tag_model.specs.declared.state.CpuPart.{CpuPart};
ghost use Rattle.tag_model.specs.declared.state.Hand.{Hand};
ghost use Rattle.tag_model.specs.declared.state.Kind.{Kind};
ghost use Rattle.tag_model.specs.declared.state.Kind.TheVariants.{Calls};
ghost use Rattle.tag_model.specs.declared.state.ListPart.{ListPart};
ghost use Rattle.tag_model.specs.declared.state.Part.TheVariants.{Cpu, Modules};
ghost use Rattle.tag_model.specs.declared.state.Part.{Part};
ghost use Rattle.tag_model.specs.declared.state.Record.{Record};
ghost use Rattle.tag_model.specs.declared.state.Tag.{Tag};

/// A release takes a dead record, and finds nothing counted under a tag of its module, by a place or a hand, nor under
/// a tag number of its range.
pub fn a_release_finds_nothing()
    ensures dead { (k : Shape) (left : List ℕ) (id : ℕ) (from to : ListPart) (old new : List Part) → Releases left id from to → Becomes (Modules from ∷ []) (Modules to ∷ []) old new → Safe k old → IsTrue (list_any (λ (r : Record). (r.id == id) && r.dead) from.records) }
    ensures of_module { (k : Shape) (left : List ℕ) (id : ℕ) (from to : ListPart) (old new : List Part) → Releases left id from to → Becomes (Modules from ∷ []) (Modules to ∷ []) old new → Safe k old → (tag : Tag) → tag.module ≡ id → sum_by (counted_of Calls tag) old ≡ 0 }
    ensures in_its_range { (k : Shape) (left : List ℕ) (id : ℕ) (from to : ListPart) (old new : List Part) → Releases left id from to → Becomes (Modules from ∷ []) (Modules to ∷ []) old new → Safe k old → (kind : Kind) (t : ℕ) → 0 < count_by (λ (r : Record). (r.id == id) && in_range r.start r.length t) from.records → sum_by (counted kind t) old ≡ 0 }
{}

/// In a history that starts in a safe state and holds the step that began the pass, the sweep gets a stop at a tag and
/// a kind only where something of that kind was counted under the tag right after that step.
pub fn a_stop_was_counted_as_its_pass_began()
    ensures { (k : Shape) (kind : Kind) (t : ℕ) (first begun last new : List Part) → IsChecked k → Safe k first → PassHistory k kind first begun last → Leads k last new → sum_by (stops_at kind t) last < sum_by (stops_at kind t) new → 0 < sum_by (counted kind t) begun }
{}

/// A module that isn't loaded starts no allocation. One that begins in a safe state is under a tag of the kernel, or
/// the record of its module stands in the list, isn't dead and has the tag in its range; and that stays so until the
/// allocation's place is written.
pub fn unloaded_modules_start_no_allocation()
    ensures begins { (k : Shape) (tag : Tag) (c d : CpuPart) (l : ListPart) (parts : List Part) → BeginsAllocation k tag c d → Stands (Cpu c ∷ Modules l ∷ []) parts → Safe k parts → IsTrue (is_live_by k l.records tag) }
    ensures has_begun { (k : Shape) (c : CpuPart) (l : ListPart) (parts : List Part) (hand : Hand) → Stands (Cpu c ∷ Modules l ∷ []) parts → Safe k parts → c.hand ≡ Some hand → hand.opening ≡ true → IsTrue (is_live_by k l.records hand.tag) }
{}

/// No word of a tag that lies above the kernel's and in no record's range changes: not by a step or a base move, and not
/// over a history in which the tag stays like that. So the words of a range that was released stay until it is given
/// again.
pub fn words_in_no_range_stay()
    ensures a_step { (k : Shape) (n : ℕ) (kind : Kind) (t : ℕ) (old new : List Part) → Leads k old new → Safe k old → IsNobodys k t old → sum_by (own_word n kind t) new ≡ sum_by (own_word n kind t) old }
    ensures a_history { (k : Shape) (n : ℕ) (kind : Kind) (t : ℕ) (first : List Part) (later : List (List Part)) → IsChecked k → Safe k first → IsHistory k first later → AreNobodys k t first later → sum_by (own_word n kind t) (last_state first later) ≡ sum_by (own_word n kind t) first }
{}
