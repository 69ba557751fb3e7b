//! What a release is worth, and what it is told by. The functions do nothing: what they promise are laws of the
//! definitions.

ghost use Rattle.std.specs.List.{list_any};
ghost use Rattle.std.specs.Prelude.{ℕ, ◌≡◌, ◌<◌, ◌==◌, ◌&&◌, ◌↔◌, IsTrue, List, [], ◌∷◌, count_by, sum_by};
ghost use Rattle.atomic_table.specs.Table.{State};
ghost use Rattle.percpu_words.specs.CpuWords.{lent};
ghost use Rattle.tag_model.specs.Laws.{Safe, has_hand, live_of};
ghost use Rattle.tag_model.specs.Reference.{live_total};
ghost use Rattle.tag_model.specs.Shape.{IsChecked};
ghost use Rattle.tag_model.specs.StepRules.{Releases, Stands};
ghost use Rattle.tag_model.specs.Telling.{AreAllLent};
ghost use Rattle.tag_model.specs.WordState.{counted, counted_of, in_range};
ghost use Rattle.tag_model.specs.declared.shape.Shape.{Shape};
ghost use Rattle.tag_model.specs.declared.state.Kind.{Kind};
ghost use Rattle.tag_model.specs.declared.state.Kind.TheVariants.{Calls};
ghost use Rattle.tag_model.specs.declared.state.ListPart.{ListPart};
ghost use Rattle.tag_model.specs.declared.state.Part.TheVariants.{Modules};
ghost use Rattle.tag_model.specs.declared.state.Part.{Part};
ghost use Rattle.tag_model.specs.declared.state.Record.{Record};
ghost use Rattle.tag_model.specs.declared.state.Tag.{Tag};
ghost use Rattle.tag_rule.specs.Rule.{Ruled, all_parts};
ghost use Rattle.tag_rule.specs.Shown.{CpuShown};
ghost use Rattle.tag_rule.specs.declared.view.View.{View};
ghost use Rattle.reclaim.specs.Quiet.{is_quiet_tag};

/// A release, whatever other threads have done: at any moment of the running table at which the list takes that step, the
/// module is dead, and no cell and no hand counts anything under a tag of the module, nor under a tag of its range.
pub fn a_running_release_finds_nothing()
    ensures dead { (k : Shape) (s : State (Unit {0}) View) (left : List ℕ) (id : ℕ) (from to : ListPart) → Ruled k s → Stands (Modules from ∷ []) (all_parts s.views) → Releases left id from to → IsTrue (list_any (λ (r : Record). (r.id == id) && r.dead) from.records) }
    ensures of_module { (k : Shape) (s : State (Unit {0}) View) (left : List ℕ) (id : ℕ) (from to : ListPart) → Ruled k s → Stands (Modules from ∷ []) (all_parts s.views) → Releases left id from to → (tag : Tag) → tag.module ≡ id → sum_by (counted_of Calls tag) (all_parts s.views) ≡ 0 }
    ensures in_its_range { (k : Shape) (s : State (Unit {0}) View) (left : List ℕ) (id : ℕ) (from to : ListPart) → Ruled k s → Stands (Modules from ∷ []) (all_parts s.views) → Releases left id from to → (kind : Kind) (t : ℕ) → 0 < count_by (λ (r : Record). (r.id == id) && in_range r.start r.length t) from.records → sum_by (counted kind t) (all_parts s.views) ≡ 0 }
{}

/// Where all CPUs are lent and none has a hand, the words of a tag add up to 0 exactly where no reference that is live
/// names it.
pub fn a_quiet_tag_has_no_reference()
    ensures { (k : Shape) (cpus : List CpuShown) (l : ListPart) (next : ℕ) (parts : List Part) (t : ℕ) → IsChecked k → AreAllLent k (lent cpus l next) → Stands (lent cpus l next) parts → Safe k parts → sum_by has_hand parts ≡ 0 → IsTrue (is_quiet_tag cpus t) ↔ (live_total Calls t (live_of parts) ≡ 0) }
{}
