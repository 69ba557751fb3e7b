//! The safe state is kept: by each step of the step rules, by each base move, along each history. A fresh state is safe.
//! The functions do nothing: what they promise are laws of the definitions.

ghost use Rattle.std.specs.Prelude.{ℕ, ◌≡◌, Bool, List, [], ◌∷◌, count_by, sum_by};
ghost use Rattle.tag_model.specs.Histories.{IsHistory, last_state, stops_at};
ghost use Rattle.tag_model.specs.Laws.{OneOfEach, Safe, is_fresh};
ghost use Rattle.tag_model.specs.Shape.{IsChecked};
ghost use Rattle.tag_model.specs.StepRules.{BaseMove, Becomes, EntersCpu, LeavesCpu, Steps, StepsWith};
ghost use Rattle.tag_model.specs.WordState.{Every, counted, next_id, word_of};
ghost use Rattle.tag_model.specs.declared.shape.Shape.{Shape};
ghost use Rattle.tag_model.specs.declared.state.Kind.{Kind};
ghost use Rattle.tag_model.specs.declared.state.ListPart.{ListPart};
ghost use Rattle.tag_model.specs.declared.state.Part.TheVariants.{Modules};
ghost use Rattle.tag_model.specs.declared.state.Part.{Part};
ghost use Rattle.tag_model.specs.declared.state.Run.{Run};

/// A step of the step rules leads from a safe state to a safe state.
pub fn steps_are_safe()
    ensures { (k : Shape) (old new : List Part) → IsChecked k → Steps k old new → Safe k old → Safe k new }
{}

/// A base move leads from a safe state to a safe state.
pub fn base_moves_are_safe()
    ensures { (k : Shape) (v w old new : List Part) → BaseMove v w → Becomes v w old new → Safe k old → Safe k new }
{}

/// So does a step with the base move that goes with it.
pub fn steps_with_base_moves_are_safe()
    ensures { (k : Shape) (old new : List Part) → IsChecked k → StepsWith k old new → Safe k old → Safe k new }
{}

/// The laws don't read how many words sweeps have read.
pub fn the_count_of_reads_matters_not()
    ensures { (k : Shape) (l : ListPart) (reads : ℕ) (old new : List Part) → Becomes (Modules l ∷ []) (Modules (record l { reads = reads }) ∷ []) old new → Safe k old → Safe k new }
{}

/// Each state of a history that starts in a safe state is safe.
pub fn histories_are_safe()
    ensures { (k : Shape) (first : List Part) (later : List (List Part)) → IsChecked k → Safe k first → IsHistory k first later → Safe k (last_state first later) }
{}

/// A state with one part of each kind, whose words are 0 and in which nothing is counted, loaded or swept, is safe.
pub fn a_fresh_state_is_safe()
    ensures { (k : Shape) (parts : List Part) → OneOfEach k parts → Every (is_fresh k) parts → Safe k parts }
{}

/// The laws read sums over the parts, so they ask neither for an order of the parts nor for who holds which.
pub fn safe_in_any_order()
    ensures { (k : Shape) (old new : List Part) → ((weight : Part → ℕ) → sum_by weight old ≡ sum_by weight new) → Safe k old → Safe k new }
{}

/// The runs on their way may stand in any order.
pub fn runs_on_their_way_stand_in_any_order()
    ensures { (k : Shape) (l : ListPart) (away : List Run) (old new : List Part) → ((test : Run → Bool) → count_by test away ≡ count_by test l.away) → Becomes (Modules l ∷ []) (Modules (record l { away = away }) ∷ []) old new → Safe k old → Safe k new }
{}

/// A fresh state gives 1 as its first id, has no stop, and in it every word is 0 and nothing is counted.
pub fn a_fresh_state_has_nothing()
    ensures first_id { (k : Shape) (parts : List Part) → OneOfEach k parts → Every (is_fresh k) parts → sum_by next_id parts ≡ 1 }
    ensures no_stop { (k : Shape) (parts : List Part) (kind : Kind) (t : ℕ) → Every (is_fresh k) parts → sum_by (stops_at kind t) parts ≡ 0 }
    ensures words { (k : Shape) (parts : List Part) (kind : Kind) (t : ℕ) → Every (is_fresh k) parts → sum_by (word_of kind t) parts ≡ 0 }
    ensures counts { (k : Shape) (parts : List Part) (kind : Kind) (t : ℕ) → Every (is_fresh k) parts → sum_by (counted kind t) parts ≡ 0 }
{}

/// An enter whose run the CPU gets, and a leave of the run that left the CPU, leave the runs on their way as they were.
pub fn no_run_is_left_on_its_way()
    ensures enters { (old new : List Part) (s : EntersCpu old new) (test : Run → Bool) → count_by test s.after.away ≡ count_by test s.before.away }
    ensures leaves { (old new : List Part) (s : LeavesCpu old new) (test : Run → Bool) → count_by test s.after.away ≡ count_by test s.before.away }
{}
