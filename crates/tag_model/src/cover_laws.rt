//! What a safe state tells of the module list, of a CPU and of a place that stand in it. The functions do nothing: what
//! they promise are laws of the definitions.

ghost use Rattle.std.specs.List.{list_all, list_any};
ghost use Rattle.std.specs.Prelude.{ℕ, ◌≡◌, ◌+◌, ◌<◌, ◌≤◌, ◌==◌, ◌&&◌, nat_le, nat_lt, IsTrue, Some, List, [], ◌∷◌, ◌++◌, count_by, sum_by};
ghost use Rattle.tag_model.specs.Laws.{Safe, ids_of, is_loaded_as, rises_from, sweep_fits};
ghost use Rattle.tag_model.specs.Shape.{IsChecked};
ghost use Rattle.tag_model.specs.StepRules.{Stands};
ghost use Rattle.tag_model.specs.Telling.{is_as_noted, is_covered_by};
ghost use Rattle.tag_model.specs.WordState.{in_range, next_id, record_fits, runs_with, users_of};
ghost use Rattle.tag_model.specs.declared.shape.Shape.{Shape};
ghost use Rattle.tag_model.specs.declared.state.CpuPart.{CpuPart};
ghost use Rattle.tag_model.specs.declared.state.Hand.{Hand};
ghost use Rattle.tag_model.specs.declared.state.Held.TheVariants as held;
ghost use Rattle.tag_model.specs.declared.state.ListPart.{ListPart};
ghost use Rattle.tag_model.specs.declared.state.Note.{Note};
ghost use Rattle.tag_model.specs.declared.state.Part.TheVariants.{Cpu, Modules, NextId, Place};
ghost use Rattle.tag_model.specs.declared.state.Part.{Part};
ghost use Rattle.tag_model.specs.declared.state.Record.{Record};
ghost use Rattle.tag_model.specs.declared.state.Run.{Run};
ghost use Rattle.tag_model.specs.declared.state.Tag.{Tag};

/// Of the module list alone: the records stand by rising id, each below the next one that is given, with ranges in the
/// area and apart; the sweep is in its bounds; a record's users are the runs on it, which are at most the CPUs and those
/// on their way; a run on its way has its loaded record, with a user.
pub fn a_safe_state_tells_of_its_list()
    ensures ids_rise { (k : Shape) (l : ListPart) (parts : List Part) → Stands (Modules l ∷ []) parts → Safe k parts → IsTrue (rises_from 0 (ids_of l.records)) }
    ensures ids_below { (k : Shape) (l : ListPart) (parts : List Part) → Stands (Modules l ∷ []) parts → Safe k parts → IsTrue (list_all (λ (r : Record). nat_lt r.id (sum_by next_id parts)) l.records) }
    ensures in_the_area { (k : Shape) (l : ListPart) (parts : List Part) → Stands (Modules l ∷ []) parts → Safe k parts → IsTrue (list_all (record_fits k) l.records) }
    ensures ids_apart { (k : Shape) (l : ListPart) (parts : List Part) (id : ℕ) → Stands (Modules l ∷ []) parts → Safe k parts → count_by (λ (r : Record). r.id == id) l.records ≤ 1 }
    ensures ranges_apart { (k : Shape) (l : ListPart) (parts : List Part) (t : ℕ) → Stands (Modules l ∷ []) parts → Safe k parts → count_by (λ (r : Record). in_range r.start r.length t) l.records ≤ 1 }
    ensures sweep_in_bounds { (k : Shape) (l : ListPart) (parts : List Part) → Stands (Modules l ∷ []) parts → Safe k parts → IsTrue (sweep_fits k l.sweep l.records) }
    ensures users_are_runs { (k : Shape) (l : ListPart) (parts : List Part) (id : ℕ) → Stands (Modules l ∷ []) parts → Safe k parts → sum_by (runs_with (λ r. r.id == id)) parts ≡ users_of id (Modules l) }
    ensures few_runs { (k : Shape) (l : ListPart) (parts : List Part) (id : ℕ) → Stands (Modules l ∷ []) parts → Safe k parts → sum_by (runs_with (λ r. r.id == id)) parts ≤ k.cpus + count_by (λ (run : Run). run.id == id) l.away }
    ensures few_users { (k : Shape) (l : ListPart) (parts : List Part) → Stands (Modules l ∷ []) parts → Safe k parts → IsTrue (list_all (λ (r : Record). nat_le r.users (k.cpus + count_by (λ (run : Run). run.id == r.id) l.away)) l.records) }
    ensures run_on_its_way { (k : Shape) (l : ListPart) (parts : List Part) (ahead : List Run) (run : Run) (behind : List Run) → Stands (Modules l ∷ []) parts → Safe k parts → l.away ≡ ahead ++ run ∷ behind → IsTrue (list_any (λ (r : Record). is_loaded_as run r && nat_lt 0 r.users) l.records) }
{}

/// Of a CPU: it has at most one run on an id, and a run of it has its loaded record; its hand's tag is one of the
/// shape's, and the record of its module has it in its range; a note's id was given, and the record of that id is as the
/// note tells.
pub fn a_safe_state_tells_of_a_cpu()
    ensures one_run_each { (k : Shape) (c : CpuPart) (parts : List Part) (id : ℕ) → Stands (Cpu c ∷ []) parts → Safe k parts → count_by (λ (r : Run). r.id == id) c.runs ≤ 1 }
    ensures run_is_loaded { (k : Shape) (c : CpuPart) (l : ListPart) (parts : List Part) (front : List Run) (run : Run) (back : List Run) → Stands (Cpu c ∷ Modules l ∷ []) parts → Safe k parts → c.runs ≡ front ++ run ∷ back → IsTrue (list_any (is_loaded_as run) l.records) }
    ensures hand_in_tags { (k : Shape) (c : CpuPart) (parts : List Part) (hand : Hand) → IsChecked k → Stands (Cpu c ∷ []) parts → Safe k parts → c.hand ≡ Some hand → hand.tag.number < k.tags }
    ensures hand_is_covered { (k : Shape) (c : CpuPart) (l : ListPart) (parts : List Part) (hand : Hand) → Stands (Cpu c ∷ Modules l ∷ []) parts → Safe k parts → c.hand ≡ Some hand → IsTrue (is_covered_by k l.records hand.tag) }
    ensures note_was_given { (k : Shape) (c : CpuPart) (parts : List Part) (front : List Note) (note : Note) (back : List Note) → Stands (Cpu c ∷ []) parts → Safe k parts → c.notes ≡ front ++ note ∷ back → note.id < sum_by next_id parts }
    ensures note_agrees { (k : Shape) (c : CpuPart) (l : ListPart) (parts : List Part) (front : List Note) (note : Note) (back : List Note) → Stands (Cpu c ∷ Modules l ∷ []) parts → Safe k parts → c.notes ≡ front ++ note ∷ back → IsTrue (list_all (is_as_noted note) l.records) }
{}

/// Of a place: a reference's tag is the kernel's, or the record of its module has it in its range.
pub fn a_safe_state_tells_of_a_place()
    ensures { (k : Shape) (n : ℕ) (tag : Tag) (size : ℕ) (l : ListPart) (parts : List Part) → Stands (Place n (held.Counted tag size) ∷ Modules l ∷ []) parts → Safe k parts → IsTrue (is_covered_by k l.records tag) }
{}

/// Of the right to give the next id: it is above 0, and above the id of each record.
pub fn a_safe_state_tells_of_the_next_id()
    ensures is_the_next { (k : Shape) (id : ℕ) (parts : List Part) → Stands (NextId id ∷ []) parts → Safe k parts → sum_by next_id parts ≡ id }
    ensures above_zero { (k : Shape) (id : ℕ) (parts : List Part) → Stands (NextId id ∷ []) parts → Safe k parts → 0 < id }
    ensures above_all { (k : Shape) (l : ListPart) (id : ℕ) (parts : List Part) → Stands (Modules l ∷ NextId id ∷ []) parts → Safe k parts → IsTrue (list_all (λ (r : Record). nat_lt r.id id) l.records) }
{}
