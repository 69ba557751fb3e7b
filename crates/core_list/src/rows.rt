//! Laws of the module list. The functions do nothing: what they promise are facts of the definitions.

ghost use Rattle.std.specs.Prelude.{ℕ, ◌≡◌, ◌+◌, ◌*◌, ◌<◌, ◌≤◌, ◌==◌, List, [], ◌∷◌, ◌++◌, IsTrue, Some, None, length, sum_by, slice_index, if◌then◌else◌};
ghost use Rattle.tag_model.specs.declared.shape.Shape.{Shape};
ghost use Rattle.tag_model.specs.declared.state.CpuPart.{CpuPart};
ghost use Rattle.tag_model.specs.declared.state.Reader.{Reader};
ghost use Rattle.tag_model.specs.declared.state.Run.{Run};
ghost use Rattle.tag_model.specs.declared.state.Sweep.TheVariants as sweep;
ghost use Rattle.tag_model.specs.Shape.{IsChecked};
ghost use Rattle.tag_model.specs.Laws.{are_dead, sweep_fits};
ghost use Rattle.tag_model.specs.StepRules.{Enters, Leaves, Loads, MarksDead, Releases, Scans, Sweeps, dead_ids};
ghost use Rattle.tag_model.specs.Sweeping.{are_above_zero, is_accounted};
ghost use Rattle.tag_model.specs.WordState.{word_place};
ghost use Rattle.module_area.specs.Entries.{entry_of};
ghost use Rattle.module_area.specs.declared.entry.Entry.{Entry};
ghost use Rattle.module_area.specs.declared.entry.State.TheVariants.{Loaded};
ghost use Rattle.core_list.specs.ListState.{ListState, IsList, dead_list, entered_list, left_ids, left_list, list_part, load_refusal, loaded, most_steps, or_zero, least_start, records_of, read_to, released, run_of, scanned, sum_read, found_at, sweep_steps, swept_list, tags_of};

/// Each change of the list is a step of the step rules.
pub fn changes_are_rows()
    ensures enters { (l : ListState) (n id : ℕ) (e : Entry) (away : List Run) → IsList l → entry_of l.area.entries id ≡ Some e → e.state ≡ Loaded → Enters (list_part n away l) (list_part n (run_of e ∷ away) (entered_list id l)) }
    ensures leaves { (l : ListState) (n id : ℕ) (e : Entry) (ahead behind : List Run) → IsList l → entry_of l.area.entries id ≡ Some e → Leaves (list_part n (ahead ++ run_of e ∷ behind) l) (list_part n (ahead ++ behind) (left_list id l)) }
    ensures loads { (k : Shape) (l : ListState) (n section size : ℕ) (away : List Run) → IsList l → k.kernel_tags ≤ l.area.first → l.area.first + l.area.tags ≤ k.tags → 1 ≤ size → load_refusal section size l ≡ None
        → Loads k section (or_zero (least_start l.area size)) size (l.last_id + 1) (list_part n away l) (list_part n away (loaded section size l)) }
    ensures marks_dead { (l : ListState) (n id : ℕ) (e : Entry) (away : List Run) → IsList l → entry_of l.area.entries id ≡ Some e → e.state ≡ Loaded → e.users ≡ 0 → MarksDead (list_part n away l) (list_part n away (dead_list id l)) }
    ensures sweeps { (l : ListState) (n : ℕ) (away : List Run) → Sweeps (list_part n away l) (list_part n away (swept_list l)) }
    ensures scans { (k : Shape) (l : ListState) (n : ℕ) (away : List Run) (left : List ℕ) (r : Reader) (cpu : CpuPart) → l.sweep ≡ sweep.Reading left r → cpu.number ≡ r.cpu
        → Scans k left r cpu (list_part n away l) (list_part (n + 1) away (scanned k (slice_index cpu.words (word_place r.pass r.tag)) l)) }
    ensures releases { (l : ListState) (n id : ℕ) (away : List Run) (left : List ℕ) → l.sweep ≡ sweep.Done (id ∷ left) → Releases (id ∷ left) id (list_part n away l) (list_part n away (released l)) }
{}

/// Each change leaves a list that is one.
pub fn changes_keep_the_list()
    ensures loaded { (l : ListState) (section size : ℕ) → IsList l → 1 ≤ size → load_refusal section size l ≡ None → IsList (loaded section size l) }
    ensures entered { (l : ListState) (id : ℕ) → IsList l → IsList (entered_list id l) }
    ensures left { (l : ListState) (id : ℕ) → IsList l → IsList (left_list id l) }
    ensures dead { (l : ListState) (id : ℕ) → IsList l → IsList (dead_list id l) }
    ensures swept { (l : ListState) → IsList l → IsList (swept_list l) }
    ensures scanned { (k : Shape) (word : ℕ) (l : ListState) → IsList l → IsTrue (sweep_fits k l.sweep (records_of l)) → IsList (scanned k word l) }
    ensures released { (l : ListState) → IsList l → IsList (released l) }
{}

/// A read of a word that isn't the last CPU's goes on to the next CPU, and takes no module off the list.
pub fn reads_before_the_last_cpu()
    ensures goes_on { (k : Shape) (word : ℕ) (l : ListState) (left : List ℕ) (r : Reader) → l.sweep ≡ sweep.Reading left r → r.cpu + 1 < k.cpus → scanned k word l ≡ read_to (r.cpu + 1) (sum_read r word) l }
    ensures finds_nothing { (k : Shape) (word : ℕ) (left : List ℕ) (r : Reader) → r.cpu + 1 < k.cpus → found_at k word (sweep.Reading left r) ≡ None }
{}

/// Each step of a sweep leaves fewer, and a sweep that begins has at most two reads for each CPU and tag, and a release
/// for each module.
pub fn sweeps_end()
    ensures scan { (k : Shape) (l : ListState) (word : ℕ) (left : List ℕ) (r : Reader) → IsChecked k → IsList l → IsTrue (sweep_fits k l.sweep (records_of l)) → l.sweep ≡ sweep.Reading left r → sweep_steps k (scanned k word l) < sweep_steps k l }
    ensures release { (k : Shape) (l : ListState) (id : ℕ) (left : List ℕ) → l.sweep ≡ sweep.Done (id ∷ left) → sweep_steps k (released l) < sweep_steps k l }
    ensures of_one { (k : Shape) (l : ListState) (id : ℕ) (e : Entry) → IsList l → entry_of l.area.entries id ≡ Some e → sweep_steps k (dead_list id l) ≤ 2 * k.cpus * e.length + 1 }
    ensures of_all { (k : Shape) (l : ListState) → IsList l → sweep_steps k (swept_list l) ≤ 2 * k.cpus * tags_of (dead_ids (records_of l)) l.area.entries + length (dead_ids (records_of l)) }
    ensures most { (k : Shape) (l : ListState) → IsList l → l.area.first + l.area.tags ≤ k.tags → 2 * k.cpus * tags_of (dead_ids (records_of l)) l.area.entries + length (dead_ids (records_of l)) ≤ most_steps k }
    ensures most_of_one { (k : Shape) (l : ListState) (id : ℕ) (e : Entry) → IsList l → l.area.first + l.area.tags ≤ k.tags → entry_of l.area.entries id ≡ Some e → 2 * k.cpus * e.length + 1 ≤ most_steps k }
{}

/// Each dead module that a sweep listed as it began is on its list or has a stop, as long as it is there, and no stop has
/// the sum 0.
pub fn dead_modules_are_listed_or_have_a_stop()
    ensures swept { (l : ListState) (n id : ℕ) (away : List Run) → IsTrue (is_accounted id (list_part n away (swept_list l))) }
    ensures dead { (l : ListState) (n id : ℕ) (e : Entry) (away : List Run) → IsList l → entry_of l.area.entries id ≡ Some e → e.state ≡ Loaded → e.users ≡ 0 → IsTrue (is_accounted id (list_part n away (dead_list id l))) }
    ensures scanned { (k : Shape) (l : ListState) (n id : ℕ) (away : List Run) (left : List ℕ) (r : Reader) (cpu : CpuPart) → l.sweep ≡ sweep.Reading left r → cpu.number ≡ r.cpu → IsTrue (is_accounted id (list_part n away l))
        → IsTrue (is_accounted id (list_part (n + 1) away (scanned k (slice_index cpu.words (word_place r.pass r.tag)) l))) }
    ensures released { (l : ListState) (n id gone : ℕ) (away : List Run) (left : List ℕ) → l.sweep ≡ sweep.Done (gone ∷ left) → IsTrue (is_accounted id (list_part n away l)) → IsTrue (is_accounted id (list_part n away (released l))) }
    ensures sums { (k : Shape) (l : ListState) (left : List ℕ) (r : Reader) (cpu : CpuPart) → l.sweep ≡ sweep.Reading left r → cpu.number ≡ r.cpu → IsTrue (are_above_zero l.stops) → IsTrue (are_above_zero (scanned k (slice_index cpu.words (word_place r.pass r.tag)) l).stops) }
{}
