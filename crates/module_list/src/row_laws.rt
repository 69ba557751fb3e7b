//! Each change of the list is a step of the step rules. The functions do nothing: what they promise are facts of the
//! definitions.

ghost use Rattle.std.specs.List.{list_all};
ghost use Rattle.std.specs.Prelude.{ℕ, ◌≡◌, ◌+◌, ◌<◌, ◌≤◌, ◌||◌, nat_le, IsTrue, None, Some, false, List, ◌∷◌, ◌++◌, slice_index};
ghost use Rattle.tag_model.specs.Laws.{ids_of, is_listed, rises_from, sweep_fits};
ghost use Rattle.tag_model.specs.StepRules.{Enters, Leaves, Loads, MarksDead, Releases, Scans, Sweeps, run_on};
ghost use Rattle.tag_model.specs.WordState.{word_place};
ghost use Rattle.tag_model.specs.declared.shape.Shape.{Shape};
ghost use Rattle.tag_model.specs.declared.state.CpuPart.{CpuPart};
ghost use Rattle.tag_model.specs.declared.state.Reader.{Reader};
ghost use Rattle.tag_model.specs.declared.state.Record.{Record};
ghost use Rattle.tag_model.specs.declared.state.Run.{Run};
ghost use Rattle.tag_model.specs.declared.state.Sweep.TheVariants as sweep;
ghost use Rattle.module_list.specs.Listing.{Listing, bare, entered, found_at, left, list_part, loaded, marked_dead, read_to, record_in, released, scanned, sum_read, swept};

/// Each change of the list is a step of the step rules: a load over a range that meets no record, an enter of a loaded
/// module, a leave of a run on its way, a dead mark where there are no users, a sweep, a read, a release.
pub fn changes_are_rows()
    ensures loads { (k : Shape) (l : Listing) (reads id section start size : ℕ) (away : List Run) → 1 ≤ size → k.kernel_tags ≤ start → start + size ≤ k.tags → IsTrue (list_all (λ (r : Record). nat_le (r.start + r.length) start || nat_le (start + size) r.start) l.records)
        → Loads k section start size id (list_part reads away l) (list_part reads away (loaded id section start size l)) }
    ensures enters { (l : Listing) (reads id : ℕ) (r : Record) (away : List Run) → IsTrue (rises_from 0 (ids_of l.records)) → record_in id l.records ≡ Some r → r.dead ≡ false
        → Enters (list_part reads away l) (list_part reads (run_on r ∷ away) (entered id l)) }
    ensures leaves { (l : Listing) (reads id : ℕ) (r : Record) (ahead behind : List Run) → IsTrue (rises_from 0 (ids_of l.records)) → record_in id l.records ≡ Some r
        → Leaves (list_part reads (ahead ++ run_on r ∷ behind) l) (list_part reads (ahead ++ behind) (left id l)) }
    ensures marks_dead { (l : Listing) (reads id : ℕ) (r : Record) (away : List Run) → IsTrue (rises_from 0 (ids_of l.records)) → record_in id l.records ≡ Some r → r.dead ≡ false → r.users ≡ 0
        → MarksDead (list_part reads away l) (list_part reads away (marked_dead id l)) }
    ensures sweeps { (l : Listing) (reads : ℕ) (away : List Run) → Sweeps (list_part reads away l) (list_part reads away (swept l)) }
    ensures scans { (k : Shape) (l : Listing) (reads : ℕ) (away : List Run) (left : List ℕ) (r : Reader) (cpu : CpuPart) → l.sweep ≡ sweep.Reading left r → cpu.number ≡ r.cpu
        → Scans k left r cpu (list_part reads away l) (list_part (reads + 1) away (scanned k (slice_index cpu.words (word_place r.pass r.tag)) l)) }
    ensures releases { (l : Listing) (reads id : ℕ) (away : List Run) (left : List ℕ) → l.sweep ≡ sweep.Done left → IsTrue (is_listed left id) → Releases left id (list_part reads away l) (list_part reads away (released id l)) }
{}

/// A read of a word that isn't the last CPU's goes on to the next CPU, and takes no module off the list.
pub fn reads_before_the_last_cpu()
    ensures goes_on { (k : Shape) (word : ℕ) (l : Listing) (left : List ℕ) (r : Reader) → l.sweep ≡ sweep.Reading left r → r.cpu + 1 < k.cpus → scanned k word l ≡ read_to (r.cpu + 1) (sum_read r word) l }
    ensures finds_nothing { (k : Shape) (word : ℕ) (left : List ℕ) (r : Reader) → r.cpu + 1 < k.cpus → found_at k word (sweep.Reading left r) ≡ None }
{}

/// What is kept at run time, without the users, goes along with the list: each change of the list is that change of what
/// is kept, and an enter or a leave changes nothing there.
pub fn what_is_kept_goes_along()
    ensures loads { (l : Listing) (id section start size : ℕ) → bare (loaded id section start size l) ≡ loaded id section start size (bare l) }
    ensures enters { (l : Listing) (id : ℕ) → bare (entered id l) ≡ bare l }
    ensures leaves { (l : Listing) (id : ℕ) → bare (left id l) ≡ bare l }
    ensures marks_dead { (l : Listing) (id : ℕ) → bare (marked_dead id l) ≡ marked_dead id (bare l) }
    ensures sweeps { (l : Listing) → bare (swept l) ≡ swept (bare l) }
    ensures scans { (k : Shape) (word : ℕ) (l : Listing) → bare (scanned k word l) ≡ scanned k word (bare l) }
    ensures reads { (cpu sum : ℕ) (l : Listing) → bare (read_to cpu sum l) ≡ read_to cpu sum (bare l) }
    ensures releases { (l : Listing) (id : ℕ) → bare (released id l) ≡ released id (bare l) }
    ensures fits { (k : Shape) (l : Listing) → sweep_fits k l.sweep (bare l).records ≡ sweep_fits k l.sweep l.records }
{}
