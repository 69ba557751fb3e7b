//! Laws of the ops of a round. The functions do nothing: what they promise are laws of the definitions.

ghost use Rattle.std.specs.Prelude.{ℕ, Bool, List, false, length, true, ◌+◌, ◌<◌, ◌≡◌, ◌≢◌, ◌≤◌};
ghost use Rattle.tag_model.specs.RefMoves.{words_after_moves};
ghost use Rattle.module_area.specs.declared.entry.Entry.{Entry};
ghost use Rattle.trace.specs.declared.traces.OnOp.{OnOp};
ghost use Rattle.trace.specs.declared.traces.TraceOp.{TraceOp};
ghost use Rattle.trace_play.specs.Alone.{alone, kept, names_only, others, rejoined, rises, side_by_side, worker_done, AreApart, NamesItsOwn, NoneShared, SameButOrder};
ghost use Rattle.trace_play.specs.Barrier.{cpu_done, cpus_done};
ghost use Rattle.trace_play.specs.Fits.{entry_at};
ghost use Rattle.trace_play.specs.Machine.{Machine, seat_at};
ghost use Rattle.trace_play.specs.Worker.{WorkerState, all_done};

/// A CPU whose ops name its own keys alone does among the others' keys what it does without them: the same to its
/// seat and to its own keys, nothing to the others, and what it did comes behind what was done.
pub fn a_cpu_is_alone()
    ensures done { (mine : ℕ → Bool) (entries : List Entry) (ops : List TraceOp) (w : WorkerState) → rises w.live ≡ true → names_only mine entries ops w ≡ true
        → all_done entries ops w ≡ rejoined mine w (all_done entries ops (alone mine w)) }
    ensures own_keys { (mine : ℕ → Bool) (entries : List Entry) (ops : List TraceOp) (w : WorkerState) → rises w.live ≡ true → names_only mine entries ops w ≡ true
        → kept mine (all_done entries ops w).live ≡ (all_done entries ops (alone mine w)).live }
    ensures other_keys { (mine : ℕ → Bool) (entries : List Entry) (ops : List TraceOp) (w : WorkerState) → rises w.live ≡ true → names_only mine entries ops w ≡ true
        → kept (others mine) (all_done entries ops w).live ≡ kept (others mine) w.live }
    ensures names { (mine : ℕ → Bool) (entries : List Entry) (ops : List TraceOp) (w : WorkerState) → rises w.live ≡ true
        → names_only mine entries ops (alone mine w) ≡ names_only mine entries ops w }
{}

/// Where each CPU names its own keys alone and no key is of two, a round's ops do what workers do side by side, each
/// with its own keys as they stand when the round begins.
pub fn cpus_are_side_by_side()
    ensures done { (own : ℕ → ℕ → Bool) (ops : List OnOp) (m : Machine) → rises m.live ≡ true → NoneShared own → ((cpu : ℕ) → cpu < length m.seats → NamesItsOwn (own cpu) ops m cpu)
        → cpus_done ops m ≡ side_by_side own ops m }
    ensures of_each { (own : ℕ → ℕ → Bool) (ops : List OnOp) (m : Machine) → rises m.live ≡ true → NoneShared own → ((cpu : ℕ) → cpu < length m.seats → NamesItsOwn (own cpu) ops m cpu)
        → (cpu : ℕ) → cpu < length m.seats → (seat_at cpu (cpus_done ops m) ≡ (worker_done own ops m cpu).seat) × (kept (own cpu) (cpus_done ops m).live ≡ (worker_done own ops m cpu).live) }
    ensures of_none { (own : ℕ → ℕ → Bool) (ops : List OnOp) (m : Machine) → rises m.live ≡ true → NoneShared own → ((cpu : ℕ) → cpu < length m.seats → NamesItsOwn (own cpu) ops m cpu)
        → (key : ℕ) → ((cpu : ℕ) → cpu < length m.seats → own cpu key ≡ false) → entry_at key (cpus_done ops m).live ≡ entry_at key m.live }
{}

/// Two CPUs that name no common key may go in either order. What is printed is the same, and so is each sum over the
/// moves, as that of a CPU's bytes under a tag.
pub fn order_does_not_matter()
    ensures { (mine yours : ℕ → Bool) (ops : List OnOp) (m : Machine) (one two : ℕ) → rises m.live ≡ true → one ≢ two → AreApart mine yours
        → NamesItsOwn mine ops m one → NamesItsOwn yours ops m two
        → SameButOrder (cpu_done ops (cpu_done ops m one) two) (cpu_done ops (cpu_done ops m two) one) }
{}

/// What a CPU's words are behind a round's ops: what the moves of its own worker make of them, whatever the others do.
pub fn words_are_of_their_cpus()
    ensures { (own : ℕ → ℕ → Bool) (ops : List OnOp) (m : Machine) → ((cpu : ℕ) → cpu < length m.seats → (seat_at cpu m).node.node.cpu ≡ cpu)
        → rises m.live ≡ true → NoneShared own → ((cpu : ℕ) → cpu < length m.seats → NamesItsOwn (own cpu) ops m cpu)
        → (cpu : ℕ) → cpu < length m.seats → (words : List ℕ)
        → words_after_moves cpu words (cpus_done ops m).tally.moves ≡ words_after_moves cpu (words_after_moves cpu words m.tally.moves) (worker_done own ops m cpu).tally.moves }
{}

/// Some ops of a CPU count no more allocations that found no frames than they are, and no more objects without a cell.
pub fn each_op_counts_one()
    ensures failed { (entries : List Entry) (ops : List TraceOp) (w : WorkerState) → (all_done entries ops w).tally.failed ≤ w.tally.failed + length ops }
    ensures uncounted { (entries : List Entry) (ops : List TraceOp) (w : WorkerState) → (all_done entries ops w).tally.uncounted ≤ w.tally.uncounted + length ops }
{}
