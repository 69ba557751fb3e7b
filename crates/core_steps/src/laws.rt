//! Laws of every core. The functions do nothing: what they promise are facts of the definitions.

ghost use Rattle.std.specs.Prelude.{◌≡◌, ◌≢◌, ℕ, ◌+◌, ◌-◌, ◌*◌, ◌<◌, ◌==◌, if◌then◌else◌, nat_lt, ◌≤◌, List, [], ◌∷◌, Some, None, true, false, length, replicate, IsTrue};
ghost use Rattle.tag_model.specs.Laws.{Quiet, live_of};
ghost use Rattle.tag_model.specs.Reference.{live_total};
ghost use Rattle.tag_model.specs.Wrap.{wrap};
ghost use Rattle.tag_model.specs.declared.state.Hand.{Hand};
ghost use Rattle.tag_model.specs.declared.state.Held.TheVariants as held;
ghost use Rattle.tag_model.specs.declared.state.Kind.{Kind};
ghost use Rattle.tag_model.specs.declared.state.Kind.TheVariants.{Bytes, Calls};
ghost use Rattle.tag_model.specs.declared.state.Tag.{Tag};
ghost use Rattle.cpu_ops.specs.declared.op.CpuOp.{CpuOp};
ghost use Rattle.cpu_ops.specs.declared.op.CpuOp.TheVariants.{Open, Close, Split, Swap, Trim, Enter, Leave};
ghost use Rattle.module_ops.specs.declared.op.ManagerOp.{ManagerOp};
ghost use Rattle.module_ops.specs.declared.op.ManagerOp.TheVariants.{Load};
ghost use Rattle.module_area.specs.Entries.{entry_of};
ghost use Rattle.module_area.specs.declared.entry.Entry.{Entry};
ghost use Rattle.core_list.specs.ListState.{next_of};
ghost use Rattle.core_list.specs.declared.list.Next.TheVariants.{Nothing};
ghost use Rattle.module_ops.specs.Modules.{inside_at};
ghost use Rattle.module_ops.specs.declared.event.Cause.{Cause};
ghost use Rattle.module_ops.specs.declared.event.Event.TheVariants.{Released};
ghost use Rattle.core_steps.specs.declared.op.Actor.TheVariants as actor;
ghost use Rattle.cpu_ops.specs.Machine.{hand_at, held_at, waiting_at, step_count, moves_of_step};
ghost use Rattle.core_steps.specs.CoreState.{CoreState, IsCore, refused, stepped, word_state, total_of};
ghost use Rattle.core_steps.specs.declared.op.Actor.{Actor};
ghost use Rattle.core_steps.specs.RefOps.{MayDoIf, done_if, ref_op};
ghost use Rattle.core_steps.specs.Release.{IfReleases};
ghost use Rattle.module_area.specs.declared.entry.State.TheVariants.{Dead};
ghost use Rattle.core_steps.specs.StepsLeft.{steps_left};
ghost use Rattle.tag_model.specs.ListMachine.{in_order};
ghost use Rattle.core_steps.specs.Laws.{Begins, IsIdle, SameQueue, waits_for, after_steps, moves_of_run, call_move};

/// An op whose first step isn't refused takes just as many steps as are said of it, none of which is refused, and
/// then the next op is the CPU's first.
pub fn step_counts_are_exact()
    ensures open { (key section index size : ℕ) → step_count (Open key section index size) ≡ 3 }
    ensures close { (key : ℕ) → step_count (Close key) ≡ 3 }
    ensures split { (key parts first : ℕ) → step_count (Split key parts first) ≡ 2 * parts }
    ensures swap { (one two : ℕ) → step_count (Swap one two) ≡ 3 }
    ensures trim { (key bytes : ℕ) → step_count (Trim key bytes) ≡ 3 }
    ensures enter { (section : ℕ) → step_count (Enter section) ≡ 1 }
    ensures leave { (section : ℕ) → step_count (Leave section) ≡ 1 }
    // A load is over with its one step.
    ensures load { (s : CoreState) (section : ℕ) (ops : List ManagerOp) → s.modules.manager ≡ record { ops = Load section ∷ ops; under_way = false } → (stepped s actor.Manager).modules.manager ≡ record { ops = ops; under_way = false } }
    ensures under_way { (s : CoreState) (cpu i : ℕ) (op : CpuOp) (ops : List CpuOp) → IsCore s → Begins s cpu op ops → i < step_count op → waiting_at (after_steps s cpu i).machine cpu ≡ waits_for op ops i }
    ensures unrefused { (s : CoreState) (cpu i : ℕ) (op : CpuOp) (ops : List CpuOp) → IsCore s → Begins s cpu op ops → i < step_count op → refused (after_steps s cpu i) (actor.Cpu cpu) ≡ None }
    ensures ended { (s : CoreState) (cpu : ℕ) (op : CpuOp) (ops : List CpuOp) → IsCore s → Begins s cpu op ops → waiting_at (after_steps s cpu (step_count op)).machine cpu ≡ record { ops = ops; done = 0 } }
{}

/// Where no CPU has a hand, the words of a tag, added over the CPUs, are the bytes and the references that its
/// places hold, modulo 2^64.
pub fn quiet_totals_are_those_of_the_live_list()
    ensures { (s : CoreState) (kind : Kind) (t : ℕ) → IsCore s → ((cpu : ℕ) → cpu < s.shape.cpus → hand_at s.machine cpu ≡ None) → total_of s.words kind t ≡ wrap (live_total kind t (live_of (word_state s))) }
{}

/// The steps of a split into k parts count k - 1 calls more, and no byte: so do the CPU's words, and so do the
/// references that are live before it and after it.
pub fn a_split_adds_calls_and_no_bytes()
    // Whatever other CPUs do in between, its first step counts nothing, and each later one with the hand's tag a
    // call while calls are added.
    ensures first_step { (s : CoreState) (cpu key parts first : ℕ) (ops : List CpuOp) → waiting_at s.machine cpu ≡ waits_for (Split key parts first) ops 0 → moves_of_step s.machine (inside_at s.modules cpu) cpu ≡ [] }
    ensures later_steps { (s : CoreState) (cpu key parts first done : ℕ) (hand : Hand) (ops : List CpuOp) → IsCore s → waiting_at s.machine cpu ≡ waits_for (Split key parts first) ops done → hand_at s.machine cpu ≡ Some hand → moves_of_step s.machine (inside_at s.modules cpu) cpu ≡ (if nat_lt done parts then call_move cpu hand.tag ∷ [] else []) }
    // All its steps, one after another.
    ensures moves { (s : CoreState) (cpu key parts first size : ℕ) (tag : Tag) (ops : List CpuOp) → IsCore s → Begins s cpu (Split key parts first) ops → held_at s.machine.places key ≡ held.Counted tag size → moves_of_run s (replicate (2 * parts) (actor.Cpu cpu)) ≡ replicate (parts - 1) (call_move cpu tag) }
    ensures bytes { (s : CoreState) (cpu key parts first t : ℕ) (ops : List CpuOp) → IsCore s → Begins s cpu (Split key parts first) ops → live_total Bytes t (live_of (word_state (after_steps s cpu (2 * parts)))) ≡ live_total Bytes t (live_of (word_state s)) }
    ensures calls { (s : CoreState) (cpu key parts first size t : ℕ) (tag : Tag) (ops : List CpuOp) → IsCore s → Begins s cpu (Split key parts first) ops → held_at s.machine.places key ≡ held.Counted tag size → live_total Calls t (live_of (word_state (after_steps s cpu (2 * parts)))) ≡ live_total Calls t (live_of (word_state s)) + (if tag.number == t then parts - 1 else 0) }
{}

/// Step counts stay exact with other actors in between: a step leaves its CPU one step less and every other actor's queue
/// as it was, and an op that is under way isn't refused.
pub fn step_counts_hold_among_others()
    ensures one_less { (s : CoreState) (cpu : ℕ) → IsCore s → refused s (actor.Cpu cpu) ≡ None → steps_left s (actor.Cpu cpu) ≡ steps_left (stepped s (actor.Cpu cpu)) (actor.Cpu cpu) + 1 }
    ensures others { (s : CoreState) (who other : Actor) → other ≢ who → SameQueue s (stepped s who) other }
    ensures under_way { (s : CoreState) (cpu done : ℕ) (op : CpuOp) (ops : List CpuOp) → waiting_at s.machine cpu ≡ waits_for op ops done → done ≢ 0 → refused s (actor.Cpu cpu) ≡ None }
    ensures manager_under_way { (s : CoreState) → IsCore s → s.modules.manager.under_way ≡ true → refused s actor.Manager ≡ None }
{}

/// Where no actor has an op queued or under way, no CPU has a hand, and the words of a tag, added over the CPUs, are the
/// bytes and the references of the live list, modulo 2^64.
pub fn an_idle_core_is_quiet()
    ensures hands { (s : CoreState) → IsCore s → IsIdle s → (cpu : ℕ) → cpu < s.shape.cpus → hand_at s.machine cpu ≡ None }
    ensures totals { (s : CoreState) (kind : Kind) (t : ℕ) → IsCore s → IsIdle s → total_of s.words kind t ≡ wrap (live_total kind t (live_of (word_state s))) }
    // What is live fits a word, so the sums are exact.
    ensures exact { (s : CoreState) (kind : Kind) (t : ℕ) → IsCore s → IsIdle s → total_of s.words kind t ≡ live_total kind t (live_of (word_state s)) }
    ensures quiet { (s : CoreState) → IsCore s → IsIdle s → Quiet (word_state s) }
    // Where no op of the manager is under way the sweep reads nothing and releases nothing.
    ensures at_rest { (s : CoreState) → IsCore s → s.modules.manager.under_way ≡ false → next_of s.modules.list.sweep ≡ Nothing }
{}

/// An op whose first step isn't refused may be done by the list machine. After its last step it has made of the core's
/// references what the list machine makes of those before its first.
pub fn ops_are_those_of_the_list_machine()
    ensures in_order { (s : CoreState) → IsTrue (in_order (live_of (word_state s))) }
    ensures may { (s : CoreState) (cpu : ℕ) (op : CpuOp) (ops : List CpuOp) → IsCore s → Begins s cpu op ops → MayDoIf (ref_op (inside_at s.modules cpu) op) (live_of (word_state s)) }
    ensures done { (s : CoreState) (cpu : ℕ) (op : CpuOp) (ops : List CpuOp) → IsCore s → Begins s cpu op ops → live_of (word_state (after_steps s cpu (step_count op))) ≡ done_if (ref_op (inside_at s.modules cpu) op) (live_of (word_state s)) }
{}

/// What a step that tells a release found, in plain words: the section's module is dead, and each reference and each hand
/// is of another module and of a tag outside its range.
pub fn a_release_finds_nothing_in_a_core()
    ensures { (s : CoreState) (section : ℕ) (cause : Cause) → IfReleases s (Released section cause) → (e : Entry) × (e.section ≡ section) × (entry_of s.modules.list.area.entries e.id ≡ Some e) × (e.state ≡ Dead)
        × ((key size : ℕ) (tag : Tag) → held_at s.machine.places key ≡ held.Counted tag size → (tag.module ≢ e.id) × (e.start ≤ tag.number → ¬ (tag.number < e.start + e.length)))
        × ((cpu : ℕ) (hand : Hand) → hand_at s.machine cpu ≡ Some hand → (hand.tag.module ≢ e.id) × (e.start ≤ hand.tag.number → ¬ (hand.tag.number < e.start + e.length))) }
{}
