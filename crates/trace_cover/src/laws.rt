//! Laws of the modules and the references of a checked trace. The functions do nothing: what they promise are laws of the
//! definitions.

ghost use Rattle.std.specs.List.{find};
ghost use Rattle.std.specs.Prelude.{ℕ, List, None, Ok, Option, length, sum_by, true, ◌++◌, ◌<◌, ◌≡◌, ◌≤◌};
ghost use Rattle.module_area.specs.Entries.{is_loaded_as};
ghost use Rattle.round_check.specs.Rounds.{IsRound};
ghost use Rattle.round_check.specs.Walk.{rounds_of, walk_ops};
ghost use Rattle.round_check.specs.declared.walk.Walk.{Walk};
ghost use Rattle.tag_model.specs.Reference.{live_total};
ghost use Rattle.tag_model.specs.Wrap.{wrap};
ghost use Rattle.tag_model.specs.declared.state.Kind.{Kind};
ghost use Rattle.trace.specs.Formed.{IsFormedTrace};
ghost use Rattle.trace.specs.declared.traces.Item.{Item};
ghost use Rattle.trace.specs.declared.traces.OnOp.{OnOp};
ghost use Rattle.trace.specs.declared.traces.Trace.{Trace};
ghost use Rattle.trace_play.specs.Barrier.{all_home, cpus_done, modules_done};
ghost use Rattle.trace_play.specs.Machine.{live_cells};
ghost use Rattle.trace_play.specs.Play.{ops_in, played_so_far};
ghost use Rattle.trace_play.specs.Ready.{runs_inside};
ghost use Rattle.trace_play.specs.Totals.{words_total};
ghost use Rattle.trace_cover.specs.Cover.{AreCounted, AreNamed, HasCover};

/// After any items of a checked trace the entries are a book of the trace's sections, with ids that were given and no
/// users, and each reference's tag is the kernel's, or its module's entry has it in its range.
pub fn checked_machines_are_covered()
    ensures { (trace : Trace) (top : Option ℕ) → IsFormedTrace trace → rounds_of trace ≡ Ok tt → (front back : List Item) → trace.body ≡ front ++ back
        → HasCover trace (played_so_far trace top front).played.machine }
{}

/// A dead entry that is left is named by a reference.
pub fn dead_entries_are_named()
    ensures { (trace : Trace) (top : Option ℕ) → IsFormedTrace trace → rounds_of trace ≡ Ok tt → (front back : List Item) → trace.body ≡ front ++ back
        → AreNamed (played_so_far trace top front).played.machine }
{}

/// Each item gives an id at most.
pub fn checked_ids_are_few()
    ensures { (trace : Trace) (top : Option ℕ) (front : List Item) → (played_so_far trace top front).played.machine.last_id ≤ length front }
{}

/// Within a round, behind its ops, its unloads and the storage that came home, the same holds as between items.
pub fn checked_rounds_are_covered()
    ensures { (trace : Trace) (top : Option ℕ) (ops : List OnOp) (before after : Walk) → IsFormedTrace trace → rounds_of trace ≡ Ok tt → (round : IsRound trace ops before) → (played_so_far trace top round.front).refused ≡ None → walk_ops ops before ≡ Ok after
        → HasCover trace (all_home (modules_done ops (cpus_done ops (played_so_far trace top round.front).played.machine))) }
{}

/// A module that a CPU is inside at some moment of a round is loaded behind it, by the entry that it had before.
pub fn entered_modules_stay_loaded()
    ensures { (trace : Trace) (top : Option ℕ) (ops : List OnOp) (before after : Walk) → IsFormedTrace trace → rounds_of trace ≡ Ok tt → (round : IsRound trace ops before) → (played_so_far trace top round.front).refused ≡ None → walk_ops ops before ≡ Ok after
        → (cpu section : ℕ) → section < 65 → runs_inside before ops cpu section ≡ true
        → find (is_loaded_as section) (modules_done ops (cpus_done ops (played_so_far trace top round.front).played.machine)).area.entries ≡ find (is_loaded_as section) (played_so_far trace top round.front).played.machine.area.entries }
{}

/// Behind a round's ops, its unloads and the storage that came home, a module is named by a reference exactly where
/// something is counted under one of its tags, as words keep it. So what the words tell is what is to go.
pub fn named_entries_are_counted()
    ensures { (trace : Trace) (top : Option ℕ) (ops : List OnOp) (before after : Walk) → IsFormedTrace trace → rounds_of trace ≡ Ok tt → (round : IsRound trace ops before) → (played_so_far trace top round.front).refused ≡ None → walk_ops ops before ≡ Ok after
        → AreCounted (all_home (modules_done ops (cpus_done ops (played_so_far trace top round.front).played.machine))) }
{}

/// A checked trace has few ops, and each counts one failed allocation or uncounted object at most.
pub fn checked_counts_are_few()
    ensures failed { (trace : Trace) (top : Option ℕ) → IsFormedTrace trace → (front back : List Item) → trace.body ≡ front ++ back → (played_so_far trace top front).played.machine.tally.failed ≤ 131072 }
    ensures uncounted { (trace : Trace) (top : Option ℕ) → IsFormedTrace trace → (front back : List Item) → trace.body ≡ front ++ back → (played_so_far trace top front).played.machine.tally.uncounted ≤ 131072 }
    ensures ops { (trace : Trace) → IsFormedTrace trace → sum_by ops_in trace.body ≤ 131072 }
{}

/// Behind a round's ops, its unloads and the storage that came home, the words of all CPUs for a tag, added, are what is
/// live under it, modulo 2^64.
pub fn round_words_tell_what_is_live()
    ensures { (trace : Trace) (top : Option ℕ) (ops : List OnOp) (before after : Walk) → IsFormedTrace trace → rounds_of trace ≡ Ok tt → (round : IsRound trace ops before) → (played_so_far trace top round.front).refused ≡ None → walk_ops ops before ≡ Ok after
        → (kind : Kind) (tag : ℕ) → wrap (words_total (all_home (modules_done ops (cpus_done ops (played_so_far trace top round.front).played.machine))) kind tag) ≡ wrap (live_total kind tag (live_cells (all_home (modules_done ops (cpus_done ops (played_so_far trace top round.front).played.machine))))) }
{}
