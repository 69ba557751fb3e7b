//! Laws of what a trace leaves. The functions do nothing: what they promise are laws of the definitions.

ghost use Rattle.std.specs.Prelude.{ℕ, Bool, List, None, Ok, Option, Some, slice_get, true, ◌++◌, ◌+◌, ◌≡◌, ◌≤◌};
ghost use Rattle.round_check.specs.Rounds.{IsRound};
ghost use Rattle.round_check.specs.Walk.{rounds_of, walk_ops};
ghost use Rattle.round_check.specs.declared.walk.Walk.{Walk};
ghost use Rattle.tag_model.specs.Index.{Slot};
ghost use Rattle.tag_model.specs.declared.shape.Shape.{Shape};
ghost use Rattle.tag_model.specs.declared.state.Held.{Held};
ghost use Rattle.trace.specs.Formed.{IsFormedTrace};
ghost use Rattle.trace.specs.declared.traces.Item.{Item};
ghost use Rattle.trace.specs.declared.traces.OnOp.{OnOp};
ghost use Rattle.trace.specs.declared.traces.Trace.{Trace};
ghost use Rattle.trace_play.specs.Alone.{rises};
ghost use Rattle.trace_play.specs.Fits.{RoundFits};
ghost use Rattle.trace_play.specs.Left.{HasRoom, IsInItsCell};
ghost use Rattle.trace_play.specs.Machine.{live_cells};
ghost use Rattle.trace_play.specs.Play.{played_so_far};
ghost use Rattle.trace_play.specs.Printed.{tag_row};
ghost use Rattle.trace_play.specs.Ready.{IsReady};
ghost use Rattle.trace_play.specs.Sound.{references_in, IsSound};
ghost use Rattle.trace_play.specs.Totals.{IsAccounted, TellsLive};

/// After any items of any trace no key stands twice in the live list.
pub fn no_key_stands_twice()
    ensures { (trace : Trace) (top : Option ℕ) (items : List Item) → rises (played_so_far trace top items).played.machine.live ≡ true }
{}

/// Each round of a checked trace fits what the items before it left, where no `load` of these was refused: each CPU
/// names its own keys alone, and each of its ops finds its keys as it needs them.
pub fn checked_rounds_fit()
    ensures { (trace : Trace) (top : Option ℕ) (ops : List OnOp) (before : Walk) → IsFormedTrace trace → rounds_of trace ≡ Ok tt → (round : IsRound trace ops before)
        → (played_so_far trace top round.front).refused ≡ None → RoundFits ops before (played_so_far trace top round.front).played.machine }
{}

/// After any items of a checked trace everything that is given is somebody's, once: each taken frame is one block's or
/// one slab's, each taken place of a slab has one object, and each vector that is out is one slab's.
pub fn checked_machines_are_sound()
    ensures { (trace : Trace) (top : Option ℕ) → IsFormedTrace trace → rounds_of trace ≡ Ok tt → (front back : List Item) → trace.body ≡ front ++ back
        → IsSound (played_so_far trace top front).played.machine }
{}

/// So no cell of the table holds two references.
pub fn no_cell_holds_two()
    ensures { (trace : Trace) (top : Option ℕ) → IsFormedTrace trace → rounds_of trace ≡ Ok tt → (front back : List Item) → trace.body ≡ front ++ back
        → (slot : Slot) → references_in slot (played_so_far trace top front).played.machine ≤ 1 }
{}

/// After any items of a checked trace, what was added under a tag is what was taken away and what is live.
pub fn totals_are_live()
    ensures { (trace : Trace) (top : Option ℕ) → IsFormedTrace trace → rounds_of trace ≡ Ok tt → (front back : List Item) → trace.body ≡ front ++ back
        → IsAccounted (played_so_far trace top front).played.machine }
{}

/// Each round of a checked trace is ready, where no `load` before it was refused: the modules that its CPUs are inside
/// are loaded, and each CPU has all that its ops need.
pub fn checked_rounds_are_ready()
    ensures { (trace : Trace) (top : Option ℕ) (ops : List OnOp) (before after : Walk) → IsFormedTrace trace → rounds_of trace ≡ Ok tt → (round : IsRound trace ops before)
        → (played_so_far trace top round.front).refused ≡ None → walk_ops ops before ≡ Ok after → IsReady trace ops before after (played_so_far trace top round.front).played.machine }
{}

/// So each tag's line shows the bytes and the number of the references that are live under it, which are the words of
/// all CPUs for the tag, added.
pub fn rows_tell_what_is_live()
    ensures { (trace : Trace) (top : Option ℕ) → IsFormedTrace trace → rounds_of trace ≡ Ok tt → (front back : List Item) → trace.body ≡ front ++ back
        → (section start index : ℕ) (kept : Bool)
        → TellsLive (played_so_far trace top front).played.machine (start + index) (tag_row (played_so_far trace top front).played.machine section start kept index) }
{}

/// In a table that is large enough each live reference is what its cell holds.
pub fn live_references_are_in_their_cells()
    ensures { (k : Shape) (trace : Trace) (top : Option ℕ) → HasRoom k trace → IsFormedTrace trace → rounds_of trace ≡ Ok tt → (front back : List Item) → trace.body ≡ front ++ back
        → (i : ℕ) (entry : Slot × Held) → slice_get (live_cells (played_so_far trace top front).played.machine) i ≡ Some entry
        → IsInItsCell k (played_so_far trace top front).played.machine entry }
{}
