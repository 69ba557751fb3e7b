//! What is known is a book, and unloads and loads are those of a trace's meaning. The functions do nothing: what they
//! promise are laws of the definitions.

ghost use Rattle.std.specs.Prelude.{ℕ, ◌≡◌, ◌+◌, All, List};
ghost use Rattle.module_area.specs.Area.{Area, IsBook};
ghost use Rattle.module_area.specs.declared.entry.Entry.{Entry};
ghost use Rattle.reclaim.specs.Loading.{loaded_as};
ghost use Rattle.reclaim.specs.State.{IsNamed, LockedShown};
ghost use Rattle.tag_section.specs.Section.{Section};
ghost use Rattle.trace.specs.declared.traces.OnOp.{OnOp};
ghost use Rattle.trace_play.specs.Barrier.{modules_done};
ghost use Rattle.trace_play.specs.Machine.{Machine};
ghost use Rattle.trace_play.specs.Play.{load_refusal, loaded};
ghost use Rattle.round_modules.specs.Known.{IsKnown, unloaded_by};
ghost use Rattle.round_modules.specs.Loads.{refusal_in};
ghost use Rattle.round_modules.specs.Meant.{refused_as};

/// What is known of a book is one, with the same sections, and nobody is inside. A book in which nobody is inside is known.
pub fn known_modules_are_a_book()
    ensures book { (area : Area) (known : List Entry) → IsBook area → IsKnown area.entries known → IsBook (record area { entries = known }) }
    ensures named { (sections : List Section) (book : List Entry) (known : List Entry) → IsKnown book known → All (IsNamed sections) book → All (IsNamed sections) known }
    ensures users { (book : List Entry) (known : List Entry) → IsKnown book known → All (λ (e : Entry). e.users ≡ 0) known }
    ensures itself { (book : List Entry) → All (λ (e : Entry). e.users ≡ 0) book → IsKnown book book }
{}

/// What a round's unloads leave is what the trace means.
pub fn unloads_are_as_meant()
    ensures { (m : Machine) (ops : List OnOp) → ◌≡◌ {A = Area} (modules_done ops m).area (record m.area { entries = unloaded_by ops m.area.entries }) }
{}

/// A load is refused, and else leaves the book, as the trace means.
pub fn loads_are_as_meant()
    ensures refusals { (line : ℕ) (size : ℕ) (m : Machine) → load_refusal line size m ≡ refused_as line (refusal_in size m.area) }
    ensures loaded { (section : ℕ) (size : ℕ) (m : Machine) (l : LockedShown) → ◌≡◌ {A = Area} l.area m.area → ◌≡◌ {A = Area} (loaded section size m).area (loaded_as (m.last_id + 1) section size l).area }
{}
