//! What is printed is what the meaning of a trace says. The functions do nothing: what they promise are laws of the
//! definitions.

ghost use Rattle.std.specs.Prelude.{ℕ, ◌≡◌, ◌<◌, ◌≤◌, ◌++◌, All, Bool, List, Ok, Option, length};
ghost use Rattle.module_area.specs.declared.entry.Entry.{Entry};
ghost use Rattle.reclaim.specs.State.{IsLocked, IsNamed, LockedShown};
ghost use Rattle.round_check.specs.Walk.{rounds_of};
ghost use Rattle.run_text.specs.Lines.{done_line, done_of};
ghost use Rattle.run_text.specs.Rows.{AreMoved, TotalsAreLive, quiet_rows};
ghost use Rattle.tag_rule.specs.Shown.{CpuShown};
ghost use Rattle.tag_section.specs.Section.{section_at};
ghost use Rattle.trace.specs.Formed.{IsFormedTrace};
ghost use Rattle.trace.specs.declared.traces.Item.{Item};
ghost use Rattle.trace.specs.declared.traces.Trace.{Trace};
ghost use Rattle.trace_play.specs.Machine.{Machine};
ghost use Rattle.trace_play.specs.Play.{done_text, played_so_far};
ghost use Rattle.trace_play.specs.Printed.{all_rows, print_text, some_rows_text};

/// Where a machine has the entries of the module list, and the words of these CPUs for each tag of the table add up to what
/// is live under it, the rows are those of the machine, and so is the text.
pub fn quiet_rows_are_those_of_the_meaning()
    ensures rows { (kept : Bool) (l : LockedShown) (cpus : List CpuShown) (m : Machine) → IsLocked l → length (section_at l.sections 0).tags ≤ l.board.shape.tags
        → m.area.entries ≡ l.area.entries → TotalsAreLive l.board.shape.tags cpus m → quiet_rows kept l cpus ≡ all_rows l.sections kept m }
    ensures text { (top : Option ℕ) (kept : Bool) (l : LockedShown) (cpus : List CpuShown) (m : Machine) → IsLocked l → length (section_at l.sections 0).tags ≤ l.board.shape.tags
        → m.area.entries ≡ l.area.entries → TotalsAreLive l.board.shape.tags cpus m → some_rows_text top l.sections (quiet_rows kept l cpus) ≡ print_text l.sections kept top m }
{}

/// The words of all CPUs of a table that are what a checked trace's moves give add up to what is live.
pub fn moved_words_are_live()
    ensures { (trace : Trace) (top : Option ℕ) → IsFormedTrace trace → rounds_of trace ≡ Ok tt → (front back : List Item) → trace.body ≡ front ++ back
        → (tags : ℕ) (cpus : List CpuShown) → trace.cpus ≤ length cpus → AreMoved tags cpus (played_so_far trace top front).played.machine
        → TotalsAreLive tags cpus (played_so_far trace top front).played.machine }
{}

/// The last line of a trace's text is that of these numbers.
pub fn the_last_line_is_of_these_numbers()
    ensures { (body : List Item) (m : Machine) → done_text body m ≡ done_line (done_of body m) }
{}

/// After any items of a well formed trace each entry is that of a module's section, and has its length.
pub fn entries_are_of_modules()
    ensures { (trace : Trace) (top : Option ℕ) → IsFormedTrace trace → (front back : List Item) → trace.body ≡ front ++ back
        → All (λ (e : Entry). (0 < e.section) × IsNamed trace.sections e) (played_so_far trace top front).played.machine.area.entries }
{}
