//! What isn't known to stay loaded is dead.

ghost use Rattle.std.specs.Prelude.{◌≡◌, ◌<◌, ◌&&◌, not, All, length, map, slice_index_or, slice_set};
ghost use Rattle.module_area.specs.Entries.{is_dead};
ghost use Rattle.module_area.specs.declared.entry.Entry.{Entry};
ghost use Rattle.reclaim.specs.Sweeps.{with_entries};
ghost use Rattle.round_modules.specs.Known.{dead_unless, stays};

use crate::knowing::{is_loaded, stays};
use module_area::Entry;
use reclaim::{Locked, mark_dead_locked};

/// Marks each module dead that isn't known to stay loaded.
pub(crate) fn mark_unknown(locked: &mut Locked, known: &[Entry])
    requires unused { All (λ (e : Entry). e.users ≡ 0) locked.old.area.entries }
    ensures area { locked.new.area ≡ with_entries (map (dead_unless known.now) locked.old.area.entries) locked.old }
    ensures same { (locked.new.board ≡ locked.old.board) × (locked.new.sections ≡ locked.old.sections) }
{
    let count = locked.book().count();
    for place in 0..count {
        mark_at(locked, known, place);
    }
}

// Marks the module at the place, if it isn't known to stay loaded.
fn mark_at(locked: &mut Locked, known: &[Entry], place: u32)
    requires place { place < length locked.old.area.entries }
    requires unused { All (λ (e : Entry). e.users ≡ 0) locked.old.area.entries }
    ensures area { (d : Entry) → locked.new.area ≡ with_entries (slice_set locked.old.area.entries place (dead_unless known.now (slice_index_or locked.old.area.entries place d))) locked.old }
    ensures same { (locked.new.board ≡ locked.old.board) × (locked.new.sections ≡ locked.old.sections) }
{
    let entry = locked.book().at(place);
    if goes(known, entry) {
        mark_dead_locked(locked, entry.id);
    }
}

// Whether the module is loaded, and not known to stay so.
fn goes(known: &[Entry], entry: Entry) -> bool
    ensures { result ≡ (not (is_dead entry.state) && not (stays known.now entry.id)) }
{
    is_loaded(entry.state) && !stays(known, entry.id)
}
