//! A module is dead, and stays in the book until it is cleaned.

ghost use Rattle.std.specs.Prelude.{◌≡◌, IsSomeAnd};
ghost use Rattle.module_area.specs.Entries.{entry_of, kept, with_entry};
ghost use Rattle.module_area.specs.declared.entry.State.TheVariants.{Loaded};
ghost use Rattle.reclaim.specs.Sweeps.{with_entries};

use crate::Locked;
use crate::sweeping::read_all;
use tag_rule::{Change, change_list};

/// Marks a module dead that no CPU is inside. Its words are read, as they are at an unload, but whatever they are its range
/// stays until it is cleaned.
pub fn mark_dead_locked(locked: &mut Locked, id: u32)
    requires { IsSomeAnd (entry_of locked.old.area.entries id) (λ entry. (entry.state ≡ Loaded) × (entry.users ≡ 0)) }
    ensures area { locked.new.area ≡ with_entries (with_entry id kept locked.old.area.entries) locked.old }
    ensures same { (locked.new.board ≡ locked.old.board) × (locked.new.sections ≡ locked.old.sections) }
{
    locked.book.set_dead(id);
    change_list(&mut locked.list, Change::Dead { id });
    read_all(&mut locked.list);
}
