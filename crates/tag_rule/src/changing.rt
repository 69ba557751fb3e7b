//! The changes of the module list but for a load.

ghost use Rattle.std.specs.Prelude.{◌≡◌, IsTrue};
ghost use Rattle.tag_rule.specs.Listed.{IsChange, changed, may_change};
ghost use Rattle.tag_rule.specs.Kept.{MayKeep, kept_after};

use crate::modules::ListSeat;
use crate::seats::turn;
use crate::words::Words;
use module_list::RecordList;
use std::marker::Brand;

/// A change of the module list.
#[derive(Clone, Copy, Debug, PartialEq, Eq)]
pub enum Change {
    /// A loaded module gets a user, and a run on it is on its way.
    Enter { id: u32 },
    /// A run on its way ends, and its module has a user less.
    Leave { id: u32 },
    /// A loaded module with no users is dead, and a sweep of it alone begins.
    Dead { id: u32 },
    /// A sweep of all dead modules begins.
    Sweep,
    /// A module on the list of a sweep that is done is released.
    Release { id: u32 },
}

/// list-change, but for a load.
pub fn change_list(list: &mut ListSeat, change: Change)
    requires { IsTrue (may_change change list.old.part) }
    ensures list { list.new ≡ record list.old { part = changed change list.old.part } }
    ensures row { IsChange change list.old.part list.new.part }
{
    let words: &Words = &list.words;
    turn::<Brand, Change>(words, &mut list.seat, &change);
    keep(&mut list.kept, change);
}

// What is kept goes along.
fn keep(kept: &mut RecordList, change: Change)
    requires { MayKeep change kept.old }
    ensures { kept.new ≡ kept_after change kept.old }
{
    match change {
        Change::Enter { id: _ } | Change::Leave { id: _ } => {}
        Change::Dead { id } => kept.mark_dead(id),
        Change::Sweep => kept.sweep(),
        Change::Release { id } => kept.release(id),
    }
}
