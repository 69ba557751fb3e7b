//! The end of a module: it is dead, and where nothing is counted under its tags its range may be given again.

ghost use Rattle.std.specs.Prelude.{◌≡◌, IfOk, IsOk, IsSomeAnd, MatchOption, OnErr, Err, Some};
ghost use Rattle.module_area.specs.Entries.{entry_of};
ghost use Rattle.module_area.specs.declared.entry.Entry.{Entry};
ghost use Rattle.module_area.specs.declared.entry.State.TheVariants.{Loaded};
ghost use Rattle.reclaim.specs.Refusals.{unload_refusal};
ghost use Rattle.reclaim.specs.Sweeps.{Unloaded};

use crate::sweeping::read_all;
use crate::{Locked, Reclaim, UnloadError};
use module_area::{Entry, State};
use tag_rule::{Change, change_list};

/// Unloads a module that no CPU is inside, and sweeps it. Where each word sum of its tags was read as 0 it is released;
/// else its range is kept, and the answer is what the sweep stopped at.
pub fn unload_locked(locked: &mut Locked, id: u32) -> Result<Reclaim, UnloadError>
    ensures answer { MatchOption (unload_refusal id locked.old.area.entries) (IsOk result) (λ why. result ≡ Err why) }
    ensures unloaded { IfOk result (λ answer. (entry : Entry) → entry_of locked.old.area.entries id ≡ Some entry → Unloaded entry locked.old locked.new answer) }
    ensures err { OnErr result (locked.new ≡ locked.old) }
{
    match locked.book.get(id) {
        Some(
            Entry {
                state: State::Loaded,
                users: 0,
                ..
            },
        ) => Ok(locked.unload(id)),
        Some(
            Entry {
                state: State::Loaded,
                users,
                ..
            },
        ) => Err(UnloadError::Busy(users)),
        _ => Err(UnloadError::NotLoaded),
    }
}

impl Locked {
    // The module is dead, and is swept.
    fn unload(&mut self, id: u32) -> Reclaim
        requires { IsSomeAnd (entry_of self.old.area.entries id) (λ entry. (entry.state ≡ Loaded) × (entry.users ≡ 0)) }
        ensures { (entry : Entry) → entry_of self.old.area.entries id ≡ Some entry → Unloaded entry self.old self.new result }
    {
        self.book.set_dead(id);
        change_list(&mut self.list, Change::Dead { id });
        read_all(&mut self.list);
        match self.list.stops().first().copied() {
            Some(stop) => Reclaim::Kept {
                tag: stop.tag,
                kind: stop.kind,
                sum: stop.sum,
            },
            None => {
                self.release(id);
                Reclaim::Released
            }
        }
    }
}
