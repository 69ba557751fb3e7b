//! A sweep's reads and releases.

ghost use Rattle.std.specs.Prelude.{◌≡◌, IsSomeAnd, IsTrue, None, Some};
ghost use Rattle.module_area.specs.Entries.{entry_of};
ghost use Rattle.module_area.specs.declared.entry.State.TheVariants.{Dead};
ghost use Rattle.module_list.specs.Listing.{releasable};
ghost use Rattle.reclaim.specs.State.{is_still};
ghost use Rattle.reclaim.specs.Steps.{Reads};
ghost use Rattle.reclaim.specs.Sweeps.{Releases, released};

use crate::Locked;
use crate::stepping::read_next;
use tag_rule::{Change, ListSeat, change_list};

/// The sweep reads all that it has still to read.
pub(crate) fn read_all(list: &mut ListSeat)
    ensures board { list.new.board ≡ list.old.board }
    ensures reads { Reads list.old.board.shape list.old.part list.new.part }
    ensures still { IsTrue (is_still list.new.part.sweep) }
{
    while list.reader().is_some() {
        read_next(list);
    }
}

impl Locked {
    // Releases the first module on the list of a sweep that is done.
    pub(crate) fn release(&mut self, id: u32)
        requires { releasable self.old.sweep ≡ Some id }
        ensures after { self.new ≡ released id self.old }
        ensures dead { IsSomeAnd (entry_of self.old.area.entries id) (λ entry. entry.state ≡ Dead) }
    {
        self.list.tell();
        self.book.release(id);
        change_list(&mut self.list, Change::Release { id });
    }

    // Releases what is on the list of a sweep that is done. The answer is how many these are.
    pub(crate) fn release_all(&mut self) -> u32
        ensures releases { Releases self.old result self.new }
        ensures all { releasable self.new.sweep ≡ None }
    {
        self.tell();
        let mut count = 0;
        while let Some(id) = self.list.releasable() {
            self.release(id);
            count += 1;
        }
        count
    }
}
