//! A split and a free between two reads of a sweep, for the tests.

ghost use Rattle.std.specs.Prelude.{◌≡◌, IsSomeAnd, None};
ghost use Rattle.module_area.specs.Entries.{entry_of};
ghost use Rattle.module_area.specs.declared.entry.State.TheVariants.{Loaded};
ghost use Rattle.reclaim.specs.Steps.{Reads};

use super::splits::{clear, share};
use crate::Locked;
use crate::stepping::read_next;
use crate::sweeping::read_all;
use tag_model::Stop;
use tag_rule::{CellSeat, Change, CpuSeat, ListSeat, change_list};

/// The steps of an unload. Between the sweep's first read and the others one CPU shares the first cell's reference out to
/// both cells, and the other CPU frees the second cell's. The answer is what the sweep stopped at.
pub fn unload_around(
    locked: &mut Locked,
    id: u32,
    zero: &mut CpuSeat,
    one: &mut CpuSeat,
    first: &mut CellSeat,
    second: &mut CellSeat,
) -> Option<Stop>
    requires ready { IsSomeAnd (entry_of locked.old.area.entries id) (λ entry. (entry.state ≡ Loaded) × (entry.users ≡ 0)) }
    requires table { (one.old.board ≡ zero.old.board) × (first.old.board ≡ zero.old.board) × (second.old.board ≡ zero.old.board) }
    requires rest { (zero.old.part.hand ≡ None) × (one.old.part.hand ≡ None) }
    ensures list { locked.new.board ≡ locked.old.board }
    ensures cpus { (zero.new.board ≡ zero.old.board) × (one.new.board ≡ one.old.board) }
    ensures cells { (first.new.board ≡ first.old.board) × (second.new.board ≡ second.old.board) }
{
    locked.book.set_dead(id);
    change_list(&mut locked.list, Change::Dead { id });
    read_one(&mut locked.list);
    share(zero, first, second);
    clear(one, second);
    read_all(&mut locked.list);
    locked.list.stops().first().copied()
}

// The sweep reads its next word.
fn read_one(list: &mut ListSeat)
    ensures board { list.new.board ≡ list.old.board }
    ensures reads { Reads list.old.board.shape list.old.part list.new.part }
{
    if list.reader().is_some() {
        read_next(list);
    }
}
