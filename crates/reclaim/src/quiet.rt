//! A cleaning with all CPUs in hand: what it releases is told by their words.

ghost use Rattle.std.specs.Prelude.{◌≡◌, All, IsTrue, Some, filter, map};
ghost use Rattle.std.specs.List.{range_with_len};
ghost use Rattle.tag_rule.specs.Shown.{CpuShown};
ghost use Rattle.reclaim.specs.Quiet.{OwnReads, ScansOwn, is_unquiet};
ghost use Rattle.reclaim.specs.State.{is_still};
ghost use Rattle.reclaim.specs.Sweeps.{Cleaned, with_entries};
ghost use Rattle.module_list.specs.Listing.{reader_of};

use crate::Locked;
use tag_model::Reader;
use tag_rule::{Change, CpuSeat, ListSeat, change_list, scan_own};

/// As `clean_locked`, with all CPUs lent: it releases a dead module exactly where for each of its tags the bytes and the
/// calls of all CPUs add up to 0.
pub fn clean_quiet_locked(locked: &mut Locked, cpus: &mut [CpuSeat]) -> u32
    requires tables { All (λ (c : CpuShown). c.board ≡ locked.old.board) cpus.old }
    requires all { map (λ (c : CpuShown). c.part.number) cpus.old ≡ range_with_len 0 locked.old.board.shape.cpus }
    ensures cleaned { Cleaned locked.old locked.new result }
    ensures exact { locked.new.area ≡ with_entries (filter (is_unquiet cpus.old) locked.old.area.entries) locked.old }
    ensures same { cpus.new ≡ cpus.old }
{
    locked.list.tell();
    change_list(&mut locked.list, Change::Sweep);
    read_own_all(&mut locked.list, cpus);
    locked.release_all()
}

// The sweep reads all that it has still to read, with the seat of each word.
fn read_own_all(list: &mut ListSeat, cpus: &mut [CpuSeat])
    requires tables { All (λ (c : CpuShown). c.board ≡ list.old.board) cpus.old }
    requires all { map (λ (c : CpuShown). c.part.number) cpus.old ≡ range_with_len 0 list.old.board.shape.cpus }
    ensures board { list.new.board ≡ list.old.board }
    ensures reads { OwnReads list.old.board.shape cpus.old list.old.part list.new.part }
    ensures still { IsTrue (is_still list.new.part.sweep) }
    ensures same { cpus.new ≡ cpus.old }
{
    while let Some(reader) = list.reader() {
        read_own_next(list, cpus, reader);
    }
}

// The sweep reads its next word, which is that of a CPU that is lent.
fn read_own_next(list: &mut ListSeat, cpus: &mut [CpuSeat], reader: Reader)
    requires reader { reader_of list.old.part.sweep ≡ Some reader }
    requires tables { All (λ (c : CpuShown). c.board ≡ list.old.board) cpus.old }
    requires all { map (λ (c : CpuShown). c.part.number) cpus.old ≡ range_with_len 0 list.old.board.shape.cpus }
    ensures board { list.new.board ≡ list.old.board }
    ensures read { ScansOwn list.old.board.shape cpus.old list.old.part list.new.part }
    ensures same { cpus.new ≡ cpus.old }
{
    list.tell();
    let cpu = &mut cpus[reader.cpu as usize];
    scan_own(list, cpu);
}
