//! What is known of a list that was behind a lock, for the tests: its table by its type, and the rest by what CPUs tell.

ghost use Rattle.std.specs.Prelude.{◌≡◌, All, IfSome, IsSomeAnd, IsTrue, Some, map, slice_get, ℕ};
ghost use Rattle.std.specs.List.{range_with_len};
ghost use Rattle.module_area.specs.Entries.{entry_of};
ghost use Rattle.module_area.specs.declared.entry.Entry.{Entry};
ghost use Rattle.module_area.specs.declared.entry.State.TheVariants.{Loaded};
ghost use Rattle.tag_rule.specs.Listed.{has_run};
ghost use Rattle.tag_rule.specs.Shown.{CpuShown};

use super::stage::Stage;
use crate::{Locked, ModuleList, clean_quiet_locked};
use module_area::Entry;
use std::marker::Brand;
use std::sync::Wait;
use tag_rule::{CpuSeat, LoadPass, Name};

/// All CPUs meet the list: the module that the first one is inside is loaded, whatever was done under the lock.
fn meet_first(locked: &mut Locked, pass: &mut LoadPass, cpus: &mut [CpuSeat], id: u32) -> Entry
    requires tables { (pass.old.board ≡ locked.old.board) × All (λ (c : CpuShown). c.board ≡ locked.old.board) cpus.old }
    requires all { map (λ (c : CpuShown). c.part.number) cpus.old ≡ range_with_len 0 locked.old.board.shape.cpus }
    requires inside { IsSomeAnd (slice_get cpus.old 0) (λ (c : CpuShown). IsTrue (has_run id c.part.runs)) }
    ensures loaded { (entry_of locked.new.area.entries id ≡ Some result) × (result.state ≡ Loaded) }
    ensures list { locked.new.board ≡ locked.old.board }
    ensures cpus { All (λ (c : CpuShown). c.board ≡ locked.old.board) cpus.new }
    ensures all { map (λ (c : CpuShown). c.part.number) cpus.new ≡ range_with_len 0 locked.old.board.shape.cpus }
{
    locked.tell();
    locked.meet_all(pass, cpus);
    locked.book().get(id).unwrap()
}

/// The list was behind a lock and was cleaned there. CPU 0 is inside the module, so its entry is there, and loaded. With it
/// comes how many modules go once all CPUs are lent.
fn tied<N: Name, R: Wait>(rt: &R, stage: Stage, id: u32) -> Option<(Entry, u32)>
    requires named { stage.locked.board ≡ N.board }
    ensures { IfSome result (λ (told : Entry × ℕ). told.0.state ≡ Loaded) }
{
    let Stage {
        locked,
        mut loads,
        cpu: one,
        cell: _,
        other: zero,
        spare: _,
    } = stage;
    if !zero.is_inside(id) || zero.cpu() != 0 || one.cpu() != 1 || zero.shape().cpus != 2 {
        return None;
    }
    let list: ModuleList<N> = ModuleList::new(locked);
    list.lock(rt).clean();
    let mut locked = list.into_locked();
    let mut cpus = [zero, one];
    let entry = meet_first(&mut locked, &mut loads, &mut cpus, id);
    let cleaned = clean_quiet_locked(&mut locked, &mut cpus);
    Some((entry, cleaned))
}

/// The same, of a stage that has no name.
pub fn tie<R: Wait>(rt: &R, stage: Stage, id: u32) -> Option<(Entry, u32)>
    ensures { IfSome result (λ (told : Entry × ℕ). told.0.state ≡ Loaded) }
{
    tied::<Brand, R>(rt, stage, id)
}
