//! Two threads that free what was counted under a dead module, beside a third that cleans, for the tests.

ghost use Rattle.std.specs.Prelude.{◌≡◌, ◌<◌, All, IfOk, IfSome, IsTrue, None, OnOk, map};
ghost use Rattle.std.specs.List.{range_with_len};
ghost use Rattle.std.specs.Thread.{IsSend, IsSync};
ghost use Rattle.tag_model.specs.StepRules.{may_begin};
ghost use Rattle.tag_rule.specs.Shown.{CellShown, CpuShown};

use super::plant::{Plant, enter_first, new_plant};
use super::splits::{clear, share};
use crate::{
    Locked, ModuleList, Reclaim, clean_quiet_locked, leave_locked, load_locked, unload_locked,
};
use module_area::AreaError;
use std::alloc::{AllocError, Global};
use std::marker::Brand;
use std::sync::Wait;
use std::test::Fail;
use std::thread::{Threads, join};
use tag_model::{Held, Tag};
use tag_ref::open_ref;
use tag_rule::{CellSeat, CpuSeat, LoadPass, Name};

/// How often the list is cleaned while the threads free.
const CLEANINGS: u32 = 1_000;

/// How many cells each of the two threads frees, beside its spare one.
const EACH: u32 = 200;

/// A CPU with cells whose references it is to free, and a spare cell.
#[derive(Drop)]
pub struct Side {
    cpu: CpuSeat,
    cells: Vec<CellSeat>,
    spare: CellSeat,
    ghost rests: { cpu.part.hand ≡ None },
    ghost cells_there: { All (λ (c : CellShown). c.board ≡ cpu.board) cells.items },
    ghost spare_there: { spare.board ≡ cpu.board },
}

/// Splits a reference again and again and frees one half each time, and frees the last in the end.
fn wear(cpu: &mut CpuSeat, cell: &mut CellSeat, spare: &mut CellSeat)
    requires table { (cell.old.board ≡ cpu.old.board) × (spare.old.board ≡ cpu.old.board) }
    requires rests { cpu.old.part.hand ≡ None }
    ensures cells { (cell.new.board ≡ cell.old.board) × (spare.new.board ≡ spare.old.board) }
    ensures cpu { (cpu.new.board ≡ cpu.old.board) × (cpu.new.part.hand ≡ None) }
{
    for _ in 0..13 {
        share(cpu, cell, spare);
        clear(cpu, spare);
    }
    clear(cpu, cell);
}

/// Frees what each cell holds.
fn wear_all(cpu: &mut CpuSeat, cells: &mut [CellSeat], spare: &mut CellSeat)
    requires rests { cpu.old.part.hand ≡ None }
    requires spare { spare.old.board ≡ cpu.old.board }
    requires there { All (λ (c : CellShown). c.board ≡ cpu.old.board) cells.old }
    ensures cpu { (cpu.new.board ≡ cpu.old.board) × (cpu.new.part.hand ≡ None) }
    ensures spare { spare.new.board ≡ spare.old.board }
    ensures there { All (λ (c : CellShown). c.board ≡ cpu.old.board) cells.new }
{
    for cell in cells.iter_mut() {
        wear(cpu, cell, spare);
    }
}

/// Frees all that a side's cells hold.
fn free_all(side: Side) -> Side
    ensures { result.cpu.board ≡ side.cpu.board }
{
    let mut cpu = side.cpu;
    let mut cells = side.cells;
    let mut spare = side.spare;
    clear(&mut cpu, &mut spare);
    wear_all(&mut cpu, cells.as_mut_slice(), &mut spare);
    Side { cpu, cells, spare }
}

/// Two sides at work, each in a thread of its own.
fn both<R: Threads + Sync>(rt: &R, one: Side, other: Side) -> (Side, Side)
    ensures { (result.0.cpu.board ≡ one.cpu.board) × (result.1.cpu.board ≡ other.cpu.board) }
{
    join(
        rt,
        move || -> Side
            ensures { result.cpu.board ≡ one.cpu.board }
        { free_all(one) },
        move || -> Side
            ensures { result.cpu.board ≡ other.cpu.board }
        { free_all(other) },
    )
}

/// Cleans so often, each time under a lock of its own. The answer is how many modules went.
fn clean_often<N: Name, R: Wait>(rt: &R, list: &ModuleList<N>) -> u32 {
    let mut gone = 0u32;
    for _ in 0..CLEANINGS {
        gone = gone.saturating_add(list.lock(rt).clean());
    }
    gone
}

/// A dead module's list, two sides with what is counted under it, and a CPU with one more reference.
#[derive(Drop)]
pub struct Yard {
    locked: Locked,
    one: Side,
    other: Side,
    keeper: CpuSeat,
    kept: CellSeat,
    ghost one_there: { one.cpu.board ≡ locked.board },
    ghost other_there: { other.cpu.board ≡ locked.board },
    ghost keeper_there: { keeper.board ≡ locked.board },
    ghost kept_there: { kept.board ≡ locked.board },
    ghost rests: { keeper.part.hand ≡ None },
}

/// Both sides free all that they hold, beside a thread that cleans. The answer is the yard then, and how many modules went.
fn work<N: Name + Send + Sync, R: Threads + Wait + Sync>(rt: &R, yard: Yard) -> (Yard, u32)
    requires { yard.locked.board ≡ N.board }
{
    let Yard {
        locked,
        one,
        other,
        keeper,
        kept,
    } = yard;
    let list: ModuleList<N> = ModuleList::new(locked);
    let (sides, gone) = join(
        rt,
        move || -> (Side, Side)
            requires { IsSync R.row }
            ensures { (result.0.cpu.board ≡ one.cpu.board) × (result.1.cpu.board ≡ other.cpu.board) }
        { both(rt, one, other) },
        || clean_often(rt, &list),
    );
    let yard = Yard {
        locked: list.into_locked(),
        one: sides.0,
        other: sides.1,
        keeper,
        kept,
    };
    (yard, gone)
}

/// Counts 8,192 bytes under the tag in each cell that holds none.
fn fill(cpu: &mut CpuSeat, cells: &mut [CellSeat], tag: Tag)
    requires rests { cpu.old.part.hand ≡ None }
    requires allowed { IsTrue (may_begin cpu.old.board.shape tag cpu.old.part.runs) }
    requires there { All (λ (c : CellShown). c.board ≡ cpu.old.board) cells.old }
    ensures cpu { (cpu.new.board ≡ cpu.old.board) × (cpu.new.part.hand ≡ None) }
    ensures there { All (λ (c : CellShown). c.board ≡ cpu.old.board) cells.new }
{
    for cell in cells.iter_mut() {
        if matches!(cell.held(), Held::None) {
            open_ref(cpu, cell, tag, 8_192);
        }
    }
}

/// A side of the CPU, with cells of those that are there.
fn new_side(
    alloc: Global,
    locked: &Locked,
    cpu: CpuSeat,
    cells: &mut Vec<CellSeat>,
) -> Result<Option<Side>, AllocError>
    requires cpu { cpu.board ≡ locked.now.board }
    requires cells { All (λ (c : CellShown). c.board ≡ locked.now.board) cells.old.items }
    ensures side { IfOk result (λ made. IfSome made (λ side. side.cpu.board ≡ locked.now.board)) }
    ensures cells { OnOk result (All (λ (c : CellShown). c.board ≡ locked.now.board) cells.new.items) }
{
    let own = take(alloc, locked, cells)?;
    match cells.pop() {
        Some(spare) if cpu.hand().is_none() => Ok(Some(Side {
            cpu,
            cells: own,
            spare,
        })),
        _ => Ok(None),
    }
}

/// Takes a side's cells of those that are there.
fn take(
    alloc: Global,
    locked: &Locked,
    cells: &mut Vec<CellSeat>,
) -> Result<Vec<CellSeat>, AllocError>
    requires { All (λ (c : CellShown). c.board ≡ locked.now.board) cells.old.items }
    ensures taken { IfOk result (λ taken. All (λ (c : CellShown). c.board ≡ locked.now.board) taken.items) }
    ensures left { OnOk result (All (λ (c : CellShown). c.board ≡ locked.now.board) cells.new.items) }
{
    let mut taken = Vec::with_capacity(alloc, EACH as usize)?;
    for _ in 0..EACH {
        if let Some(cell) = cells.pop() {
            taken.push(cell)?;
        }
    }
    Ok(taken)
}

/// CPU 2 counts all cells under the module, and comes out of it. The module is unloaded then.
fn count_all(
    locked: &mut Locked,
    id: u32,
    keeper: &mut CpuSeat,
    cells: &mut [CellSeat],
) -> Option<Reclaim>
    requires table { keeper.old.board ≡ locked.old.board }
    requires cells { All (λ (c : CellShown). c.board ≡ locked.old.board) cells.old }
    ensures list { locked.new.board ≡ locked.old.board }
    ensures keeper { keeper.new.board ≡ keeper.old.board }
    ensures cells { All (λ (c : CellShown). c.board ≡ locked.old.board) cells.new }
    ensures rests { IfSome result (λ answer. keeper.new.part.hand ≡ None) }
{
    if keeper.hand().is_some() {
        return None;
    }
    let tag = enter_first(locked, keeper, id)?;
    fill(keeper, cells, tag);
    if !keeper.is_inside(id) {
        return None;
    }
    leave_locked(locked, keeper, id);
    unload(locked, id)
}

/// Unloads the module, if that isn't refused.
fn unload(locked: &mut Locked, id: u32) -> Option<Reclaim>
    ensures { locked.new.board ≡ locked.old.board }
{
    unload_locked(locked, id).ok()
}

/// Loads the module.
fn load_first(locked: &mut Locked, loads: &mut LoadPass) -> Result<u32, AreaError>
    requires { loads.old.board ≡ locked.old.board }
    ensures { locked.new.board ≡ locked.old.board }
{
    load_locked(locked, loads, 1)
}

/// A new table's yard, and what the unload of its module answered.
pub fn new_yard(alloc: Global) -> Result<Option<(Yard, Reclaim)>, Fail> {
    let Plant {
        mut locked,
        mut loads,
        mut cpus,
        mut cells,
    } = new_plant(alloc, 3, 2 * EACH + 3)?;
    let id = load_first(&mut locked, &mut loads)?;
    let Some(mut keeper) = cpus.pop() else {
        return Ok(None);
    };
    let Some(second) = cpus.pop() else {
        return Ok(None);
    };
    let Some(first) = cpus.pop() else {
        return Ok(None);
    };
    let Some(answer) = count_all(&mut locked, id, &mut keeper, cells.as_mut_slice()) else {
        return Ok(None);
    };
    let one = new_side(alloc, &locked, first, &mut cells)?;
    let other = new_side(alloc, &locked, second, &mut cells)?;
    match (one, other, cells.pop()) {
        (Some(one), Some(other), Some(kept)) => Ok(Some((
            Yard {
                locked,
                one,
                other,
                keeper,
                kept,
            },
            answer,
        ))),
        _ => Ok(None),
    }
}

/// The same as `work`, of a yard that has no name.
pub fn work_beside<R: Threads + Wait + Sync>(rt: &R, yard: Yard) -> (Yard, u32) {
    work::<Brand, R>(rt, yard)
}

/// Frees the last reference. The answer is how many modules go, by the words of all CPUs.
pub fn finish(yard: Yard) -> Option<u32> {
    let Yard {
        mut locked,
        one,
        other,
        mut keeper,
        mut kept,
    } = yard;
    clear(&mut keeper, &mut kept);
    let Side {
        cpu: zero,
        cells: _,
        spare: _,
    } = one;
    let Side {
        cpu: one,
        cells: _,
        spare: _,
    } = other;
    if zero.cpu() != 0 || one.cpu() != 1 || keeper.cpu() != 2 || zero.shape().cpus != 3 {
        return None;
    }
    let mut cpus = [zero, one, keeper];
    Some(clean_quiet_locked(&mut locked, &mut cpus))
}
