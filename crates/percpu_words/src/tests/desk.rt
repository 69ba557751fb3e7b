//! CPUs with cells, for the tests: what they hold, and how they hand it on.

ghost use Rattle.std.specs.Prelude.{All, IfOk, IfSome, IsTrue, None, OnOk, ◌*◌, ◌<◌, ◌≡◌, ◌≤◌};
ghost use Rattle.std.specs.Thread.{IsSync};
ghost use Rattle.tag_model.specs.Shape.{IsChecked};
ghost use Rattle.tag_model.specs.declared.state.Held.TheVariants as held;
ghost use Rattle.tag_rule.specs.Shown.{CellShown, CpuShown};

use crate::{own_word, quiet_total};
use std::alloc::{AllocError, Global};
use std::thread::{Threads, join};
use tag_model::{Held, Shape, Tag, page_cell};
use tag_ref::{close_ref, open_ref};
use tag_rule::{CellSeat, CpuSeat, ListSeat, Seats, make, part, singles};

/// A CPU with the cells that it keeps and those that it hands on.
#[derive(Drop)]
pub struct Desk {
    pub cpu: CpuSeat,
    pub own: Vec<CellSeat>,
    pub given: Vec<CellSeat>,
    ghost rests: { cpu.part.hand ≡ None },
    ghost kernel: { (3 < cpu.board.shape.kernel_tags) × (3 < cpu.board.shape.tags) },
    ghost own_there: { All (λ (c : CellShown). c.board ≡ cpu.board) own.items },
    ghost given_there: { All (λ (c : CellShown). c.board ≡ cpu.board) given.items },
}

/// Frees what the cell holds, if it holds something.
fn clear(cpu: &mut CpuSeat, cell: &mut CellSeat)
    requires table { cell.old.board ≡ cpu.old.board }
    requires rests { cpu.old.part.hand ≡ None }
    ensures cell { (cell.new.board ≡ cell.old.board) × (cell.new.held ≡ held.None) }
    ensures cpu { (cpu.new.board ≡ cpu.old.board) × (cpu.new.part.hand ≡ None) }
{
    match cell.held() {
        Held::None => {}
        _ => {
            close_ref(cpu, cell);
        }
    }
}

/// Frees what the cells hold.
fn clear_all(cpu: &mut CpuSeat, cells: &mut [CellSeat])
    requires rests { cpu.old.part.hand ≡ None }
    requires there { All (λ (c : CellShown). c.board ≡ cpu.old.board) cells.old }
    ensures cpu { (cpu.new.board ≡ cpu.old.board) × (cpu.new.part.hand ≡ None) }
    ensures there { All (λ (c : CellShown). c.board ≡ cpu.old.board) cells.new }
{
    for cell in cells.iter_mut() {
        clear(cpu, cell);
    }
}

/// Allocates 64 bytes for each cell, after freeing what it holds.
fn fill_all(cpu: &mut CpuSeat, cells: &mut [CellSeat], number: u32)
    requires rests { cpu.old.part.hand ≡ None }
    requires kernel { number < cpu.old.board.shape.kernel_tags }
    requires there { All (λ (c : CellShown). c.board ≡ cpu.old.board) cells.old }
    ensures cpu { (cpu.new.board ≡ cpu.old.board) × (cpu.new.part.hand ≡ None) }
    ensures there { All (λ (c : CellShown). c.board ≡ cpu.old.board) cells.new }
{
    let tag = Tag { number, module: 0 };
    for cell in cells.iter_mut() {
        clear(cpu, cell);
        open_ref(cpu, cell, tag, 64);
    }
}

/// Fills all cells of a desk under a tag.
pub fn fill(desk: Desk, number: u32) -> Desk
    requires { number < 4 }
    ensures { result.cpu.board ≡ desk.cpu.board }
{
    let mut cpu = desk.cpu;
    let mut own = desk.own;
    let mut given = desk.given;
    fill_all(&mut cpu, own.as_mut_slice(), number);
    fill_all(&mut cpu, given.as_mut_slice(), number);
    Desk { cpu, own, given }
}

/// Frees what all cells of a desk hold.
pub fn finish(desk: Desk) -> Desk
    ensures { result.cpu.board ≡ desk.cpu.board }
{
    let mut cpu = desk.cpu;
    let mut own = desk.own;
    let mut given = desk.given;
    clear_all(&mut cpu, own.as_mut_slice());
    clear_all(&mut cpu, given.as_mut_slice());
    Desk { cpu, own, given }
}

/// Fills all cells of a desk so many times, under four tags by turns.
fn work(desk: Desk, turns: u32) -> Desk
    ensures { result.cpu.board ≡ desk.cpu.board }
{
    let mut cpu = desk.cpu;
    let mut own = desk.own;
    let mut given = desk.given;
    for turn in 0..turns {
        fill_all(&mut cpu, own.as_mut_slice(), turn % 4);
        fill_all(&mut cpu, given.as_mut_slice(), turn % 4);
    }
    Desk { cpu, own, given }
}

/// Four desks of one table.
#[derive(Drop)]
pub struct Hall {
    pub a: Desk,
    pub b: Desk,
    pub c: Desk,
    pub d: Desk,
    ghost one_table: { (b.cpu.board ≡ a.cpu.board) × (c.cpu.board ≡ a.cpu.board) × (d.cpu.board ≡ a.cpu.board) },
}

/// Two desks at work, each in a thread of its own.
fn two<R: Threads + Sync>(rt: &R, one: Desk, other: Desk, turns: u32) -> (Desk, Desk)
    ensures { (result.0.cpu.board ≡ one.cpu.board) × (result.1.cpu.board ≡ other.cpu.board) }
{
    join(
        rt,
        move || -> Desk
            ensures { result.cpu.board ≡ one.cpu.board }
        { work(one, turns) },
        move || -> Desk
            ensures { result.cpu.board ≡ other.cpu.board }
        { work(other, turns) },
    )
}

/// Four desks at work. Once all are done, each hands half of its cells to the next.
pub fn round<R: Threads + Sync>(rt: &R, hall: Hall, turns: u32) -> Hall {
    let Hall { a, b, c, d } = hall;
    let (front, back) = join(
        rt,
        move || -> (Desk, Desk)
            requires { IsSync R.row }
            ensures { (result.0.cpu.board ≡ a.cpu.board) × (result.1.cpu.board ≡ b.cpu.board) }
        { two(rt, a, b, turns) },
        move || -> (Desk, Desk)
            requires { IsSync R.row }
            ensures { (result.0.cpu.board ≡ c.cpu.board) × (result.1.cpu.board ≡ d.cpu.board) }
        { two(rt, c, d, turns) },
    );
    hand_on(front.0, front.1, back.0, back.1)
}

fn hand_on(a: Desk, b: Desk, c: Desk, d: Desk) -> Hall
    requires { (b.cpu.board ≡ a.cpu.board) × (c.cpu.board ≡ a.cpu.board) × (d.cpu.board ≡ a.cpu.board) }
{
    let (a, d) = handed(a, d);
    let (d, c) = handed(d, c);
    let (c, b) = handed(c, b);
    Hall { a, b, c, d }
}

/// Two desks exchange the cells that they hand on.
fn handed(one: Desk, other: Desk) -> (Desk, Desk)
    requires { other.cpu.board ≡ one.cpu.board }
    ensures { (result.0.cpu.board ≡ one.cpu.board) × (result.1.cpu.board ≡ other.cpu.board) }
{
    let first = Desk {
        cpu: one.cpu,
        own: one.own,
        given: other.given,
    };
    let second = Desk {
        cpu: other.cpu,
        own: other.own,
        given: one.given,
    };
    (first, second)
}

fn take(
    alloc: Global,
    list: &ListSeat,
    cells: &mut Vec<CellSeat>,
    count: usize,
) -> Result<Vec<CellSeat>, AllocError>
    requires { All (λ (c : CellShown). c.board ≡ list.now.board) cells.old.items }
    ensures taken { IfOk result (λ taken. All (λ (c : CellShown). c.board ≡ list.now.board) taken.items) }
    ensures left { OnOk result (All (λ (c : CellShown). c.board ≡ list.now.board) cells.new.items) }
{
    let mut taken = Vec::with_capacity(alloc, count)?;
    for _ in 0..count {
        if let Some(cell) = cells.pop() {
            taken.push(cell)?;
        }
    }
    Ok(taken)
}

/// A desk of the next CPU, with so many cells of each kind.
fn next_desk(
    alloc: Global,
    list: &ListSeat,
    cpus: &mut Vec<CpuSeat>,
    cells: &mut Vec<CellSeat>,
    count: usize,
) -> Result<Option<Desk>, AllocError>
    requires kernel { (3 < list.now.board.shape.kernel_tags) × (3 < list.now.board.shape.tags) }
    requires cpus { All (λ (c : CpuShown). (c.board ≡ list.now.board) × (c.part.hand ≡ None)) cpus.old.items }
    requires cells { All (λ (c : CellShown). c.board ≡ list.now.board) cells.old.items }
    ensures desk { IfOk result (λ desk. IfSome desk (λ d. d.cpu.board ≡ list.now.board)) }
    ensures cpus { OnOk result (All (λ (c : CpuShown). (c.board ≡ list.now.board) × (c.part.hand ≡ None)) cpus.new.items) }
    ensures cells { OnOk result (All (λ (c : CellShown). c.board ≡ list.now.board) cells.new.items) }
{
    let own = take(alloc, list, cells, count)?;
    let given = take(alloc, list, cells, count)?;
    let Some(cpu) = cpus.pop() else {
        return Ok(None);
    };
    Ok(Some(Desk { cpu, own, given }))
}

/// A new table: its CPUs, and cells of the first CPU's node.
#[derive(Drop)]
pub struct Plant {
    pub cpus: Vec<CpuSeat>,
    pub cells: Vec<CellSeat>,
    pub list: ListSeat,
    ghost kernel: { (3 < list.board.shape.kernel_tags) × (3 < list.board.shape.tags) },
    ghost cpus_there: { All (λ (c : CpuShown). (c.board ≡ list.board) × (c.part.hand ≡ None)) cpus.items },
    ghost cells_there: { All (λ (c : CellShown). c.board ≡ list.board) cells.items },
}

pub fn new_plant(alloc: Global, shape: Shape, count: u32) -> Result<Plant, AllocError>
    requires checked { IsChecked shape }
    requires kernel { 3 < shape.kernel_tags }
    requires some { 0 < count }
    requires few { count ≤ shape.frames }
{
    let Seats {
        cpus,
        mut pages,
        list,
        ..
    } = make(alloc, shape)?;
    let run = part(&mut pages[0], page_cell(shape, 0, 0), count);
    let cells = singles(alloc, &cpus[0], run)?;
    Ok(Plant { cpus, cells, list })
}

/// Four desks of a new table, each with so many cells of each kind.
pub fn new_hall(alloc: Global, shape: Shape, count: u32) -> Result<Option<Hall>, AllocError>
    requires checked { IsChecked shape }
    requires kernel { 3 < shape.kernel_tags }
    requires some { 0 < count }
    requires few { 8 * count ≤ shape.frames }
{
    let Plant {
        mut cpus,
        mut cells,
        list,
    } = new_plant(alloc, shape, 8 * count)?;
    let each = count as usize;
    let a = next_desk(alloc, &list, &mut cpus, &mut cells, each)?;
    let b = next_desk(alloc, &list, &mut cpus, &mut cells, each)?;
    let c = next_desk(alloc, &list, &mut cpus, &mut cells, each)?;
    let d = next_desk(alloc, &list, &mut cpus, &mut cells, each)?;
    match (a, b, c, d) {
        (Some(a), Some(b), Some(c), Some(d)) => Ok(Some(Hall { a, b, c, d })),
        _ => Ok(None),
    }
}

/// What the words of a tag say, added over the four CPUs.
pub fn counted(hall: &mut Hall, tag: u32) -> (u64, u64)
    requires { tag < 4 }
{
    let a = own_word(&mut hall.a.cpu, tag);
    let b = own_word(&mut hall.b.cpu, tag);
    let c = own_word(&mut hall.c.cpu, tag);
    let d = own_word(&mut hall.d.cpu, tag);
    let bytes = a.0.wrapping_add(b.0).wrapping_add(c.0).wrapping_add(d.0);
    let calls = a.1.wrapping_add(b.1).wrapping_add(c.1).wrapping_add(d.1);
    (bytes, calls)
}

/// Desks of two CPUs of a new table. The first one has 1,000 cells, and the second none.
pub fn new_pair(alloc: Global, shape: Shape) -> Result<Option<(Desk, Desk)>, AllocError>
    requires checked { IsChecked shape }
    requires kernel { 3 < shape.kernel_tags }
    requires few { 1000 ≤ shape.frames }
    ensures { IfOk result (λ found. IfSome found (λ pair. pair.1.cpu.board ≡ pair.0.cpu.board)) }
{
    let Plant {
        mut cpus,
        mut cells,
        list,
    } = new_plant(alloc, shape, 1_000)?;
    let second = next_desk(alloc, &list, &mut cpus, &mut cells, 0)?;
    let first = next_desk(alloc, &list, &mut cpus, &mut cells, 500)?;
    match (first, second) {
        (Some(first), Some(second)) => Ok(Some((first, second))),
        _ => Ok(None),
    }
}

/// Two desks exchange all their cells.
pub fn exchanged(one: Desk, other: Desk) -> (Desk, Desk)
    requires { other.cpu.board ≡ one.cpu.board }
    ensures { (result.0.cpu.board ≡ one.cpu.board) × (result.1.cpu.board ≡ other.cpu.board) }
{
    let first = Desk {
        cpu: one.cpu,
        own: other.own,
        given: other.given,
    };
    let second = Desk {
        cpu: other.cpu,
        own: one.own,
        given: one.given,
    };
    (first, second)
}

/// Fills all cells of a desk, in a thread of its own.
pub fn filled_there<R: Threads + Sync>(rt: &R, desk: Desk, number: u32) -> Desk
    requires { number < 4 }
    ensures { result.cpu.board ≡ desk.cpu.board }
{
    let (filled, _) = join(
        rt,
        move || -> Desk
            requires { number < 4 }
            ensures { result.cpu.board ≡ desk.cpu.board }
        { fill(desk, number) },
        || (),
    );
    filled
}

/// Frees what all cells of a desk hold, in a thread of its own.
pub fn finished_there<R: Threads + Sync>(rt: &R, desk: Desk) -> Desk
    ensures { result.cpu.board ≡ desk.cpu.board }
{
    let (finished, _) = join(
        rt,
        move || -> Desk
            ensures { result.cpu.board ≡ desk.cpu.board }
        { finish(desk) },
        || (),
    );
    finished
}

/// The CPUs of two desks, and each one's words of a tag.
pub fn both(
    alloc: Global,
    first: Desk,
    second: Desk,
    tag: u32,
) -> Result<(Vec<CpuSeat>, [(u64, u64); 2]), AllocError>
    requires { tag < 4 }
    ensures { IfOk result (λ found. All (λ (c : CpuShown). 3 < c.board.shape.tags) found.0.items) }
{
    let Desk {
        mut cpu,
        own: _,
        given: _,
    } = first;
    let Desk {
        cpu: mut other,
        own: _,
        given: _,
    } = second;
    let words = [own_word(&mut cpu, tag), own_word(&mut other, tag)];
    let mut cpus = Vec::with_capacity(alloc, 2)?;
    cpus.push(cpu)?;
    cpus.push(other)?;
    Ok((cpus, words))
}

/// The CPUs of a hall, once all that its cells held is freed.
pub fn cpus_of(alloc: Global, hall: Hall) -> Result<Vec<CpuSeat>, AllocError>
    ensures { IfOk result (λ cpus. All (λ (c : CpuShown). 3 < c.board.shape.tags) cpus.items) }
{
    let Hall { a, b, c, d } = hall;
    let mut cpus = Vec::with_capacity(alloc, 4)?;
    cpus.push(finish(a).cpu)?;
    cpus.push(finish(b).cpu)?;
    cpus.push(finish(c).cpu)?;
    cpus.push(finish(d).cpu)?;
    Ok(cpus)
}

/// The sums of each tag's words.
pub fn totals(cpus: &mut [CpuSeat]) -> [(u64, u64); 4]
    requires { All (λ (c : CpuShown). 3 < c.board.shape.tags) cpus.old }
{
    let first = quiet_total(cpus, 0);
    let second = quiet_total(cpus, 1);
    let third = quiet_total(cpus, 2);
    [first, second, third, quiet_total(cpus, 3)]
}
