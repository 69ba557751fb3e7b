//! Cells go out of a pool and come back: base moves alone.

ghost use Rattle.std.specs.Prelude.{ℕ, ◌≡◌, ◌+◌, ◌-◌, ◌<◌, ◌&&◌, ◌||◌, not, false, IfOk, IsTrue};
ghost use Rattle.tag_model.specs.WordState.{in_range};
ghost use Rattle.tag_model.specs.declared.state.Held.TheVariants as held;
ghost use Rattle.tag_rule.specs.Shown.{has};
ghost use Rattle.tag_rule.specs.Singles.{single_cells};

use crate::cells::{CellPool, CellSeat};
use crate::cpu::CpuSeat;
use crate::seats::{divide_seat, split_off, turn, unite_seat};
use crate::words::Words;
use std::alloc::{AllocError, Global};
use std::marker::Brand;
use tag_model::Held;

/// A run of cells.
#[derive(Clone, Copy)]
pub(crate) struct Span {
    pub first: usize,
    pub count: u32,
}

/// Takes a run of cells out of the pool.
pub fn part(pool: &mut CellPool, first: usize, count: u32) -> CellSeat
    requires some { 0 < count }
    requires there { (n : ℕ) → IsTrue (in_range first count n) → IsTrue (has pool.old n) }
    ensures cell { result ≡ record { board = pool.old.board; first = first; count = count; held = held.None } }
    ensures pool { (pool.new.board ≡ pool.old.board) × ((n : ℕ) → has pool.new n ≡ (has pool.old n && not (in_range first count n))) }
{
    let words: &Words = &pool.words;
    let span = Span { first, count };
    let seat = divide_seat::<Brand, Span>(words, &mut pool.seat, &span);
    CellSeat {
        seat,
        shape: words.shape,
        first,
        count,
        held: Held::None,
    }
}

/// Puts cells that hold nothing back into a pool.
pub fn unite(pool: &mut CellPool, cell: CellSeat)
    requires table { cell.board ≡ pool.old.board }
    requires none { cell.held ≡ held.None }
    ensures pool { (pool.new.board ≡ pool.old.board) × ((n : ℕ) → has pool.new n ≡ (has pool.old n || in_range cell.first cell.count n)) }
    ensures apart { (n : ℕ) → IsTrue (in_range cell.first cell.count n) → has pool.old n ≡ false }
{
    let CellSeat {
        seat,
        shape: _,
        first: _,
        count: _,
        held: _,
    } = cell;
    let words: &Words = &pool.words;
    unite_seat(words, &mut pool.seat, seat);
    turn::<Brand, ()>(words, &mut pool.seat, &());
}

/// Cuts a run of cells in two. The first part keeps what the cells hold, and the rest holds nothing.
pub fn divide(cpu: &CpuSeat, cell: CellSeat, count: u32) -> (CellSeat, CellSeat)
    requires table { cell.board ≡ cpu.now.board }
    requires within { (0 < count) × (count < cell.count) }
    ensures first { result.0 ≡ record cell { count = count } }
    ensures rest { result.1 ≡ record { board = cell.board; first = cell.first + count; count = cell.count - count; held = held.None } }
{
    let CellSeat {
        mut seat,
        shape,
        first,
        count: all,
        held,
    } = cell;
    let behind = split_off(&cpu.words, &mut seat, count as usize);
    let front = CellSeat {
        seat,
        shape,
        first,
        count,
        held,
    };
    let rest = CellSeat {
        seat: behind,
        shape,
        first: first + count as usize,
        count: all - count,
        held: Held::None,
    };
    (front, rest)
}

/// The cells of a run that holds nothing, one by one, in order.
pub fn singles(alloc: Global, cpu: &CpuSeat, run: CellSeat) -> Result<Vec<CellSeat>, AllocError>
    requires table { run.board ≡ cpu.now.board }
    requires none { run.held ≡ held.None }
    ensures { IfOk result (λ cells. cells.items ≡ single_cells run) }
{
    run.tell();
    let mut cells = Vec::with_capacity(alloc, run.count() as usize)?;
    let mut rest = run;
    while rest.count() > 1 {
        let (one, more) = divide(cpu, rest, 1);
        cells.push(one)?;
        rest = more;
    }
    cells.push(rest)?;
    Ok(cells)
}
