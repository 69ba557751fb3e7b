//! A run begins.

ghost use Rattle.std.specs.Prelude.{◌≡◌, ◌+◌, ◌-◌, ◌≤◌, IfOk, OnOk, map};
ghost use Rattle.std.specs.Arc.{arc_value};
ghost use Rattle.tag_model.specs.Shape.{IsChecked};
ghost use Rattle.tag_rule.specs.Fresh.{fresh_list};
ghost use Rattle.tag_rule.specs.Made.{AreFresh};
ghost use Rattle.plant.specs.Fresh.{FitsShape, IsStarted, fresh_locked, fresh_workers, pages_from, vectors_from};

use crate::worker::make_worker;
use module_area::Book;
use reclaim::Locked;
use round_worker::Worker;
use std::alloc::{AllocError, Global};
use std::sync::Arc;
use tag_model::Shape;
use tag_rule::{CellPool, CpuSeat, ListSeat, LoadPass, Seats};
use tag_section::Sections;
use trace::Trace;

/// The tags of the kernel, behind which those of modules begin.
const FIRST_TAG: u32 = 128;

/// What a run of a trace begins with.
#[derive(Drop)]
pub struct Started {
    /// All CPUs of the table.
    pub cpus: Vec<CpuSeat>,
    /// For each CPU of the trace.
    pub workers: Vec<Worker>,
    pub locked: Locked,
    pub pass: LoadPass,
    /// The page cells of the other CPUs.
    pub pages: Vec<CellPool>,
    /// The cells of their vectors.
    pub vectors: Vec<Vec<CellPool>>,
}

/// Deals the tokens of a fresh table to the workers of a trace. The sections are those of the trace.
pub(crate) fn deal(
    alloc: Global,
    shape: Shape,
    seats: Seats,
    trace: &Trace,
    sections: Arc<Sections, Global>,
) -> Result<Started, AllocError>
    requires checked { IsChecked shape }
    requires fresh { AreFresh shape seats }
    requires fits { FitsShape shape trace.now }
    ensures { IfOk result (IsStarted shape trace.now (arc_value sections)) }
{
    let Seats {
        cpus,
        mut pages,
        objects: mut vectors,
        list,
        loads: pass,
    } = seats;
    let workers = make_workers(alloc, shape, trace, &list, &mut pages, &mut vectors)?;
    let locked = make_locked(alloc, shape, trace.area, list, sections)?;
    Ok(Started {
        cpus,
        workers,
        locked,
        pass,
        pages,
        vectors,
    })
}

// A worker for each CPU of the trace, which has the first pools.
fn make_workers(
    alloc: Global,
    shape: Shape,
    trace: &Trace,
    list: &ListSeat,
    pages: &mut Vec<CellPool>,
    vectors: &mut Vec<Vec<CellPool>>,
) -> Result<Vec<Worker>, AllocError>
    requires checked { IsChecked shape }
    requires shape { list.now.board.shape ≡ shape }
    requires fits { FitsShape shape trace.now }
    requires pages { pages.old.items ≡ pages_from list.now.board 0 shape.cpus }
    requires vectors { map (λ v. v.items) vectors.old.items ≡ vectors_from list.now.board 0 shape.cpus }
    ensures workers { IfOk result (λ workers. workers.items ≡ fresh_workers list.now.board trace.now.frames trace.now.vectors trace.now.cpus) }
    ensures pages { OnOk result (pages.new.items ≡ pages_from list.now.board trace.now.cpus (shape.cpus - trace.now.cpus)) }
    ensures vectors { OnOk result (map (λ v. v.items) vectors.new.items ≡ vectors_from list.now.board trace.now.cpus (shape.cpus - trace.now.cpus)) }
{
    let mut workers = Vec::new(alloc);
    for cpu in 0..trace.cpus {
        let worker = make_worker(
            alloc,
            cpu,
            trace.frames,
            trace.vectors,
            pages.remove(0),
            vectors.remove(0),
        )?;
        workers.push(worker)?;
    }
    Ok(workers)
}

// The list with an empty book.
fn make_locked(
    alloc: Global,
    shape: Shape,
    area: u32,
    list: ListSeat,
    sections: Arc<Sections, Global>,
) -> Result<Locked, AllocError>
    requires checked { IsChecked shape }
    requires shape { list.board.shape ≡ shape }
    requires empty { list.part ≡ fresh_list }
    requires first { shape.kernel_tags ≡ 128 }
    requires within { 128 + area ≤ shape.tags }
    ensures { IfOk result (λ locked. locked ≡ fresh_locked list.board area (arc_value sections)) }
{
    let book = Book::new(alloc, FIRST_TAG, area)?;
    Ok(Locked::new(book, list, sections))
}
