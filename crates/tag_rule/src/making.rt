//! A table and all its seats.

ghost use Rattle.std.specs.Prelude.{ℕ, ◌≡◌, ◌+◌, ◌*◌, ◌<◌, ◌≤◌, ◌++◌, ◌∷◌, [], IfOk, drop, map};
ghost use Rattle.std.specs.Arc.{arc_value};
ghost use Rattle.std.specs.List.{range_with_len};
ghost use Rattle.tag_model.specs.Shape.{IsChecked};
ghost use Rattle.tag_model.specs.declared.state.Part.TheVariants.{Modules, NextId};
ghost use Rattle.tag_model.specs.Index.{first_cell, first_object, word_count};
ghost use Rattle.tag_rule.specs.Fresh.{cpu_at, fresh_cpu, fresh_cpus, object_count, page_count, places};
ghost use Rattle.tag_rule.specs.Made.{AreFresh, fresh_pages, fresh_seats, fresh_vectors, pools};
ghost use Rattle.tag_rule.specs.Rule.{view_of};
ghost use Rattle.tag_rule.specs.Tokens.{board_of};

use crate::cells::CellPool;
use crate::cpu::CpuSeat;
use crate::modules::{ListSeat, LoadPass};
use crate::seats::take_front;
use crate::words::{Seat, Words};
use atomic_table::Table;
use module_list::RecordList;
use std::alloc::{AllocError, Global};
use std::sync::Arc;
use tag_model::{Shape, VECTOR_CELLS, call_word};

/// The most modules that a CPU is inside.
const ROOM: usize = 64;

/// All tokens of one table.
#[derive(Drop)]
pub struct Seats {
    /// By rising number.
    pub cpus: Vec<CpuSeat>,
    /// The page cells of each CPU.
    pub pages: Vec<CellPool>,
    /// The cells of each vector of each CPU.
    pub objects: Vec<Vec<CellPool>>,
    pub list: ListSeat,
    pub loads: LoadPass,
}

/// A table of the shape: all words are 0, no CPU has a hand, no cell holds anything, and nothing was loaded.
pub fn make(alloc: Global, shape: Shape) -> Result<Seats, AllocError>
    requires { IsChecked shape }
    ensures { IfOk result (AreFresh shape) }
{
    let zeros = vec![in alloc; 0u64; shape.words()]?;
    let (table, mut seat) = Table::of_words(alloc, &zeros, &shape)?;
    let words = Arc::new(alloc, Words { table, shape })?;
    let cpus = take_cpus(alloc, &words, &mut seat)?;
    let pages = take_pages(alloc, &words, &mut seat)?;
    let objects = take_objects(alloc, &words, &mut seat)?;
    let list_seat = take_front(&words, &mut seat, 1);
    let list = ListSeat {
        words,
        seat: list_seat,
        kept: RecordList::new(alloc)?,
    };
    let loads = LoadPass {
        seat,
        shape,
        next: 1,
    };
    Ok(Seats {
        cpus,
        pages,
        objects,
        list,
        loads,
    })
}

// The CPU whose part is the seat's first.
fn take_cpu(
    alloc: Global,
    words: &Arc<Words, Global>,
    seat: &mut Seat,
    number: u32,
) -> Result<CpuSeat, AllocError>
    requires table { seat.old.table_id ≡ (arc_value words.now).table.shared.table_id }
    requires number { number < (arc_value words.now).shape.cpus }
    requires front { seat.old.me ≡ (view_of (cpu_at (arc_value words.now).shape number ∷ drop 1 seat.old.me.0.parts), []) }
    ensures cpu { IfOk result (λ cpu. cpu ≡ record { board = board_of (arc_value words.now); part = fresh_cpu (arc_value words.now).shape number }) }
    ensures seat { IfOk result (λ cpu. (seat.new.table_id ≡ seat.old.table_id) × (seat.new.me ≡ (view_of (drop 1 seat.old.me.0.parts), []))) }
{
    let ids = Vec::with_capacity(alloc, ROOM)?;
    let shared = Arc::try_clone(words)?;
    let own = take_front(words, seat, 1);
    Ok(CpuSeat {
        words: shared,
        seat: own,
        number,
        hand: None,
        ids,
    })
}

// All CPUs, whose parts are the seat's first.
fn take_cpus(
    alloc: Global,
    words: &Arc<Words, Global>,
    seat: &mut Seat,
) -> Result<Vec<CpuSeat>, AllocError>
    requires table { seat.old.table_id ≡ (arc_value words.now).table.shared.table_id }
    requires front { seat.old.me ≡ (view_of (fresh_cpus (arc_value words.now).shape 0 (arc_value words.now).shape.cpus ++ drop (arc_value words.now).shape.cpus seat.old.me.0.parts), []) }
    ensures cpus { IfOk result (λ cpus. cpus.items ≡ fresh_seats (board_of (arc_value words.now))) }
    ensures seat { IfOk result (λ cpus. (seat.new.table_id ≡ seat.old.table_id) × (seat.new.me ≡ (view_of (drop (arc_value words.now).shape.cpus seat.old.me.0.parts), []))) }
{
    let mut cpus = Vec::with_capacity(alloc, words.shape.cpus as usize)?;
    for number in 0..words.shape.cpus {
        cpus.push(take_cpu(alloc, words, seat, number)?)?;
    }
    Ok(cpus)
}

// The pool of so many cells, whose parts are the seat's first.
fn take_pool(
    words: &Arc<Words, Global>,
    seat: &mut Seat,
    first: usize,
    size: usize,
) -> Result<CellPool, AllocError>
    requires table { seat.old.table_id ≡ (arc_value words.now).table.shared.table_id }
    requires within { (first_cell (arc_value words.now).shape ≤ first) × (first + size ≤ word_count (arc_value words.now).shape) }
    requires front { seat.old.me ≡ (view_of (places (range_with_len first size) ++ drop size seat.old.me.0.parts), []) }
    ensures pool { IfOk result (λ pool. pool ≡ record { board = board_of (arc_value words.now); cells = range_with_len first size }) }
    ensures seat { IfOk result (λ pool. (seat.new.table_id ≡ seat.old.table_id) × (seat.new.me ≡ (view_of (drop size seat.old.me.0.parts), []))) }
{
    let shared = Arc::try_clone(words)?;
    let own = take_front(words, seat, size);
    Ok(CellPool {
        words: shared,
        seat: own,
    })
}

// So many pools of so many cells each, from the cell `first` on.
fn take_pools(
    alloc: Global,
    words: &Arc<Words, Global>,
    seat: &mut Seat,
    first: usize,
    count: usize,
    size: usize,
) -> Result<Vec<CellPool>, AllocError>
    requires table { seat.old.table_id ≡ (arc_value words.now).table.shared.table_id }
    requires within { (first_cell (arc_value words.now).shape ≤ first) × (first + count * size ≤ word_count (arc_value words.now).shape) }
    requires front { seat.old.me ≡ (view_of (places (range_with_len first (count * size)) ++ drop (count * size) seat.old.me.0.parts), []) }
    ensures pools { IfOk result (λ made. made.items ≡ pools (board_of (arc_value words.now)) first count size) }
    ensures seat { IfOk result (λ made. (seat.new.table_id ≡ seat.old.table_id) × (seat.new.me ≡ (view_of (drop (count * size) seat.old.me.0.parts), []))) }
{
    let mut made = Vec::with_capacity(alloc, count)?;
    for place in 0..count {
        made.push(take_pool(words, seat, first + place * size, size)?)?;
    }
    Ok(made)
}

// The page cells of all CPUs.
fn take_pages(
    alloc: Global,
    words: &Arc<Words, Global>,
    seat: &mut Seat,
) -> Result<Vec<CellPool>, AllocError>
    requires table { seat.old.table_id ≡ (arc_value words.now).table.shared.table_id }
    requires front { seat.old.me ≡ (view_of (places (range_with_len (first_cell (arc_value words.now).shape) (page_count (arc_value words.now).shape)) ++ drop (page_count (arc_value words.now).shape) seat.old.me.0.parts), []) }
    ensures pools { IfOk result (λ made. made.items ≡ fresh_pages (board_of (arc_value words.now))) }
    ensures seat { IfOk result (λ made. (seat.new.table_id ≡ seat.old.table_id) × (seat.new.me ≡ (view_of (drop (page_count (arc_value words.now).shape) seat.old.me.0.parts), []))) }
{
    let shape = words.shape;
    let first = call_word(shape, shape.cpus - 1, shape.tags - 1) + 1;
    let cpus = shape.cpus as usize;
    take_pools(alloc, words, seat, first, cpus, shape.frames as usize)
}

// The cells of all vectors of all CPUs.
fn take_objects(
    alloc: Global,
    words: &Arc<Words, Global>,
    seat: &mut Seat,
) -> Result<Vec<Vec<CellPool>>, AllocError>
    requires table { seat.old.table_id ≡ (arc_value words.now).table.shared.table_id }
    requires front { seat.old.me ≡ (view_of (places (range_with_len (first_object (arc_value words.now).shape) (object_count (arc_value words.now).shape)) ++ drop (object_count (arc_value words.now).shape) seat.old.me.0.parts), []) }
    ensures pools { IfOk result (λ made. map (λ v. v.items) made.items ≡ map (fresh_vectors (board_of (arc_value words.now))) (range_with_len 0 (arc_value words.now).shape.cpus)) }
    ensures seat { IfOk result (λ made. (seat.new.table_id ≡ seat.old.table_id) × (seat.new.me ≡ (view_of (drop (object_count (arc_value words.now).shape) seat.old.me.0.parts), []))) }
{
    let shape = words.shape;
    let vectors = shape.vectors as usize;
    let size = vectors * VECTOR_CELLS as usize;
    let first = shape.words() - shape.cpus as usize * size;
    let mut made = Vec::with_capacity(alloc, shape.cpus as usize)?;
    for cpu in 0..shape.cpus as usize {
        let own = take_pools(
            alloc,
            words,
            seat,
            first + cpu * size,
            vectors,
            VECTOR_CELLS as usize,
        )?;
        made.push(own)?;
    }
    Ok(made)
}
