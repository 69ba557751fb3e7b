//! References: an allocation and a free are three atomic operations each.

ghost use Rattle.std.specs.Prelude.{IsTrue, None, Some, ◌<◌, ◌≡◌, ◌≢◌, ◌↔◌};
ghost use Rattle.tag_model.specs.ListMachine.{Close, LeavesSome, Mark, Open, Trim};
ghost use Rattle.tag_model.specs.RefMoves.{close_moves, open_moves, trim_moves, trimmed};
ghost use Rattle.tag_model.specs.StepRules.{may_begin};
ghost use Rattle.tag_model.specs.declared.state.Held.TheVariants as held;
ghost use Rattle.tag_ref.specs.Refs.{MeetsMachine, closed_as, holding, moved_by};

use tag_model::{Held, SIZE_END, Tag};
use tag_rule::{CellSeat, CpuSeat, add_bytes, add_call, sub_bytes, sub_call, write_cell};

/// What a free found in its cell.
#[derive(Clone, Copy, Debug, PartialEq, Eq)]
pub enum Closed {
    /// A reference, which is counted no more.
    Counted { tag: Tag, size: u64 },
    /// The mark of memory that isn't counted.
    WasEmpty,
}

/// An allocation of `size` bytes under a tag: its call and its bytes are counted, and then the cell holds the reference.
pub fn open_ref(cpu: &mut CpuSeat, cell: &mut CellSeat, tag: Tag, size: u64)
    requires table { cell.old.board ≡ cpu.old.board }
    requires no_hand { cpu.old.part.hand ≡ None }
    requires none { cell.old.held ≡ held.None }
    requires size { (0 < size) × (size < SIZE_END) }
    requires allowed { IsTrue (may_begin cpu.old.board.shape tag cpu.old.part.runs) }
    ensures cell { cell.new ≡ holding (held.Counted tag size) cell.old }
    ensures cpu { cpu.new ≡ moved_by (open_moves cpu.old.part.number (held.Counted tag size)) cpu.old }
    ensures machine { MeetsMachine (λ place. Open place tag size) cpu.old cell.old cpu.new cell.new }
{
    add_call(cpu, tag);
    add_bytes(cpu, size);
    write_cell(cpu, cell, Held::Counted { tag, size });
}

/// An allocation that isn't counted: the cell holds the empty mark.
pub fn mark_empty(cpu: &mut CpuSeat, cell: &mut CellSeat)
    requires table { cell.old.board ≡ cpu.old.board }
    requires no_hand { cpu.old.part.hand ≡ None }
    requires none { cell.old.held ≡ held.None }
    ensures cell { cell.new ≡ holding held.Empty cell.old }
    ensures cpu { cpu.new ≡ cpu.old }
    ensures machine { MeetsMachine Mark cpu.old cell.old cpu.new cell.new }
{
    write_cell(cpu, cell, Held::Empty);
}

/// A free, by whichever CPU: the cell holds nothing, and then the bytes and the call of a reference are taken from this
/// CPU's words, in this order.
pub fn close_ref(cpu: &mut CpuSeat, cell: &mut CellSeat) -> Closed
    requires table { cell.old.board ≡ cpu.old.board }
    requires no_hand { cpu.old.part.hand ≡ None }
    requires some { cell.old.held ≢ held.None }
    ensures answer { result ≡ closed_as cell.old.held }
    ensures was_empty { (result ≡ Closed.WasEmpty) ↔ (cell.old.held ≡ held.Empty) }
    ensures cell { cell.new ≡ holding held.None cell.old }
    ensures cpu { cpu.new ≡ moved_by (close_moves cpu.old.part.number cell.old.held) cpu.old }
    ensures machine { MeetsMachine Close cpu.old cell.old cpu.new cell.new }
{
    cell.tell();
    let held = cell.held();
    write_cell(cpu, cell, Held::None);
    match held {
        Held::Counted { tag, size } => {
            sub_bytes(cpu, size);
            sub_call(cpu);
            Closed::Counted { tag, size }
        }
        _ => Closed::WasEmpty,
    }
}

/// Lowers a reference's size by `bytes`. The empty mark stays.
pub fn trim_ref(cpu: &mut CpuSeat, cell: &mut CellSeat, bytes: u64)
    requires table { cell.old.board ≡ cpu.old.board }
    requires no_hand { cpu.old.part.hand ≡ None }
    requires some { 0 < bytes }
    requires within { LeavesSome bytes cell.old.held }
    ensures cell { cell.new ≡ holding (trimmed bytes cell.old.held) cell.old }
    ensures cpu { cpu.new ≡ moved_by (trim_moves cpu.old.part.number bytes cell.old.held) cpu.old }
    ensures machine { MeetsMachine (λ place. Trim place bytes) cpu.old cell.old cpu.new cell.new }
{
    cell.tell();
    if let Held::Counted { tag, size } = cell.held() {
        write_cell(cpu, cell, Held::None);
        sub_bytes(cpu, bytes);
        let size = size - bytes;
        write_cell(cpu, cell, Held::Counted { tag, size });
    }
}
