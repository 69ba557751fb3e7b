//! A reference that is shared out and freed, for the tests.

ghost use Rattle.std.specs.Prelude.{None, ◌+◌, ◌<◌, ◌≡◌};
ghost use Rattle.tag_model.specs.declared.state.Held.TheVariants as held;

use tag_model::{Held, SIZE_END, Tag};
use tag_ref::close_ref;
use tag_rule::{CellSeat, CpuSeat, add_call, write_cell};

/// Shares the first cell's reference out to both cells, if the second holds none and the size is even.
pub fn share(cpu: &mut CpuSeat, first: &mut CellSeat, second: &mut CellSeat)
    requires table { (first.old.board ≡ cpu.old.board) × (second.old.board ≡ cpu.old.board) }
    requires rests { cpu.old.part.hand ≡ None }
    ensures cells { (first.new.board ≡ first.old.board) × (second.new.board ≡ second.old.board) }
    ensures cpu { (cpu.new.board ≡ cpu.old.board) × (cpu.new.part.hand ≡ None) }
{
    first.tell();
    match (first.held(), second.held()) {
        (Held::Counted { tag, size }, Held::None) if size % 2 == 0 => {
            halve(cpu, first, second, tag, size / 2);
        }
        _ => {}
    }
}

// The four steps of a split: the reference is taken in hand, a call is added, and each cell gets its half.
fn halve(cpu: &mut CpuSeat, first: &mut CellSeat, second: &mut CellSeat, tag: Tag, half: u64)
    requires table { (first.old.board ≡ cpu.old.board) × (second.old.board ≡ cpu.old.board) }
    requires rests { cpu.old.part.hand ≡ None }
    requires none { second.old.held ≡ held.None }
    requires whole { first.old.held ≡ held.Counted tag (half + half) }
    requires some { (0 < half) × (half + half < SIZE_END) }
    ensures cells { (first.new.board ≡ first.old.board) × (second.new.board ≡ second.old.board) }
    ensures cpu { (cpu.new.board ≡ cpu.old.board) × (cpu.new.part.hand ≡ None) }
{
    write_cell(cpu, first, Held::None);
    add_call(cpu, tag);
    write_cell(cpu, first, Held::Counted { tag, size: half });
    write_cell(cpu, second, Held::Counted { tag, size: half });
}

/// Frees what the cell holds, if it holds something.
pub fn clear(cpu: &mut CpuSeat, cell: &mut CellSeat)
    requires table { cell.old.board ≡ cpu.old.board }
    requires rests { cpu.old.part.hand ≡ None }
    ensures cell { cell.new.board ≡ cell.old.board }
    ensures cpu { (cpu.new.board ≡ cpu.old.board) × (cpu.new.part.hand ≡ None) }
{
    match cell.held() {
        Held::None => {}
        _ => {
            close_ref(cpu, cell);
        }
    }
}
