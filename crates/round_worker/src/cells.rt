//! The words of cells: of what keys are bound to, and of slabs.

ghost use Rattle.std.specs.Option.{option_and_then, option_map};
ghost use Rattle.std.specs.Prelude.{◌≡◌, All, Option, length};
ghost use Rattle.tag_model.specs.Shape.{IsChecked};
ghost use Rattle.trace_play.specs.Left.{word_at};
ghost use Rattle.trace_play.specs.Machine.{slab_cells};
ghost use Rattle.slab_cache.specs.Shown.{SlabShown};
ghost use Rattle.round_worker.specs.Cells.{IsOfChecked, first_some, kept_seat, seat_word, slab_seat, slab_word};

use crate::keys::Kept;
use crate::worker::Worker;
use page_ext::Block;
use slab_cache::SlabNode;
use tag_rule::{CellSeat, word_of};

impl Kept {
    /// The seat of what the key is bound to, if that has a cell.
    pub fn seat(&self) -> Option<&CellSeat>
        ensures { option_map (λ seat. seat.now) result ≡ kept_seat self.now }
    {
        match self {
            Kept::Nothing { .. } => None,
            Kept::Block(block) => Some(block.cell()),
            Kept::Object(obj) => obj.cell(),
        }
    }
}

impl Worker {
    /// The word of the cell with the index, if it is that of a slab.
    pub fn word_at(&self, cell: usize) -> Option<u64>
        requires { IsChecked self.now.board.shape }
        ensures { result ≡ word_at self.now.board.shape cell (slab_cells self.now.seat.node) }
    {
        self.node.tell();
        word_among(&self.node, self.frames, cell)
    }
}

// The same of a node with so many frames.
fn word_among(node: &SlabNode, frames: u32, cell: usize) -> Option<u64>
    requires frames { length node.now.slabs ≡ frames }
    requires checked { All (λ (slab : Option SlabShown). IsOfChecked (slab_seat slab)) node.now.slabs }
    ensures { result ≡ first_some (slab_word cell) node.now.slabs }
{
    for frame in 0..frames {
        let word = word_of_seat(seat_of(node.slab(frame)), cell);
        if word.is_some() {
            return word;
        }
    }
    None
}

fn seat_of(block: Option<&Block>) -> Option<&CellSeat>
    ensures { option_map (λ seat. seat.now) result ≡ option_map (λ block. block.now.cell) block.entry }
{
    match block {
        Some(block) => Some(block.cell()),
        None => None,
    }
}

/// The word of the cell with the index, if it is the first of the seat.
pub fn word_of_seat(seat: Option<&CellSeat>, cell: usize) -> Option<u64>
    requires { IsOfChecked (option_map (λ seat. seat.now) seat) }
    ensures { result ≡ option_and_then (seat_word cell) (option_map (λ seat. seat.now) seat.entry) }
{
    match seat {
        Some(seat) if seat.first() == cell => {
            seat.tell();
            Some(word_of(seat.held()))
        }
        _ => None,
    }
}
