//! The words of the keys' cells.

ghost use Rattle.std.specs.Prelude.{◌≡◌, All, IfSome};
ghost use Rattle.tag_rule.specs.Shown.{Board};
ghost use Rattle.trace_play.specs.Left.{word_at};
ghost use Rattle.round_worker.specs.Cells.{IsOfChecked, first_some, kept_seat};
ghost use Rattle.round_worker.specs.Parting.{AreKept};
ghost use Rattle.round_keys.specs.Pages.{InSlots};
ghost use Rattle.round_keys.specs.Stored.{AreOfChecked, bound_word, key_cells};

use crate::KeyStore;
use round_worker::{Kept, word_of_seat};

impl KeyStore {
    /// The word of the cell with the index, if a key has it.
    pub fn word_at(&self, cell: usize) -> Option<u64>
        requires checked { AreOfChecked self.now }
        ensures { (board : Board) → AreKept board self.now → result ≡ word_at board.shape cell (key_cells self.now) }
    {
        word_in_pages(self.pages.as_slice(), cell)
    }
}

fn word_in_pages(pages: &[Vec<Option<Kept>>], cell: usize) -> Option<u64>
    requires checked { All (λ page. InSlots (λ kept. IsOfChecked (kept_seat kept)) page.items) pages.now }
    ensures { result ≡ first_some (λ page. first_some (bound_word cell) page.items) pages.now }
{
    match pages.split_first() {
        Some((page, rest)) => match word_in_slots(page.as_slice(), cell) {
            Some(word) => Some(word),
            None => word_in_pages(rest, cell),
        },
        None => None,
    }
}

fn word_in_slots(slots: &[Option<Kept>], cell: usize) -> Option<u64>
    requires checked { InSlots (λ kept. IsOfChecked (kept_seat kept)) slots.now }
    ensures { result ≡ first_some (bound_word cell) slots.now }
{
    match slots.split_first() {
        Some((slot, rest)) => match word_in_slot(slot, cell) {
            Some(word) => Some(word),
            None => word_in_slots(rest, cell),
        },
        None => None,
    }
}

fn word_in_slot(slot: &Option<Kept>, cell: usize) -> Option<u64>
    requires checked { IfSome slot.now (λ kept. IsOfChecked (kept_seat kept)) }
    ensures { result ≡ bound_word cell slot.now }
{
    match slot {
        Some(kept) => word_of_seat(kept.seat(), cell),
        None => None,
    }
}
