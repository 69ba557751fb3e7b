//! Keys meet the module list, and tell how many of their references are counted.

ghost use Rattle.std.specs.Prelude.{◌≡◌, ◌*◌, ◌≤◌, ℕ, All, IfSome, count_by, length, map};
ghost use Rattle.trace_play.specs.Live.{held_of};
ghost use Rattle.tag_model.specs.Reference.{is_counted};
ghost use Rattle.round_worker.specs.Kept.{IsKept, content_of, live_of};
ghost use Rattle.round_keys.specs.Pages.{InSlots, IsPage};
ghost use Rattle.round_worker.specs.Parting.{AreKept};
ghost use Rattle.round_keys.specs.Stored.{IsCovered, counted_in, counts_on, counts_slot};
ghost use Rattle.round_worker.specs.declared.keys.Kept as keys;

use crate::KeyStore;
use reclaim::Locked;
use round_worker::Kept;

impl KeyStore {
    /// Each counted cell meets the list: its tag is the kernel's, or an entry has it in its range.
    pub fn meet(&mut self, locked: &mut Locked)
        requires kept { AreKept locked.old.board self.old }
        ensures same { (self.new ≡ self.old) × (locked.new ≡ locked.old) }
        ensures covered { All (λ (entry : ℕ × keys.Kept). IsCovered locked.old entry.1) self.old }
    {
        meet_pages(self.pages.as_mut_slice(), locked);
    }

    /// How many of the references are counted.
    pub fn counted(&self) -> u64
        ensures { result ≡ counted_in (live_of self.now) }
    {
        counted_in_pages(self.pages.as_slice())
    }
}

fn meet_pages(pages: &mut [Vec<Option<Kept>>], locked: &mut Locked)
    requires kept { All (λ page. InSlots (IsKept locked.old.board) page.items) pages.old }
    ensures same { (map (λ page. page.items) pages.new ≡ map (λ page. page.items) pages.old) × (locked.new ≡ locked.old) }
    ensures covered { All (λ page. InSlots (IsCovered locked.old) page.items) pages.old }
{
    for number in 0..pages.len() {
        meet_page(&mut pages[number], locked);
    }
}

fn meet_page(page: &mut Vec<Option<Kept>>, locked: &mut Locked)
    requires kept { InSlots (IsKept locked.old.board) page.old.items }
    ensures same { (page.new.items ≡ page.old.items) × (locked.new ≡ locked.old) }
    ensures covered { InSlots (IsCovered locked.old) page.old.items }
{
    meet_slots(page.as_mut_slice(), locked);
}

fn meet_slots(slots: &mut [Option<Kept>], locked: &mut Locked)
    requires kept { InSlots (IsKept locked.old.board) slots.old }
    ensures same { (slots.new ≡ slots.old) × (locked.new ≡ locked.old) }
    ensures covered { InSlots (IsCovered locked.old) slots.old }
{
    if let Some((slot, rest)) = slots.split_first_mut() {
        meet_slot(slot, locked);
        meet_slots(rest, locked);
    }
}

fn meet_slot(slot: &mut Option<Kept>, locked: &mut Locked)
    requires { IfSome slot.old (IsKept locked.old.board) }
    ensures same { (slot.new ≡ slot.old) × (locked.new ≡ locked.old) }
    ensures covered { IfSome slot.old (IsCovered locked.old) }
{
    if let Some(kept) = slot {
        meet_kept(kept, locked);
    }
}

fn meet_kept(kept: &mut Kept, locked: &mut Locked)
    requires { IsKept locked.old.board kept.old }
    ensures same { (kept.new ≡ kept.old) × (locked.new ≡ locked.old) }
    ensures covered { IsCovered locked.old kept.old }
{
    match kept {
        Kept::Block(block) => locked.meet(block.cell_mut()),
        Kept::Object(obj) => {
            if let Some(cell) = obj.cell_mut() {
                locked.meet(cell);
            }
        }
        Kept::Nothing { .. } => {}
    }
}

fn counted_in_pages(pages: &[Vec<Option<Kept>>]) -> u64
    requires few { length pages.now ≤ 16777216 }
    requires all { All (λ page. IsPage page.items) pages.now }
    ensures counted { result ≡ counts_on (map (λ page. page.items) pages.now) }
    ensures few { result ≤ 256 * length pages.now }
{
    match pages.split_first() {
        Some((page, rest)) => counted_in_slots(page.as_slice()) + counted_in_pages(rest),
        None => 0,
    }
}

fn counted_in_slots(slots: &[Option<Kept>]) -> u64
    requires few { length slots.now ≤ 256 }
    ensures counted { result ≡ count_by counts_slot slots.now }
    ensures few { result ≤ length slots.now }
{
    match slots.split_first() {
        Some((slot, rest)) => u64::from(is_counted_slot(slot)) + counted_in_slots(rest),
        None => 0,
    }
}

fn is_counted_slot(slot: &Option<Kept>) -> bool
    ensures { result ≡ counts_slot slot.now }
{
    match slot {
        Some(kept) => is_counted(kept),
        None => false,
    }
}

// Whether its reference is counted.
fn is_counted(kept: &Kept) -> bool
    ensures { result ≡ is_counted (held_of (content_of kept.now)) }
{
    match kept {
        Kept::Nothing { .. } => false,
        Kept::Block(block) => block.cell().held().is_counted(),
        Kept::Object(obj) => match obj.cell() {
            Some(cell) => cell.held().is_counted(),
            None => false,
        },
    }
}
