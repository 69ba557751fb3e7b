//! Pages of places for keys.

ghost use Rattle.std.specs.Prelude.{◌≡◌, ◌==◌, ◌+◌, ◌≤◌, ◌<◌, ℕ, All, None, OnErr, OnOk, Some, if◌then◌else◌, length, map};
ghost use Rattle.round_keys.specs.Pages.{IsPage, pages_from, slot_at};

use round_worker::Kept;
use std::alloc::{AllocError, Global};

/// Takes out what is at the place.
pub(crate) fn take_at(slots: &mut Vec<Option<Kept>>, place: usize) -> Option<Kept>
    ensures value { result ≡ slot_at slots.old.items place }
    ensures taken { (other : ℕ) → slot_at slots.new.items other ≡ (if other == place then None else slot_at slots.old.items other) }
    ensures page { IsPage slots.old.items → IsPage slots.new.items }
{
    if place < slots.len() {
        slots[place].take()
    } else {
        None
    }
}

/// Puts something at the place.
pub(crate) fn put_at(
    slots: &mut Vec<Option<Kept>>,
    place: usize,
    kept: Kept,
) -> Result<(), AllocError>
    requires small { place < 256 }
    ensures put { OnOk result ((other : ℕ) → slot_at slots.new.items other ≡ (if other == place then Some kept else slot_at slots.old.items other)) }
    ensures err { OnErr result ((other : ℕ) → slot_at slots.new.items other ≡ slot_at slots.old.items other) }
    ensures page { IsPage slots.old.items → IsPage slots.new.items }
{
    grow_slots(slots, place)?;
    slots[place] = Some(kept);
    Ok(())
}

// Makes sure that the page has the place.
fn grow_slots(slots: &mut Vec<Option<Kept>>, place: usize) -> Result<(), AllocError>
    requires small { place < 256 }
    ensures there { OnOk result (place < length slots.new.items) }
    ensures same { (other : ℕ) → slot_at slots.new.items other ≡ slot_at slots.old.items other }
    ensures page { IsPage slots.old.items → IsPage slots.new.items }
{
    while slots.len() <= place {
        slots.push(None)?;
    }
    Ok(())
}

/// Makes sure that there is a page of the number.
pub(crate) fn grow_pages(
    alloc: Global,
    pages: &mut Vec<Vec<Option<Kept>>>,
    number: usize,
) -> Result<(), AllocError>
    requires small { number < 16777216 }
    ensures there { OnOk result (number < length pages.new.items) }
    ensures same { pages_from 0 (map (λ page. page.items) pages.new.items) ≡ pages_from 0 (map (λ page. page.items) pages.old.items) }
    ensures all { All (λ page. IsPage page.items) pages.old.items → All (λ page. IsPage page.items) pages.new.items }
    ensures few { length pages.old.items ≤ 16777216 → length pages.new.items ≤ 16777216 }
{
    while pages.len() <= number {
        pages.push(Vec::new(alloc))?;
    }
    Ok(())
}
