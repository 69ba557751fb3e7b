//! Objects, and storage on its way home.

ghost use Rattle.std.specs.Borrow.{sem};
ghost use Rattle.std.specs.Prelude.{◌≡◌, IfErr, IfOk, is_ok, option_map};
ghost use Rattle.tag_model.specs.Reference.{is_counted as counts};
ghost use Rattle.slab_cache.specs.Lending.{LendsCell, LendsStoredCell};
ghost use Rattle.slab_cache.specs.Shown.{cell_of, is_block, storage_of};
ghost use Rattle.slab_cache.specs.Storage.{held_of, home_of};

use crate::place::Place;
use page_ext::{Block, Returned};
use std::marker::Model;
use tag_rule::CellSeat;

/// An object: a place in a slab, or a block where it is too large for a slab. An object that is dropped is a leaked
/// allocation: its place stays taken and its reference stays live.
#[derive(Drop)]
pub struct Obj {
    pub(crate) stored: Stored,
}

/// Where an object is.
#[derive(Drop)]
pub(crate) enum Stored {
    Pages(Block),
    InSlab(Place),
}

/// Storage that was freed on another CPU than its home, on its way there. It holds no reference. Where it is dropped, its
/// place or its frames stay taken.
#[derive(Drop)]
pub struct Back {
    pub(crate) returning: Returning,
}

/// Where such storage is.
#[derive(Drop)]
pub(crate) enum Returning {
    Pages(Returned),
    InSlab(Place),
}

impl Model for Back {
    ghost use Rattle.slab_cache.specs.declared.object.Stored.{Stored};

    ghost Value = { Stored };

    ghost use Rattle.std.specs.Prelude.{◌≡◌};
    ghost use Rattle.slab_cache.specs.Returned.{returned_as};
    ghost use Rattle.slab_cache.specs.Shown.{Suits, freed};

    ghost view = { λ back. returned_as back.returning };

    ghost invariant = { λ back. Suits (returned_as back.returning) × (freed (returned_as back.returning) ≡ returned_as back.returning) };
}

impl Stored {
    fn cell_mut(&mut self) -> Option<&mut CellSeat>
        ensures* lends { sem 𝓛 (LendsStoredCell self.entry result) }
        ensures value { option_map (λ cell. cell.now) result ≡ cell_of self.old }
    {
        match self {
            Stored::Pages(block) => Some(block.cell_mut()),
            Stored::InSlab(place) => place.cell_mut(),
        }
    }
}

impl Obj {
    /// The CPU whose node the object is of.
    pub fn home(&self) -> u32
        ensures { result ≡ home_of (storage_of self.now.stored) }
    {
        match &self.stored {
            Stored::Pages(block) => block.home(),
            Stored::InSlab(place) => place.home,
        }
    }

    /// Its cell. It has none where its slab had no vector.
    pub fn cell(&self) -> Option<&CellSeat>
        ensures { option_map (λ cell. cell.now) result ≡ cell_of self.now.stored }
    {
        match &self.stored {
            Stored::Pages(block) => Some(block.cell()),
            Stored::InSlab(place) => match &place.cell {
                Some(cell) => Some(&cell.seat),
                None => None,
            },
        }
    }

    /// The same, to be changed. Another seat may be put in its place.
    pub fn cell_mut(&mut self) -> Option<&mut CellSeat>
        ensures* lends { sem 𝓛 (LendsCell self.entry result) }
        ensures value { option_map (λ cell. cell.now) result ≡ cell_of self.old.stored }
    {
        self.stored.cell_mut()
    }

    /// A large object as the block that it is. One in a slab is handed back.
    pub fn into_block(self) -> Result<Block, Obj>
        ensures block { IfOk result (λ block. self.stored ≡ Stored.Pages block) }
        ensures same { IfErr result (λ obj. obj ≡ self) }
        ensures large { is_ok result ≡ is_block self.stored }
    {
        match self.stored {
            Stored::Pages(block) => Ok(block),
            Stored::InSlab(place) => Err(Obj {
                stored: Stored::InSlab(place),
            }),
        }
    }
}

impl Back {
    /// The CPU whose node the storage is of.
    pub fn home(&self) -> u32
        ensures { result ≡ home_of (storage_of self.now) }
    {
        match &self.returning {
            Returning::Pages(returned) => returned.home(),
            Returning::InSlab(place) => place.home,
        }
    }
}

/// Whether the object is counted under a tag.
pub fn is_counted(obj: &Obj) -> bool
    ensures { result ≡ counts (held_of (storage_of obj.now.stored)) }
{
    match obj.cell() {
        Some(cell) => cell.held().is_counted(),
        None => false,
    }
}
