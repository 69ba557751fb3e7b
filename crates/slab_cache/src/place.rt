//! An object's place in a slab.

ghost use Rattle.std.specs.Borrow.{sem};
ghost use Rattle.std.specs.Prelude.{◌≡◌, option_map};
ghost use Rattle.slab_cache.specs.declared.place.PlaceCell.{PlaceCell};
ghost use Rattle.slab_cache.specs.Lending.{LendsPlaceCell};

use tag_rule::CellSeat;

/// A place in a slab of a CPU's node, with its cell where the slab has a vector.
#[derive(Drop)]
pub(crate) struct Place {
    pub home: u32,
    /// The first frame of the slab.
    pub frame: u32,
    pub place: u32,
    pub cell: Option<PlaceCell>,
}

/// The cell of a place, in the vector of that number.
#[derive(Drop)]
pub(crate) struct PlaceCell {
    pub vector: u32,
    pub seat: CellSeat,
}

impl Place {
    /// Its cell, to be changed. Another seat may be put in its place.
    pub fn cell_mut(&mut self) -> Option<&mut CellSeat>
        ensures* lends { sem 𝓛 (LendsPlaceCell self.entry result) }
        ensures value { option_map (λ cell. cell.now) result ≡ option_map (λ (c : PlaceCell). c.seat) self.old.cell }
    {
        match &mut self.cell {
            Some(cell) => Some(&mut cell.seat),
            None => None,
        }
    }
}
