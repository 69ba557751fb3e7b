//! The rights to cells.

ghost use Rattle.std.specs.Prelude.{◌≡◌};
ghost use Rattle.tag_rule.specs.Seated.{IsCellShown};

use crate::words::{Seat, Words};
use std::alloc::Global;
use std::marker::Model;
use std::sync::Arc;
use tag_model::{Held, Shape};

/// The right to a run of cells. The first holds a `Held`, and the others nothing.
#[derive(Drop)]
pub struct CellSeat {
    pub(crate) seat: Seat,
    pub(crate) shape: Shape,
    pub(crate) first: usize,
    pub(crate) count: u32,
    pub(crate) held: Held,
}

impl Model for CellSeat {
    ghost use Rattle.tag_rule.specs.Shown.{CellShown};

    ghost Value = { CellShown };

    ghost use Rattle.tag_rule.specs.Tokens.{cell_shown, IsCellSeat};

    ghost view = { cell_shown };

    ghost invariant = { IsCellSeat };
}

/// The right to a set of cells, none of which holds anything.
#[derive(Drop)]
pub struct CellPool {
    pub(crate) words: Arc<Words, Global>,
    pub(crate) seat: Seat,
}

impl Model for CellPool {
    ghost use Rattle.tag_rule.specs.Shown.{PoolShown};

    ghost Value = { PoolShown };

    ghost use Rattle.tag_rule.specs.Tokens.{pool_shown, IsCellPool};

    ghost view = { pool_shown };

    ghost invariant = { IsCellPool };
}

impl CellSeat {
    /// What the first cell holds.
    pub fn held(&self) -> Held
        ensures { result ≡ self.now.held }
    {
        self.held
    }

    /// The first cell's index in the table.
    pub fn first(&self) -> usize
        ensures { result ≡ self.now.first }
    {
        self.first
    }

    /// How many cells.
    pub fn count(&self) -> u32
        ensures { result ≡ self.now.count }
    {
        self.count
    }

    /// What holds of each seat, for whoever sees its value alone.
    pub fn tell(&self)
        ensures { IsCellShown self.now }
    {
        let _held = &self.held;
    }
}

impl CellPool {
    /// The shape that the table was made of.
    pub fn shape(&self) -> Shape
        ensures { result ≡ self.now.board.shape }
    {
        self.words.shape
    }
}
