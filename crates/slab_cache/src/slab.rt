ghost use Rattle.std.specs.List.{list_any};
ghost use Rattle.std.specs.Option.{ForSome};
ghost use Rattle.std.specs.Prelude.{ℕ, ◌≡◌, ◌-◌, ◌^◌, ◌<◌, IfSome, IsTrue, Some, false, map, not, option_map, slice_get, true};
ghost use Rattle.tag_model.specs.Shape.{IsChecked};
ghost use Rattle.tag_model.specs.declared.state.Held.TheVariants as held;
ghost use Rattle.page_ext.specs.Shown.{Fits};
ghost use Rattle.slab_ext.specs.Vectors.{IsWhole, VectorShown};
ghost use Rattle.slab_cache.specs.Shown.{slab_block};
ghost use Rattle.slab_cache.specs.Classes.{objects_in};
ghost use Rattle.slab_cache.specs.Slabs.{free_place, is_open, is_used, new_slab, with_place};
ghost use Rattle.slab_cache.specs.Bits.{class_at};
ghost use Rattle.slab_cache.specs.Tables.{FitsCell, FitsOne, GivesCell, GivesOne, HasCell, TakesCell, TakesOne, place_in, with_slab_state};

use crate::class::Class;
use crate::place::{Place, PlaceCell};
use page_ext::Block;
use slab_ext::Vector;
use std::marker::Model;
use tag_model::obj_cell;
use tag_rule::{part, unite};

/// A slab: a block that is cut into places of a class, and a vector of cells for them, if there was one.
#[derive(Drop)]
pub(crate) struct Slab {
    pub(crate) class: Class,
    /// A bit for each place, set where it is free.
    pub(crate) free: u64,
    block: Block,
    pub(crate) vector: Option<Vector>,
}

impl Model for Slab {
    ghost use Rattle.slab_cache.specs.Shown.{SlabShown};
    ghost use Rattle.slab_cache.specs.Tables.{IsSlab, shown_slab};

    ghost Value = { SlabShown };

    ghost view = { λ slab. shown_slab slab.class.index slab.free slab.block slab.vector };

    ghost invariant = { λ slab. IsSlab slab.class.index slab.free slab.block slab.vector };
}

impl Slab {
    /// A slab with no object in it.
    pub fn new(class: Class, block: Block, vector: Option<Vector>) -> Slab
        requires block { block ≡ slab_block (record { board = block.cell.board; home = block.home; frame = block.frame; slab = new_slab (class_at class.index) (option_map (λ (v : VectorShown). v.number) vector) }) }
        requires fits { Fits block }
        requires table { IfSome vector (λ v. v.pool.board ≡ block.cell.board) }
        requires whole { IfSome vector (λ v. IsWhole block.home v.number v.pool) }
        ensures { result ≡ record { board = block.cell.board; home = block.home; frame = block.frame; slab = new_slab (class_at class.index) (option_map (λ (v : VectorShown). v.number) vector) } }
    {
        Slab {
            class,
            free: all_free(class),
            block,
            vector,
        }
    }

    /// Its block.
    pub fn block(&self) -> &Block
        ensures { result.now ≡ slab_block self.now }
    {
        &self.block
    }

    /// Its class.
    pub fn class(&self) -> Class
        ensures { class_at result.index ≡ self.now.slab.class }
    {
        self.class
    }

    /// Whether it is of the class and has a free place.
    pub fn is_open(&self, class: Class) -> bool
        ensures { result ≡ is_open (class_at class.index) (Some self.now.slab) }
    {
        self.class.index == class.index && self.free != 0
    }

    /// Whether an object is in it.
    pub fn is_used(&self) -> bool
        ensures { result ≡ is_used self.now.slab }
    {
        self.free != all_free(self.class)
    }

    /// Takes the lowest free place.
    pub fn take_place(&mut self) -> Place
        requires checked { IsChecked self.old.board.shape }
        requires open { IsTrue (list_any not self.old.slab.places) }
        ensures place { result ≡ place_in self.old (free_place self.old.slab) }
        ensures slab { self.new ≡ with_slab_state (with_place true (free_place self.old.slab) self.old.slab) self.old }
    {
        let place = self.free.trailing_zeros();
        self.free &= !(1 << place);
        Place {
            home: self.block.home(),
            frame: self.block.frame(),
            place,
            cell: take_cell(&mut self.vector, self.block.home(), place),
        }
    }

    /// Takes a place back, with its cell.
    pub fn give_place(&mut self, place: Place)
        requires own { place ≡ place_in self.old place.place }
        requires taken { slice_get self.old.slab.places place.place ≡ Some true }
        ensures { self.new ≡ with_slab_state (with_place false place.place self.old.slab) self.old }
    {
        give_cell(&mut self.vector, place.cell);
        self.free |= 1 << place.place;
    }

    /// Its block and its vector, once no object is in it.
    pub fn into_parts(self) -> (Block, Option<Vector>)
        requires { is_used self.slab ≡ false }
        ensures block { result.0 ≡ slab_block self }
        ensures fits { Fits result.0 }
        ensures vector { option_map (λ (v : VectorShown). v.number) result.1 ≡ self.slab.vector }
        ensures table { IfSome result.1 (λ v. v.pool.board ≡ self.board) }
        ensures whole { IfSome result.1 (λ v. IsWhole self.home v.number v.pool) }
    {
        let Slab {
            class: _,
            free: _,
            block,
            vector,
        } = self;
        (block, vector)
    }
}

// A bit for each place of a slab of the class.
fn all_free(class: Class) -> u64
    ensures { result ≡ 2 ^ objects_in (class_at class.index) - 1 }
{
    match class.objects() {
        64 => u64::MAX,
        objects => (1 << objects) - 1,
    }
}

// The cell of a place, out of the vector's pool, if there is a vector.
fn take_cell(vector: &mut Option<Vector>, home: u32, place: u32) -> Option<PlaceCell>
    requires place { place < 64 }
    requires there { ForSome vector.old (HasCell home place) }
    ensures { TakesOne home place vector.old vector.new result }
{
    match vector {
        Some(vector) => Some(take_of(vector, home, place)),
        None => None,
    }
}

fn take_of(vector: &mut Vector, home: u32, place: u32) -> PlaceCell
    requires place { place < 64 }
    requires there { HasCell home place vector.old }
    ensures { TakesCell home place vector.old vector.new result }
{
    let number = vector.number();
    let pool = vector.pool_mut();
    let first = obj_cell(pool.shape(), home, number, place);
    let seat = part(pool, first, 1);
    PlaceCell {
        vector: number,
        seat,
    }
}

// The cell goes back.
fn give_cell(vector: &mut Option<Vector>, cell: Option<PlaceCell>)
    requires { FitsOne vector.old cell }
    ensures { GivesOne vector.old cell vector.new }
{
    if let Some(cell) = cell {
        if let Some(vector) = vector {
            give_of(vector, cell);
        }
    }
}

fn give_of(vector: &mut Vector, cell: PlaceCell)
    requires { FitsCell vector.old cell }
    ensures { GivesCell vector.old cell vector.new }
{
    unite(vector.pool_mut(), cell.seat);
}
