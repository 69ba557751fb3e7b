//! Objects are freed, and storage comes home.

ghost use Rattle.std.specs.Prelude.{◌≡◌, ◌≢◌, ◌<◌, [], None, Some, false, length};
ghost use Rattle.tag_model.specs.RefMoves.{close_moves};
ghost use Rattle.tag_ref.specs.Refs.{moved_by};
ghost use Rattle.slab_cache.specs.Calls.{ComesHome, IsAtHome, IsOf, ReturnsPlace};
ghost use Rattle.slab_cache.specs.Classes.{slab_order};
ghost use Rattle.slab_cache.specs.Shown.{IsLive, IsNow, IsOfTable, Stands, Suits, cell_of, freed, state_of, storage_of, with_reference};
ghost use Rattle.slab_cache.specs.Slabs.{is_used, slab_held, with_pages, with_vector};
ghost use Rattle.slab_cache.specs.Storage.{held_of, home_of};
ghost use Rattle.slab_cache.specs.Tables.{IsSlabAt, with_back};
ghost use Rattle.slab_ext.specs.Vectors.{IsWhole};
ghost use Rattle.std.specs.Option.{ForSome};
ghost use Rattle.tag_model.specs.declared.state.Held.TheVariants as held;

use crate::node::SlabNode;
use crate::object::{Back, Obj, Returning, Stored};
use crate::place::Place;
use crate::slab::Slab;
use page_ext::{free_pages, take_back};
use slab_ext::{Vector, VectorPool};
use tag_ref::close_ref;
use tag_rule::CpuSeat;

/// Frees an object. Its reference is closed on this CPU. Where its home is this CPU its place or its frames are free at
/// once, and else it is handed back, to go home.
pub fn kfree(cpu: &mut CpuSeat, node: &mut SlabNode, obj: Obj) -> Option<Back>
    requires at_home { IsAtHome cpu.old node.old }
    requires table { IsOfTable cpu.old.board (cell_of obj.stored) }
    requires suits { Suits obj.stored }
    requires live { IsLive (cell_of obj.stored) }
    requires of_node { home_of (storage_of obj.stored) ≡ cpu.old.part.number → IsOf (state_of node.old) (storage_of obj.stored) }
    ensures home { home_of (storage_of obj.stored) ≡ cpu.old.part.number → (result ≡ None) × ComesHome (storage_of obj.stored) (close_moves cpu.old.part.number (held_of (storage_of obj.stored))) node.old node.new cpu.old cpu.new }
    ensures away { home_of (storage_of obj.stored) ≢ cpu.old.part.number → (result ≡ Some (freed obj.stored)) × (node.new ≡ node.old) × (cpu.new ≡ moved_by (close_moves cpu.old.part.number (held_of (storage_of obj.stored))) cpu.old) }
{
    match obj.stored {
        Stored::Pages(block) => match free_pages(cpu, &mut node.node, block) {
            Some(returned) => Some(Back {
                returning: Returning::Pages(returned),
            }),
            None => None,
        },
        Stored::InSlab(place) => free_place(cpu, node, place),
    }
}

/// Takes storage home that was freed on another CPU. A slab that no object is left in is given up: its vector goes in, and
/// its block is freed on this CPU.
pub fn take_home(cpu: &mut CpuSeat, node: &mut SlabNode, back: Back)
    requires at_home { IsAtHome cpu.old node.old }
    requires table { IsOfTable cpu.old.board (cell_of back) }
    requires home { home_of (storage_of back) ≡ cpu.old.part.number }
    requires of_node { IsOf (state_of node.old) (storage_of back) }
    ensures { ComesHome (storage_of back) [] node.old node.new cpu.old cpu.new }
{
    match back.returning {
        Returning::Pages(returned) => take_back(&mut node.node, returned),
        Returning::InSlab(place) => place_home(cpu, node, place),
    }
}

// An object in a slab.
fn free_place(cpu: &mut CpuSeat, node: &mut SlabNode, place: Place) -> Option<Back>
    requires at_home { IsAtHome cpu.old node.old }
    requires table { IsOfTable cpu.old.board (cell_of (Stored.InSlab place)) }
    requires suits { Suits (Stored.InSlab place) }
    requires live { IsLive (cell_of (Stored.InSlab place)) }
    requires of_node { place.home ≡ cpu.old.part.number → IsOf (state_of node.old) (storage_of (Stored.InSlab place)) }
    ensures home { place.home ≡ cpu.old.part.number → (result ≡ None) × ComesHome (storage_of (Stored.InSlab place)) (close_moves cpu.old.part.number (held_of (storage_of (Stored.InSlab place)))) node.old node.new cpu.old cpu.new }
    ensures away { place.home ≢ cpu.old.part.number → (result ≡ Some (freed (Stored.InSlab place))) × (node.new ≡ node.old) × (cpu.new ≡ moved_by (close_moves cpu.old.part.number (held_of (storage_of (Stored.InSlab place)))) cpu.old) }
{
    let mut place = place;
    close_place(cpu, &mut place);
    if place.home == cpu.cpu() {
        place_home(cpu, node, place);
        None
    } else {
        Some(Back {
            returning: Returning::InSlab(place),
        })
    }
}

// Closes the reference of a place, if it has a cell.
fn close_place(cpu: &mut CpuSeat, place: &mut Place)
    requires table { IsOfTable cpu.old.board (cell_of (Stored.InSlab place.old)) }
    requires hand { cpu.old.part.hand ≡ None }
    requires live { IsLive (cell_of (Stored.InSlab place.old)) }
    ensures place { place.new ≡ with_reference held.None place.old }
    ensures cpu { cpu.new ≡ moved_by (close_moves cpu.old.part.number (held_of (storage_of (Stored.InSlab place.old)))) cpu.old }
{
    if let Some(seat) = place.cell_mut() {
        close_ref(cpu, seat);
    }
}

// A place whose reference is closed is free again. A slab that no object is left in is given up.
fn place_home(cpu: &mut CpuSeat, node: &mut SlabNode, place: Place)
    requires at_home { IsAtHome cpu.old node.old }
    requires table { IsOfTable cpu.old.board (cell_of (Stored.InSlab place)) }
    requires closed { with_reference held.None place ≡ place }
    requires suits { Suits (Stored.InSlab place) }
    requires home { place.home ≡ cpu.old.part.number }
    requires of_node { IsOf (state_of node.old) (storage_of (Stored.InSlab place)) }
    ensures { ComesHome (storage_of (Stored.InSlab place)) [] node.old node.new cpu.old cpu.new }
{
    if let Some(slab) = return_place(node, place) {
        give_up(cpu, node, slab);
    }
}

// Takes a place back into its slab. A slab that no object is left in is taken out of the node.
fn return_place(node: &mut SlabNode, place: Place) -> Option<Slab>
    requires stands { Stands node.old }
    requires table { IsOfTable node.old.node.board (cell_of (Stored.InSlab place)) }
    requires closed { with_reference held.None place ≡ place }
    requires suits { Suits (Stored.InSlab place) }
    requires home { place.home ≡ node.old.vectors.cpu }
    requires of_node { IsOf (state_of node.old) (storage_of (Stored.InSlab place)) }
    ensures { ReturnsPlace place node.old node.new result }
{
    node.table.give_place(place)
}

// Gives a slab up that was taken out of its table.
fn give_up(cpu: &mut CpuSeat, node: &mut SlabNode, slab: Slab)
    requires at_home { IsAtHome cpu.old node.old }
    requires table { slab.board ≡ cpu.old.board }
    requires unused { is_used slab.slab ≡ false }
    requires slab { IsSlabAt node.old.vectors.cpu (length node.old.slabs) (length node.old.vectors.pools) slab.frame slab }
    ensures node { IsNow (with_vector false slab.slab.vector (with_pages false slab.frame (slab_order slab.slab.class) (state_of node.old))) node.old node.new }
    ensures cpu { cpu.new ≡ moved_by (close_moves cpu.old.part.number (slab_held slab.slab.class)) cpu.old }
{
    let (block, vector) = slab.into_parts();
    give_back(&mut node.vectors, vector);
    let _none = free_pages(cpu, &mut node.node, block);
}

// The vector of a slab that is given up goes in, if it had one.
fn give_back(vectors: &mut VectorPool, vector: Option<Vector>)
    requires number { ForSome vector (λ v. v.number < length vectors.old.pools) }
    requires whole { ForSome vector (λ v. IsWhole vectors.old.cpu v.number v.pool) }
    ensures { vectors.new ≡ record vectors.old { pools = with_back vector vectors.old.pools } }
{
    if let Some(vector) = vector {
        vectors.give_vector(vector);
    }
}
