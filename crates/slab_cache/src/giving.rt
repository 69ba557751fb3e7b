//! Objects are given: from the lowest open slab of their class, from a new one, or as a block.

ghost use Rattle.std.specs.Prelude.{◌≡◌, ◌<◌, ◌≤◌, ◌↔◌, Err, IfOk, IsErr, None, OnErr, Some, option_map};
ghost use Rattle.buddy.specs.Frames.{least_start};
ghost use Rattle.current_tag.specs.Hooks.{most_hooks};
ghost use Rattle.page_ext.specs.Paging.{GivesBlock, MayCount};
ghost use Rattle.slab_cache.specs.Bits.{class_at};
ghost use Rattle.slab_cache.specs.Calls.{Gives, IsAtHome, IsOpenIn, IsSlabBlock, MakesSlab, TakesPlaceOf, most_bytes, with_made_slab};
ghost use Rattle.slab_cache.specs.Classes as classes;
ghost use Rattle.slab_cache.specs.Classes.{slab_order};
ghost use Rattle.slab_cache.specs.Giving.{given_block, given_object, object_from, object_from_new, slab_or_new, start_in};
ghost use Rattle.slab_cache.specs.Shown.{IsNow, IsOfTable, Stands, cell_of, state_of, storage_of, with_reference};
ghost use Rattle.slab_cache.specs.Slabs.{open_frame, slab_at, slab_tag};
ghost use Rattle.slab_cache.specs.Storage.{held_of};
ghost use Rattle.tag_model.specs.RefMoves.{open_moves, reference_to};
ghost use Rattle.tag_model.specs.Shape.{IsChecked};
ghost use Rattle.tag_model.specs.declared.state.Held.TheVariants as held;
ghost use Rattle.tag_ref.specs.Refs.{moved_by};

use crate::class::{Class, order_of};
use crate::node::SlabNode;
use crate::object::{Obj, Stored};
use crate::place::Place;
use crate::slab::Slab;
use current_tag::Task;
use page_ext::{Block, NoFrames, Node, alloc_pages, count_under};
use tag_model::Tag;
use tag_rule::CpuSeat;
use thiserror::Error;

/// The most bytes of an object: those of a block of order 10.
const MOST_BYTES: u64 = 4_194_304;

/// The tag of the slab allocator itself.
const SLAB_TAG: Tag = Tag {
    number: 0,
    module: 0,
};

/// Why no object is given.
#[derive(Clone, Copy, Debug, Drop, Error, PartialEq, Eq)]
pub enum ObjError {
    #[error("the size is 0")]
    ZeroSize,
    #[error("the size is above that of the largest block")]
    TooBig,
    #[error("the node has no free run of frames")]
    NoFrames,
}

/// Gives an object of the size, counted under the task's current tag, or marked as memory that isn't counted where there
/// is none.
pub fn kmalloc(
    cpu: &mut CpuSeat,
    node: &mut SlabNode,
    task: &mut Task,
    size: u64,
) -> Result<Obj, ObjError>
    requires at_home { IsAtHome cpu.old node.old }
    requires room { task.old.depth < most_hooks }
    requires allowed { MayCount task.old.current cpu.old }
    ensures task { task.new ≡ task.old }
    ensures zero { (result ≡ Err ObjError.ZeroSize) ↔ (size ≡ 0) }
    ensures too_big { (result ≡ Err ObjError.TooBig) ↔ (most_bytes < size) }
    ensures no_frames { (result ≡ Err ObjError.NoFrames) ↔ ((0 < size) × (size ≤ most_bytes) × (given_object task.old.current size (state_of node.old) ≡ None)) }
    ensures gives { IfOk result (Gives (given_object task.old.current size (state_of node.old)) node.old node.new cpu.old cpu.new) }
    ensures same { OnErr result ((node.new ≡ node.old) × (cpu.new ≡ cpu.old)) }
{
    if size == 0 {
        return Err(ObjError::ZeroSize);
    }
    if size > MOST_BYTES {
        return Err(ObjError::TooBig);
    }
    match object_or_block(cpu, node, task, size) {
        Ok(obj) => Ok(obj),
        Err(NoFrames) => Err(ObjError::NoFrames),
    }
}

// An object of the least class of at least the size, or a block where there is none.
fn object_or_block(
    cpu: &mut CpuSeat,
    node: &mut SlabNode,
    task: &mut Task,
    size: u64,
) -> Result<Obj, NoFrames>
    requires at_home { IsAtHome cpu.old node.old }
    requires room { task.old.depth < most_hooks }
    requires allowed { MayCount task.old.current cpu.old }
    ensures task { task.new ≡ task.old }
    ensures gives { IfOk result (Gives (given_object task.old.current size (state_of node.old)) node.old node.new cpu.old cpu.new) }
    ensures no_frames { IsErr result ↔ (given_object task.old.current size (state_of node.old) ≡ None) }
    ensures same { OnErr result ((node.new ≡ node.old) × (cpu.new ≡ cpu.old)) }
{
    match Class::of(size) {
        Some(class) => object_of(cpu, node, task, class),
        None => block_of(cpu, node, task, size),
    }
}

// An object that is too large for a class: a block of its own.
fn block_of(cpu: &mut CpuSeat, node: &mut SlabNode, task: &Task, size: u64) -> Result<Obj, NoFrames>
    requires at_home { IsAtHome cpu.old node.old }
    requires allowed { MayCount task.now.current cpu.old }
    ensures gives { IfOk result (Gives (given_block task.now.current (classes.order_of size) (state_of node.old)) node.old node.new cpu.old cpu.new) }
    ensures no_frames { IsErr result ↔ (given_block task.now.current (classes.order_of size) (state_of node.old) ≡ None) }
    ensures same { OnErr result ((node.new ≡ node.old) × (cpu.new ≡ cpu.old)) }
{
    let block = alloc_pages(cpu, &mut node.node, task, order_of(size))?;
    Ok(Obj {
        stored: Stored::Pages(block),
    })
}

// An object of a class, of the lowest open slab or of a new one.
fn object_of(
    cpu: &mut CpuSeat,
    node: &mut SlabNode,
    task: &mut Task,
    class: Class,
) -> Result<Obj, NoFrames>
    requires at_home { IsAtHome cpu.old node.old }
    requires room { task.old.depth < most_hooks }
    requires allowed { MayCount task.old.current cpu.old }
    ensures task { task.new ≡ task.old }
    ensures gives { IfOk result (Gives (slab_or_new task.old.current (class_at class.index) (state_of node.old) (open_frame (class_at class.index) (state_of node.old))) node.old node.new cpu.old cpu.new) }
    ensures no_frames { IsErr result ↔ (slab_or_new task.old.current (class_at class.index) (state_of node.old) (open_frame (class_at class.index) (state_of node.old)) ≡ None) }
    ensures same { OnErr result ((node.new ≡ node.old) × (cpu.new ≡ cpu.old)) }
{
    match node.table.open_frame(class) {
        Some(frame) => Ok(object_at(cpu, node, task, class, frame)),
        None => {
            let frame = new_slab(cpu, node, task, class)?;
            Ok(object_at(cpu, node, task, class, frame))
        }
    }
}

// Makes a slab of the class, in frames that are counted under the slab allocator's own tag, and tells its first frame.
fn new_slab(
    cpu: &mut CpuSeat,
    node: &mut SlabNode,
    task: &mut Task,
    class: Class,
) -> Result<u32, NoFrames>
    requires at_home { IsAtHome cpu.old node.old }
    requires room { task.old.depth < most_hooks }
    ensures task { task.new ≡ task.old }
    ensures makes { IfOk result (MakesSlab (class_at class.index) node.old node.new cpu.old cpu.new) }
    ensures no_frames { IsErr result ↔ (start_in (slab_order (class_at class.index)) (state_of node.old) ≡ None) }
    ensures same { OnErr result ((node.new ≡ node.old) × (cpu.new ≡ cpu.old)) }
{
    let block = slab_pages(cpu, &mut node.node, task, class.order())?;
    Ok(put_slab(node, class, block))
}

// Takes the frames of a slab, counted under the slab allocator's own tag.
fn slab_pages(
    cpu: &mut CpuSeat,
    node: &mut Node,
    task: &mut Task,
    order: u32,
) -> Result<Block, NoFrames>
    requires table { node.old.board ≡ cpu.old.board }
    requires own { node.old.node.cpu ≡ cpu.old.part.number }
    requires hand { cpu.old.part.hand ≡ None }
    requires room { task.old.depth < most_hooks }
    requires small { order ≤ 10 }
    ensures task { task.new ≡ task.old }
    ensures gives { IfOk result (GivesBlock (Some slab_tag) order node.old node.new cpu.old cpu.new) }
    ensures no_frames { IsErr result ↔ (least_start node.old.node.frames order ≡ None) }
    ensures same { OnErr result ((node.new ≡ node.old) × (cpu.new ≡ cpu.old)) }
{
    cpu.tell();
    let hook = task.save(SLAB_TAG);
    let given = alloc_pages(cpu, node, task, order);
    task.restore(hook);
    given
}

// Makes a slab of a block, with the lowest vector that is in, and tells its first frame.
fn put_slab(node: &mut SlabNode, class: Class, block: Block) -> u32
    requires stands { Stands node.old }
    requires block { IsSlabBlock (class_at class.index) node.old block }
    ensures frame { result ≡ block.frame }
    ensures node { IsNow (with_made_slab (class_at class.index) block.frame (state_of node.old)) node.old node.new }
{
    let frame = block.frame();
    let vector = node.vectors.take_vector();
    let _none = node
        .table
        .replace(frame, Some(Slab::new(class, block, vector)));
    frame
}

// The object at the lowest free place of the slab at a frame, counted where it has a cell.
fn object_at(cpu: &mut CpuSeat, node: &mut SlabNode, task: &Task, class: Class, frame: u32) -> Obj
    requires at_home { IsAtHome cpu.old node.old }
    requires allowed { MayCount task.now.current cpu.old }
    requires open { IsOpenIn (class_at class.index) frame (state_of node.old) }
    ensures { Gives (option_map (object_from task.now.current (class_at class.index) frame (state_of node.old)) (slab_at frame (state_of node.old))) node.old node.new cpu.old cpu.new result }
{
    cpu.tell();
    let mut place = take_place(node, class, frame);
    count_place(cpu, &mut place, task, class);
    Obj {
        stored: Stored::InSlab(place),
    }
}

// Takes the lowest free place of the slab at a frame.
fn take_place(node: &mut SlabNode, class: Class, frame: u32) -> Place
    requires stands { Stands node.old }
    requires checked { IsChecked node.old.node.board.shape }
    requires open { IsOpenIn (class_at class.index) frame (state_of node.old) }
    ensures { TakesPlaceOf frame node.old node.new result }
{
    node.table.take_place(frame)
}

// Counts an object of the class on its cell, if it has one.
fn count_place(cpu: &mut CpuSeat, place: &mut Place, task: &Task, class: Class)
    requires table { IsOfTable cpu.old.board (cell_of (Stored.InSlab place.old)) }
    requires hand { cpu.old.part.hand ≡ None }
    requires none { with_reference held.None place.old ≡ place.old }
    requires allowed { MayCount task.now.current cpu.old }
    ensures place { place.new ≡ with_reference (reference_to task.now.current (class_at class.index)) place.old }
    ensures cpu { cpu.new ≡ moved_by (open_moves cpu.old.part.number (held_of (storage_of (Stored.InSlab place.new)))) cpu.old }
{
    if let Some(seat) = place.cell_mut() {
        count_under(cpu, seat, task, class.bytes());
    }
}
