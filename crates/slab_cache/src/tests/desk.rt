//! A CPU at its node with slabs, and the objects that were given there, for the tests.

ghost use Rattle.std.specs.List.{range_with_len};
ghost use Rattle.std.specs.Prelude.{◌≡◌, ◌<◌, ◌≤◌, IfOk, IfSome, IsTrue, None, Some, option_map, slice_get, true};
ghost use Rattle.current_tag.specs.Hooks.{most_hooks};
ghost use Rattle.page_ext.specs.Paging.{MayCount};
ghost use Rattle.slab_cache.specs.Calls.{IsOf};
ghost use Rattle.slab_cache.specs.Shown.{IsLive, IsOfTable, Suits, cell_of, state_of, storage_of};
ghost use Rattle.slab_cache.specs.declared.place.PlaceCell.{PlaceCell};
ghost use Rattle.tag_model.specs.Index.{page_index};
ghost use Rattle.tag_rule.specs.Made.{fresh_vectors};

use crate::object::{Returning, Stored};
use crate::place::Place;
use crate::slab::Slab;
use crate::{Back, Obj, ObjError, SlabNode, kfree, kmalloc, take_home};
use current_tag::Task;
use page_ext::Node;
use slab_ext::VectorPool;
use std::alloc::{AllocError, Global};
use std::marker::Model;
use std::mem;
use std::test::Fail;
use tag_model::{Held, Kind, Shape, Tag};
use tag_rule::{CellPool, CpuSeat, Seats, make, read_own};

/// A CPU and its node. Each object that was given has a number, by which it is freed.
#[derive(Drop)]
pub struct Desk {
    cpu: CpuSeat,
    node: SlabNode,
    given: Vec<Option<Obj>>,
}

impl Model for Desk {
    ghost use Rattle.std.specs.Prelude.{◌≡◌, All, IfSome, None};
    ghost use Rattle.tag_rule.specs.Shown.{Board};
    ghost use Rattle.slab_cache.specs.Shown.{IsLive, IsOfTable, Stands, Suits, cell_of};
    ghost use Rattle.slab_cache.specs.declared.object.Obj.{Obj};

    ghost Value = { Board };

    ghost view = { λ desk. desk.cpu.board };

    ghost invariant = { λ desk. (desk.node.node.board ≡ desk.cpu.board) × (desk.node.vectors.cpu ≡ desk.cpu.part.number) × Stands desk.node × (desk.cpu.part.hand ≡ None) × All (λ o. IfSome o (λ (obj : Obj). Suits obj.stored × IsLive (cell_of obj.stored) × IsOfTable desk.cpu.board (cell_of obj.stored))) desk.given.items };
}

/// Two CPUs of a new table, with so many frames and vectors each.
pub fn new_desks(alloc: Global, frames: u32, vectors: u32) -> Result<(Desk, Desk), AllocError>
    requires frames { frames ≤ 1024 }
    requires vectors { vectors ≤ 64 }
    ensures { IfOk result (λ desks. desks.1 ≡ desks.0) }
{
    let Seats {
        mut cpus,
        mut pages,
        mut objects,
        list: _,
        loads: _,
    } = make(
        alloc,
        Shape {
            cpus: 2,
            tags: 3,
            kernel_tags: 3,
            frames,
            vectors,
        },
    )?;
    let first = new_desk(alloc, cpus.remove(0), pages.remove(0), objects.remove(0))?;
    let second = new_desk(alloc, cpus.remove(0), pages.remove(0), objects.remove(0))?;
    Ok((first, second))
}

fn new_desk(
    alloc: Global,
    cpu: CpuSeat,
    pages: CellPool,
    pools: Vec<CellPool>,
) -> Result<Desk, AllocError>
    requires rests { cpu.part.hand ≡ None }
    requires pages { pages ≡ record { board = cpu.board; cells = range_with_len (page_index cpu.board.shape cpu.part.number 0) cpu.board.shape.frames } }
    requires pools { pools.items ≡ fresh_vectors cpu.board cpu.part.number }
    ensures { IfOk result (λ desk. desk ≡ cpu.board) }
{
    cpu.tell();
    let shape = cpu.shape();
    let node = Node::new(alloc, cpu.cpu(), shape.frames, pages)?;
    let vectors = VectorPool::new(alloc, cpu.cpu(), shape.vectors, pools)?;
    Ok(Desk {
        node: SlabNode::new(alloc, node, vectors)?,
        cpu,
        given: Vec::new(alloc),
    })
}

/// Where an object lies: its first frame; its place, or its order where it is a block; the vector of its cell.
pub fn lies_at(obj: &Obj) -> (u32, u32, Option<u32>) {
    match &obj.stored {
        Stored::Pages(block) => (block.frame(), block.order(), None),
        Stored::InSlab(place) => (place.frame, place.place, vector_of(place)),
    }
}

// The number of the vector of a place's cell.
fn vector_of(place: &Place) -> Option<u32>
    ensures { result ≡ option_map (λ (c : PlaceCell). c.vector) place.now.cell }
{
    match &place.cell {
        Some(cell) => Some(cell.vector),
        None => None,
    }
}

// A task whose current tag is this one of the kernel's, or none.
fn task_of(cpu: &CpuSeat, tag: Option<u32>) -> Task
    ensures allowed { MayCount result.current cpu.now }
    ensures room { result.depth < most_hooks }
{
    let mut task = Task::new();
    if let Some(number) = tag {
        if number < cpu.shape().kernel_tags {
            let _hook = task.save(Tag { number, module: 0 });
        }
    }
    task
}

// Whether the place is one of the slab that is taken, and its cell that of the slab's vector.
fn is_in(slab: &Slab, place: &Place) -> bool
    ensures taken { IsTrue result → slice_get slab.now.slab.places place.now.place ≡ Some true }
    ensures vector { IsTrue result → slab.now.slab.vector ≡ option_map (λ (c : PlaceCell). c.vector) place.now.cell }
{
    if place.place >= slab.class.objects() {
        return false;
    }
    if (slab.free >> place.place) % 2 != 0 {
        return false;
    }
    let vector = match &slab.vector {
        Some(vector) => Some(vector.number()),
        None => None,
    };
    vector == vector_of(place)
}

// Whether the place is a taken one of the node.
fn has_place(node: &SlabNode, place: &Place) -> bool
    ensures { IsTrue result → IsOf (state_of node.now) (storage_of (Stored.InSlab place.now)) }
{
    match node.table.slab(place.frame) {
        Some(slab) => is_in(slab, place),
        None => false,
    }
}

// Whether the object is of the node.
fn has_object(node: &SlabNode, obj: &Obj) -> bool
    ensures { IsTrue result → IsOf (state_of node.now) (storage_of obj.now.stored) }
{
    match &obj.stored {
        Stored::Pages(block) => {
            block.tell();
            block.frame() + (1 << block.order()) <= node.node.frames()
        }
        Stored::InSlab(place) => has_place(node, place),
    }
}

impl Desk {
    /// An object under this tag of the kernel's, or with the empty mark.
    pub fn ask(&mut self, tag: Option<u32>, size: u64) -> Result<Obj, ObjError>
        ensures good { IfOk result (λ obj. Suits obj.stored × IsLive (cell_of obj.stored) × IsOfTable self.new (cell_of obj.stored)) }
        ensures board { self.new ≡ self.old }
    {
        let mut task = task_of(&self.cpu, tag);
        kmalloc(&mut self.cpu, &mut self.node, &mut task, size)
    }

    /// The same, which gets the next number.
    pub fn give(&mut self, tag: Option<u32>, size: u64) -> Result<(u32, u32, Option<u32>), Fail>
        ensures { self.new ≡ self.old }
    {
        let obj = self.ask(tag, size)?;
        let place = lies_at(&obj);
        self.given.push(Some(obj))?;
        Ok(place)
    }

    /// The object of a number, which the desk gives away.
    pub fn take(&mut self, number: usize) -> Option<Obj>
        ensures good { IfSome result (λ obj. Suits obj.stored × IsLive (cell_of obj.stored) × IsOfTable self.new (cell_of obj.stored)) }
        ensures board { self.new ≡ self.old }
    {
        if number < self.given.len() {
            mem::replace(&mut self.given[number], None)
        } else {
            None
        }
    }

    /// Frees an object, unless it is one of this CPU's and not of its node.
    pub fn free(&mut self, obj: Obj) -> Result<Option<Back>, Obj>
        requires { Suits obj.stored × IsLive (cell_of obj.stored) × IsOfTable self.old (cell_of obj.stored) }
        ensures board { self.new ≡ self.old }
        ensures back { IfOk result (λ o. IfSome o (λ back. IsOfTable self.new (cell_of back))) }
    {
        if obj.home() == self.cpu.cpu() && !has_object(&self.node, &obj) {
            return Err(obj);
        }
        Ok(kfree(&mut self.cpu, &mut self.node, obj))
    }

    /// Frees the object of a number, which is of this node.
    pub fn free_number(&mut self, number: usize) -> bool
        ensures { self.new ≡ self.old }
    {
        match self.take(number) {
            Some(obj) => matches!(self.free(obj), Ok(None)),
            None => false,
        }
    }

    /// Frees the object of a number on another CPU.
    pub fn free_at(&mut self, far: &mut Desk, number: usize) -> Option<Back>
        requires { far.old ≡ self.old }
        ensures back { IfSome result (λ back. IsOfTable self.new (cell_of back)) }
        ensures tables { (self.new ≡ self.old) × (far.new ≡ far.old) }
    {
        match self.take(number) {
            Some(obj) => match far.free(obj) {
                Ok(back) => back,
                Err(_) => None,
            },
            None => None,
        }
    }

    /// Takes an object's place home, if it is one of this node.
    pub fn take_home(&mut self, back: Back) -> bool
        requires { IsOfTable self.old (cell_of back) }
        ensures { self.new ≡ self.old }
    {
        let own = match &back.returning {
            Returning::Pages(_) => false,
            Returning::InSlab(place) => has_place(&self.node, place),
        };
        if !own || back.home() != self.cpu.cpu() {
            return false;
        }
        take_home(&mut self.cpu, &mut self.node, back);
        true
    }

    /// The order of the slab that begins at a frame, and what its block holds.
    pub fn slab(&self, frame: u32) -> Option<(u32, Held)> {
        match self.node.slab(frame) {
            Some(block) => Some((block.order(), block.cell().held())),
            None => None,
        }
    }

    /// The CPU's bytes and calls of the table's three tags.
    pub fn words(&mut self) -> Option<[(u64, u64); 3]>
        ensures { self.new ≡ self.old }
    {
        if self.cpu.shape().tags < 3 {
            return None;
        }
        Some([
            tag_words(&mut self.cpu, 0),
            tag_words(&mut self.cpu, 1),
            tag_words(&mut self.cpu, 2),
        ])
    }
}

fn tag_words(cpu: &mut CpuSeat, tag: u32) -> (u64, u64)
    requires { tag < cpu.old.board.shape.tags }
    ensures { cpu.new ≡ cpu.old }
{
    let bytes = read_own(cpu, tag, Kind::Bytes);
    (bytes, read_own(cpu, tag, Kind::Calls))
}
