ghost use Rattle.std.specs.Prelude.{ℕ, ◌≡◌, ◌<◌, ◌≤◌, IfOk, None, Some, length, false, option_map, position, replicate, slice_get, slice_index_or, slice_set};
ghost use Rattle.slab_cache.specs.Bits.{class_at};
ghost use Rattle.slab_cache.specs.Tables.{GetsPlace, HasPlace, IsOpenAt, LosesPlace, TakesPlace, is_open_slab};

use crate::class::{CLASSES, Class};
use crate::frame_set::FrameSet;
use crate::place::Place;
use crate::slab::Slab;
use std::alloc::{AllocError, Global};
use std::marker::Model;
use std::mem;

/// The slabs of a node, each at its first frame, and for each class a set of the frames of those that have a free place.
#[derive(Drop)]
pub(crate) struct SlabTable {
    slabs: Vec<Option<Slab>>,
    open_frames: Vec<FrameSet>,
}

impl Model for SlabTable {
    ghost use Rattle.std.specs.Prelude.{List, Option};
    ghost use Rattle.slab_cache.specs.Shown.{SlabShown};
    ghost use Rattle.slab_cache.specs.Tables.{IsTable};

    ghost Value = { List (Option SlabShown) };

    ghost view = { λ table. table.slabs.items };

    ghost invariant = { λ table. IsTable table.slabs.items table.open_frames.items };
}

impl SlabTable {
    /// A table with no slab, for so many frames.
    pub fn new(alloc: Global, frames: u32) -> Result<SlabTable, AllocError>
        requires { frames ≤ 1024 }
        ensures { IfOk result (λ table. table ≡ replicate frames None) }
    {
        Ok(SlabTable {
            slabs: no_slabs(alloc, frames)?,
            open_frames: no_frames(alloc, frames)?,
        })
    }

    /// The frame of the lowest slab of the class that has a free place.
    pub fn open_frame(&self, class: Class) -> Option<u32>
        ensures { result ≡ position (is_open_slab (class_at class.index)) self.now }
    {
        self.open_frames[class.index].lowest()
    }

    /// The slab that begins at a frame.
    pub fn slab(&self, frame: u32) -> Option<&Slab>
        ensures { option_map (λ slab. slab.now) result ≡ slice_index_or self.now frame None }
    {
        match self.slabs.get(frame as usize) {
            Some(Some(slab)) => Some(slab),
            _ => None,
        }
    }

    /// Puts a slab at a frame, or none, and gives the one that was there.
    pub fn replace(&mut self, frame: u32, slab: Option<Slab>) -> Option<Slab>
        requires { frame < length self.old }
        ensures slab { result ≡ slice_index_or self.old frame None }
        ensures table { self.new ≡ slice_set self.old frame slab }
    {
        let was = self.take_out(frame);
        if let Some(slab) = slab {
            self.put_in(frame, slab);
        }
        was
    }

    /// Takes the lowest free place of the slab at a frame.
    pub fn take_place(&mut self, frame: u32) -> Place
        requires { IsOpenAt frame self.old }
        ensures { TakesPlace frame self.old self.new result }
    {
        let slab = self.slabs[frame as usize].as_mut().unwrap();
        let class = slab.class();
        let place = slab.take_place();
        if !slab.is_open(class) {
            self.open_frames[class.index].put(frame, false);
        }
        place
    }

    /// Takes a place back into its slab. A slab that no object is in is taken out.
    pub fn give_place(&mut self, place: Place) -> Option<Slab>
        requires { HasPlace self.old place }
        ensures { LosesPlace self.old place self.new result }
    {
        let frame = place.frame;
        if self.put_back(place) {
            None
        } else {
            self.take_out(frame)
        }
    }

    // Takes a place back into its slab, and tells whether an object is left in it.
    fn put_back(&mut self, place: Place) -> bool
        requires { HasPlace self.old place }
        ensures { GetsPlace self.old place self.new result }
    {
        let frame = place.frame;
        let slab = self.slabs[frame as usize].as_mut().unwrap();
        let class = slab.class();
        let was_open = slab.is_open(class);
        slab.give_place(place);
        let is_used = slab.is_used();
        if !was_open {
            self.open_frames[class.index].put(frame, true);
        }
        is_used
    }

    // Takes the slab at a frame out, if one is there.
    fn take_out(&mut self, frame: u32) -> Option<Slab>
        requires { frame < length self.old }
        ensures slab { result ≡ slice_index_or self.old frame None }
        ensures table { self.new ≡ slice_set self.old frame None }
    {
        let was = mem::replace(&mut self.slabs[frame as usize], None);
        if let Some(slab) = &was {
            self.open_frames[slab.class().index].put(frame, false);
        }
        was
    }

    // Puts a slab at a frame that has none.
    fn put_in(&mut self, frame: u32, slab: Slab)
        requires { slice_get self.old frame ≡ Some None }
        ensures { self.new ≡ slice_set self.old frame (Some slab) }
    {
        let class = slab.class();
        self.open_frames[class.index].put(frame, slab.is_open(class));
        let _none = mem::replace(&mut self.slabs[frame as usize], Some(slab));
    }
}

// No slab at any of so many frames.
fn no_slabs(alloc: Global, frames: u32) -> Result<Vec<Option<Slab>>, AllocError>
    ensures { IfOk result (λ slabs. slabs.items ≡ replicate frames None) }
{
    let mut slabs = Vec::with_capacity(alloc, frames as usize)?;
    for _frame in 0..frames {
        slabs.push(None)?;
    }
    Ok(slabs)
}

// For each class no frame.
fn no_frames(alloc: Global, frames: u32) -> Result<Vec<FrameSet>, AllocError>
    requires { frames ≤ 1024 }
    ensures { IfOk result (λ sets. sets.items ≡ replicate 13 (replicate frames false)) }
{
    let mut sets = Vec::with_capacity(alloc, CLASSES.len())?;
    for _class in 0..CLASSES.len() {
        sets.push(FrameSet::new(alloc, frames)?)?;
    }
    Ok(sets)
}
