//! Allocations.

ghost use Rattle.std.specs.Prelude.{◌≡◌, ◌+◌, ◌^◌, ◌<◌, ◌≤◌, None, OnOk, if◌then◌else◌};
ghost use Rattle.tag_rule.specs.Shown.{Board};
ghost use Rattle.slab_cache.specs.Storage.{has_cell};
ghost use Rattle.trace.specs.declared.traces.TraceOp.TheVariants as op;
ghost use Rattle.trace_play.specs.Live.{Stored};
ghost use Rattle.trace_play.specs.Worker.{allocated, done, one_given, with_live};
ghost use Rattle.trace_play.specs.Live as live;
ghost use Rattle.round_worker.specs.Kept.{IsKept, IsKeptObject, content_of};
ghost use Rattle.round_worker.specs.Shown.{Leaves, Ready, at_start, with_state};
ghost use Rattle.slab_cache.specs.Calls.{most_bytes};
ghost use Rattle.slab_cache.specs.Shown.{storage_of};

use crate::keys::Kept;
use crate::worker::Worker;
use page_ext::{NoFrames, alloc_pages};
use slab_cache::Obj;
use std::alloc::AllocError;
use tag_rule::CpuSeat;

impl Worker {
    pub(crate) fn page(&mut self, cpu: &mut CpuSeat, key: u32, order: u32) -> Result<(), AllocError>
        requires ready { Ready self.old cpu.old }
        requires small { order ≤ 10 }
        requires count { self.old.failed + 1 < 2 ^ 64 }
        ensures { OnOk result (Leaves (done self.old.entries (op.Page key order) (at_start self.old)) self.old self.new cpu.old cpu.new) }
    {
        match alloc_pages(cpu, self.node.node_mut(), self.hooks.task(), order) {
            Ok(block) => self.keys.put(key, Kept::Block(block)),
            Err(NoFrames) => self.give_nothing(key, order),
        }
    }

    pub(crate) fn kmalloc(
        &mut self,
        cpu: &mut CpuSeat,
        key: u32,
        size: u64,
    ) -> Result<(), AllocError>
        requires ready { Ready self.old cpu.old }
        requires some { 0 < size }
        requires small { size ≤ most_bytes }
        requires failed { self.old.failed + 1 < 2 ^ 64 }
        requires uncounted { self.old.uncounted + 1 < 2 ^ 64 }
        ensures { OnOk result (Leaves (done self.old.entries (op.Kmalloc key size) (at_start self.old)) self.old self.new cpu.old cpu.new) }
    {
        match self.hooks.object(cpu, &mut self.node, size) {
            Ok(obj) => self.give_object(key, obj),
            Err(_) => self.give_nothing(key, 0),
        }
    }

    // The key is bound to nothing: its allocation found no frames.
    fn give_nothing(&mut self, key: u32, order: u32) -> Result<(), AllocError>
        requires count { self.old.failed + 1 < 2 ^ 64 }
        requires small { order ≤ 10 }
        ensures { OnOk result (self.new ≡ with_state (allocated key order None (at_start self.old)) self.old) }
    {
        self.failed += 1;
        self.keys.put(key, Kept::Nothing { order })
    }

    // The key is bound to an object.
    fn give_object(&mut self, key: u32, obj: Obj) -> Result<(), AllocError>
        requires kept { IsKeptObject self.old.board obj.stored }
        requires count { self.old.uncounted + 1 < 2 ^ 64 }
        ensures { OnOk result (self.new ≡ with_state (one_given (storage_of obj.stored) (with_live (live.put key (Stored (storage_of obj.stored)) self.old.live) (at_start self.old))) self.old) }
    {
        self.uncounted += cells_missing(&obj);
        let kept = kept_object(obj);
        self.keys.put(key, kept)
    }
}

// One where an object has no cell.
fn cells_missing(obj: &Obj) -> u64
    ensures value { result ≡ (if has_cell (storage_of obj.now.stored) then 0 else 1) }
    ensures one { result ≤ 1 }
{
    match obj.cell() {
        Some(_) => 0,
        None => 1,
    }
}

// A large object is a block.
fn kept_object(obj: Obj) -> Kept
    ensures content { content_of result ≡ Stored (storage_of obj.stored) }
    ensures kept { (board : Board) → IsKeptObject board obj.stored → IsKept board result }
{
    match obj.into_block() {
        Ok(block) => Kept::Block(block),
        Err(obj) => Kept::Object(obj),
    }
}
