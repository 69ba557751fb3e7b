//! Frees.

ghost use Rattle.std.specs.Prelude.{◌≡◌, ◌≢◌, ◌+◌, ◌++◌, ◌∷◌, [], ◌^◌, ◌≤◌, None, OnOk, length};
ghost use Rattle.tag_model.specs.RefMoves.{close_moves};
ghost use Rattle.tag_model.specs.declared.state.Held.TheVariants as held;
ghost use Rattle.page_ext.specs.Shown.{Fits, block_of};
ghost use Rattle.slab_cache.specs.Storage.{Pages, home_of};
ghost use Rattle.slab_cache.specs.Storage as storage;
ghost use Rattle.trace.specs.declared.traces.TraceOp.TheVariants as op;
ghost use Rattle.trace_play.specs.Live.{Stored, held_of};
ghost use Rattle.trace_play.specs.Worker.{done, given_back, with_moves};
ghost use Rattle.trace_play.specs.Fitting.{FreeFits, IsThere};
ghost use Rattle.round_worker.specs.Kept.{IsKept, IsKeptObject, content_of};
ghost use Rattle.round_worker.specs.Shown.{Leaves, Ready, at_start};
ghost use Rattle.slab_cache.specs.Shown.{storage_of};
ghost use Rattle.round_worker.specs.Working.{IsGoing, going_storage, with_returning};

use crate::keys::Kept;
use crate::worker::{Going, Worker};
use page_ext::{Block, free_pages};
use slab_cache::{Obj, kfree};
use std::alloc::AllocError;
use tag_rule::CpuSeat;

impl Worker {
    pub(crate) fn free(&mut self, cpu: &mut CpuSeat, key: u32) -> Result<(), AllocError>
        requires ready { Ready self.old cpu.old }
        requires there { FreeFits (op.Free key) (at_start self.old) }
        ensures { OnOk result (Leaves (done self.old.entries (op.Free key) (at_start self.old)) self.old self.new cpu.old cpu.new) }
    {
        match self.keys.take(key) {
            Some(kept) => self.free_kept(cpu, kept),
            None => Ok(()),
        }
    }

    fn free_kept(&mut self, cpu: &mut CpuSeat, kept: Kept) -> Result<(), AllocError>
        requires ready { Ready self.old cpu.old }
        requires own { IsKept self.old.board kept }
        requires there { IsThere (content_of kept) (at_start self.old) }
        ensures { OnOk result (Leaves (given_back (content_of kept) (with_moves (close_moves cpu.old.part.number (held_of (content_of kept))) (at_start self.old))) self.old self.new cpu.old cpu.new) }
    {
        match kept {
            Kept::Block(block) => self.free_block(cpu, block),
            Kept::Object(obj) => self.free_object(cpu, obj),
            Kept::Nothing { .. } => Ok(()),
        }
    }

    fn free_block(&mut self, cpu: &mut CpuSeat, block: Block) -> Result<(), AllocError>
        requires ready { Ready self.old cpu.old }
        requires table { block.cell.board ≡ self.old.board }
        requires fits { Fits block }
        requires live { block.cell.held ≢ held.None }
        requires there { IsThere (Stored (Pages (block_of block))) (at_start self.old) }
        ensures { OnOk result (Leaves (given_back (Stored (Pages (block_of block))) (with_moves (close_moves cpu.old.part.number block.cell.held) (at_start self.old))) self.old self.new cpu.old cpu.new) }
    {
        match free_pages(cpu, self.node.node_mut(), block) {
            Some(returned) => self.send(Going::Block(returned)),
            None => Ok(()),
        }
    }

    fn free_object(&mut self, cpu: &mut CpuSeat, obj: Obj) -> Result<(), AllocError>
        requires ready { Ready self.old cpu.old }
        requires kept { IsKeptObject self.old.board obj.stored }
        requires there { IsThere (Stored (storage_of obj.stored)) (at_start self.old) }
        ensures { OnOk result (Leaves (given_back (Stored (storage_of obj.stored)) (with_moves (close_moves cpu.old.part.number (storage.held_of (storage_of obj.stored))) (at_start self.old))) self.old self.new cpu.old cpu.new) }
    {
        match kfree(cpu, &mut self.node, obj) {
            Some(back) => self.send(Going::Object(back)),
            None => Ok(()),
        }
    }

    // To its home, when the round ends.
    fn send(&mut self, going: Going) -> Result<(), AllocError>
        requires { IsGoing self.old.board going }
        ensures { OnOk result (self.new ≡ with_returning (self.old.seat.returning ++ going_storage going ∷ []) self.old) }
    {
        self.returning.push(going)?;
        Ok(())
    }
}
