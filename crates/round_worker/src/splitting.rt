//! Splits.

ghost use Rattle.std.specs.Prelude.{◌≡◌, ◌+◌, ◌-◌, ◌<◌, ◌≤◌, None, OnOk};
ghost use Rattle.tag_model.specs.RefMoves.{split_moves};
ghost use Rattle.tag_rule.specs.Shown.{Board};
ghost use Rattle.tag_ref.specs.Refs.{moved_by};
ghost use Rattle.page_ext.specs.Shown.{Fits, IsWhole};
ghost use Rattle.split_swap.specs.Parts.{parts_in, parts_shown};
ghost use Rattle.trace.specs.declared.traces.TraceOp.TheVariants as op;
ghost use Rattle.trace_play.specs.Live.{held_of, order_of};
ghost use Rattle.trace_play.specs.Worker.{done};
ghost use Rattle.trace_play.specs.Fits.{SplitFits};
ghost use Rattle.round_worker.specs.Kept.{IsKept, MaySplit, content_of};
ghost use Rattle.round_worker.specs.Parting.{AreKept, blocks, kept_parts, with_parts};
ghost use Rattle.round_worker.specs.Shown.{Leaves, Ready, at_start};

use crate::keys::{Kept, Keys};
use crate::worker::Worker;
use page_ext::Block;
use split_swap::split_to;
use std::alloc::{AllocError, Global};
use tag_rule::CpuSeat;

impl Worker {
    pub(crate) fn split(
        &mut self,
        cpu: &mut CpuSeat,
        key: u32,
        order: u32,
        first: u32,
    ) -> Result<(), AllocError>
        requires ready { Ready self.old cpu.old }
        requires fits { SplitFits key order first self.old.live }
        ensures { OnOk result (Leaves (done self.old.entries (op.Split key order first) (at_start self.old)) self.old self.new cpu.old cpu.new) }
    {
        match self.keys.take(key) {
            Some(kept) => split_kept(
                self.alloc,
                cpu,
                &mut self.keys,
                Parting { key, order, first },
                kept,
            ),
            None => Ok(()),
        }
    }
}

// The key, the order of the parts, and the first new key.
#[derive(Clone, Copy)]
struct Parting {
    key: u32,
    order: u32,
    first: u32,
}

// Binds the key and new ones to the parts of what the key had.
fn split_kept(
    alloc: Global,
    cpu: &mut CpuSeat,
    keys: &mut Keys,
    to: Parting,
    kept: Kept,
) -> Result<(), AllocError>
    requires own { IsKept cpu.old.board kept }
    requires hand { cpu.old.part.hand ≡ None }
    requires may { MaySplit to.order to.first (content_of kept) }
    ensures put { OnOk result (keys.new ≡ with_parts to.key to.first (kept_parts to.order kept) 0 keys.old) }
    ensures kept { (board : Board) → cpu.old.board ≡ board → AreKept board keys.old → AreKept board keys.new }
    ensures cpu { OnOk result (cpu.new ≡ moved_by (split_moves cpu.old.part.number (parts_in to.order (order_of (content_of kept))) (held_of (content_of kept))) cpu.old) }
{
    match kept {
        Kept::Block(block) => split_block(alloc, cpu, keys, to, block),
        Kept::Nothing { order } => split_nothing(keys, to, order),
        Kept::Object(_) => Ok(()),
    }
}

fn split_block(
    alloc: Global,
    cpu: &mut CpuSeat,
    keys: &mut Keys,
    to: Parting,
    block: Block,
) -> Result<(), AllocError>
    requires table { block.cell.board ≡ cpu.old.board }
    requires hand { cpu.old.part.hand ≡ None }
    requires above { to.order < block.order }
    requires fits { Fits block }
    requires whole { IsWhole block }
    requires few { to.first + (parts_in to.order block.order - 1) ≤ 65536 }
    ensures put { OnOk result (keys.new ≡ with_parts to.key to.first (blocks (parts_shown to.order block)) 0 keys.old) }
    ensures kept { (board : Board) → cpu.old.board ≡ board → AreKept board keys.old → AreKept board keys.new }
    ensures cpu { OnOk result (cpu.new ≡ moved_by (split_moves cpu.old.part.number (parts_in to.order block.order) block.cell.held) cpu.old) }
{
    let mut parts = Vec::new(alloc);
    if let Err((_block, error)) = split_to(cpu, block, to.order, &mut parts) {
        return Err(error);
    }
    keys.put_blocks(to.key, to.first, parts)
}

fn split_nothing(keys: &mut Keys, to: Parting, whole: u32) -> Result<(), AllocError>
    requires above { to.order < whole }
    requires small { whole ≤ 10 }
    requires few { to.first + (parts_in to.order whole - 1) ≤ 65536 }
    ensures put { OnOk result (keys.new ≡ with_parts to.key to.first (kept_parts to.order (Kept.Nothing whole)) 0 keys.old) }
    ensures kept { (board : Board) → AreKept board keys.old → AreKept board keys.new }
{
    keys.put_nothings(to.key, to.first, to.order, parts_in(to.order, whole))
}

// How many parts of the order there are.
fn parts_in(order: u32, whole: u32) -> u32
    requires above { order < whole }
    requires small { whole ≤ 10 }
    ensures { result ≡ parts_in order whole }
{
    1 << (whole - order)
}
