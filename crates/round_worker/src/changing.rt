//! Trims and exchanges.

ghost use Rattle.std.specs.Prelude.{◌≡◌, ◌≢◌, ◌*◌, ◌<◌, None, OnOk};
ghost use Rattle.tag_model.specs.RefMoves.{trim_moves};
ghost use Rattle.tag_model.specs.RefMoves as ref;
ghost use Rattle.tag_ref.specs.Refs.{moved_by};
ghost use Rattle.trace.specs.declared.traces.TraceOp.TheVariants as op;
ghost use Rattle.trace_play.specs.Live.{held_of, with_held};
ghost use Rattle.trace_play.specs.Worker.{done};
ghost use Rattle.trace_play.specs.Fits.{SwapFits, TrimFits};
ghost use Rattle.round_worker.specs.Kept.{IsKept, MaySwap, MayTrim, content_of, exchanged};
ghost use Rattle.round_worker.specs.Shown.{Leaves, Ready, at_start};

use crate::keys::Kept;
use crate::worker::Worker;
use page_ext::Block;
use split_swap::swap;
use std::alloc::AllocError;
use tag_ref::trim_ref;
use tag_rule::CpuSeat;

impl Worker {
    pub(crate) fn trim(&mut self, cpu: &mut CpuSeat, key: u32, pages: u32) -> Result<(), AllocError>
        requires ready { Ready self.old cpu.old }
        requires some { 0 < pages }
        requires fits { TrimFits key (pages * 4096) self.old.live }
        ensures { OnOk result (Leaves (done self.old.entries (op.Trim key pages) (at_start self.old)) self.old self.new cpu.old cpu.new) }
    {
        match self.keys.take(key) {
            Some(kept) => {
                let kept = trimmed(cpu, kept, u64::from(pages) * 4_096);
                self.keys.put(key, kept)
            }
            None => Ok(()),
        }
    }

    pub(crate) fn swap(&mut self, cpu: &mut CpuSeat, one: u32, two: u32) -> Result<(), AllocError>
        requires ready { Ready self.old cpu.old }
        requires apart { one ≢ two }
        requires fits { SwapFits one two self.old.live }
        ensures { OnOk result (Leaves (done self.old.entries (op.Swap one two) (at_start self.old)) self.old self.new cpu.old cpu.new) }
    {
        let Some(first) = self.keys.take(one) else {
            return Ok(());
        };
        let Some(second) = self.keys.take(two) else {
            return Ok(());
        };
        let (first, second) = exchanged(cpu, first, second);
        self.keys.put(two, second)?;
        self.keys.put(one, first)
    }
}

// With so many bytes of its reference less. Nothing stays nothing.
fn trimmed(cpu: &mut CpuSeat, kept: Kept, bytes: u64) -> Kept
    requires own { IsKept cpu.old.board kept }
    requires hand { cpu.old.part.hand ≡ None }
    requires some { 0 < bytes }
    requires may { MayTrim bytes (content_of kept) }
    ensures content { content_of result ≡ with_held (ref.trimmed bytes) (content_of kept) }
    ensures own { IsKept cpu.old.board result }
    ensures cpu { cpu.new ≡ moved_by (trim_moves cpu.old.part.number bytes (held_of (content_of kept))) cpu.old }
{
    match kept {
        Kept::Block(block) => {
            let mut block = block;
            trim_ref(cpu, block.cell_mut(), bytes);
            Kept::Block(block)
        }
        other => other,
    }
}

// With each other's reference. Where one is nothing, both are as before.
fn exchanged(cpu: &mut CpuSeat, one: Kept, two: Kept) -> (Kept, Kept)
    requires own { IsKept cpu.old.board one × IsKept cpu.old.board two }
    requires hand { cpu.old.part.hand ≡ None }
    requires may { MaySwap (content_of one) (content_of two) }
    ensures first { content_of result.0 ≡ exchanged (content_of one) (content_of two) }
    ensures second { content_of result.1 ≡ exchanged (content_of two) (content_of one) }
    ensures own { IsKept cpu.old.board result.0 × IsKept cpu.old.board result.1 }
    ensures cpu { cpu.new ≡ cpu.old }
{
    match one {
        Kept::Block(one) => exchanged_with(cpu, one, two),
        other => (other, two),
    }
}

fn exchanged_with(cpu: &mut CpuSeat, one: Block, two: Kept) -> (Kept, Kept)
    requires own { IsKept cpu.old.board (Kept.Block one) × IsKept cpu.old.board two }
    requires hand { cpu.old.part.hand ≡ None }
    requires may { MaySwap (content_of (Kept.Block one)) (content_of two) }
    ensures first { content_of result.0 ≡ exchanged (content_of (Kept.Block one)) (content_of two) }
    ensures second { content_of result.1 ≡ exchanged (content_of two) (content_of (Kept.Block one)) }
    ensures own { IsKept cpu.old.board result.0 × IsKept cpu.old.board result.1 }
    ensures cpu { cpu.new ≡ cpu.old }
{
    let mut one = one;
    match two {
        Kept::Block(two) => {
            let mut two = two;
            swap(cpu, &mut one, &mut two);
            (Kept::Block(one), Kept::Block(two))
        }
        other => (Kept::Block(one), other),
    }
}
