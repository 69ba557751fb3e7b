//! A round of a CPU's ops.

ghost use Rattle.std.specs.Prelude.{◌≡◌, ◌+◌, ◌^◌, ◌<◌, OnOk, length, map};
ghost use Rattle.trace_play.specs.Worker.{all_done, done};
ghost use Rattle.trace_play.specs.Fitting.{Fit, OpNeeds};
ghost use Rattle.round_worker.specs.Shown.{Leaves, Ready, at_start, may_count};

use crate::listed::unload;
use crate::worker::Worker;
use reclaim::ModuleList;
use std::alloc::AllocError;
use std::sync::Wait;
use tag_rule::{CpuSeat, Name};
use trace::{OnOp, TraceOp};

/// Where each CPU passes before each of its ops. It tells nothing and reaches nothing that a worker has.
pub trait Gate {
    /// The CPU is about to begin an op; so many ops it has begun before.
    fn pass(&self, cpu: u32, op: u64);
}

/// A gate that does nothing.
pub struct OpenGate;

impl Gate for OpenGate {
    fn pass(&self, _cpu: u32, _op: u64) {}
}

impl Worker {
    /// Takes a CPU's ops of one round, in their order.
    pub fn round<R: Wait, N: Name, G: Gate + Sync>(
        &mut self,
        rt: &R,
        cpu: &mut CpuSeat,
        list: &ModuleList<N>,
        gate: &G,
        ops: &[OnOp],
    ) -> Result<(), AllocError>
        requires ready { Ready self.old cpu.old }
        requires fits { Fit (may_count cpu.old) self.old.entries (map (λ on. on.op) ops.now) (at_start self.old) }
        requires failed { self.old.failed + length ops.now < 2 ^ 64 }
        requires uncounted { self.old.uncounted + length ops.now < 2 ^ 64 }
        ensures { OnOk result (Leaves (all_done self.old.entries (map (λ on. on.op) ops.now) (at_start self.old)) self.old self.new cpu.old cpu.new) }
    {
        for on in ops {
            let begun = self.begin();
            gate.pass(cpu.cpu(), begun);
            self.take_op(rt, cpu, list, on.op)?;
        }
        Ok(())
    }

    // One more op is begun. The answer is how many were before.
    fn begin(&mut self) -> u64
        ensures { self.new ≡ self.old }
    {
        let begun = self.begun;
        self.begun = begun.saturating_add(1);
        begun
    }

    // Takes one op.
    fn take_op<R: Wait, N: Name>(
        &mut self,
        rt: &R,
        cpu: &mut CpuSeat,
        list: &ModuleList<N>,
        op: TraceOp,
    ) -> Result<(), AllocError>
        requires ready { Ready self.old cpu.old }
        requires needs { OpNeeds (may_count cpu.old) self.old.entries op (at_start self.old) }
        requires failed { self.old.failed + 1 < 2 ^ 64 }
        requires uncounted { self.old.uncounted + 1 < 2 ^ 64 }
        ensures { OnOk result (Leaves (done self.old.entries op (at_start self.old)) self.old self.new cpu.old cpu.new) }
    {
        match op {
            TraceOp::Page { key, order } => self.page(cpu, key, order),
            TraceOp::Kmalloc { key, size } => self.kmalloc(cpu, key, size),
            TraceOp::Free { key } => self.free(cpu, key),
            TraceOp::Split { key, order, first } => self.split(cpu, key, order, first),
            TraceOp::Swap { one, two } => self.swap(cpu, one, two),
            TraceOp::Trim { key, pages } => self.trim(cpu, key, pages),
            TraceOp::Hook { section, index } => self.hook(cpu, section, index),
            TraceOp::Unhook => {
                self.unhook();
                Ok(())
            }
            TraceOp::Enter { .. } | TraceOp::Leave { .. } => Ok(()),
            TraceOp::Unload { section } => {
                unload(rt, list, section);
                Ok(())
            }
        }
    }
}
