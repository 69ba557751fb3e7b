ghost use Rattle.std.specs.Prelude.{◌≡◌, ◌<◌, ◌++◌, ◌∷◌, ◌↔◌, [], IsTrue, length, IfOk, OnOk, OnErr, slice_get};
ghost use Rattle.cpu_ops.specs.Machine.{Waiting, nothing_waits, advanced, step_count, with_op};

use crate::op::CpuOp;
use std::alloc::{AllocError, Global};
use std::collections::VecDeque;
use std::marker::Model;

/// The ops of a CPU, in order, of which so many steps of the first are done.
#[derive(Drop)]
pub struct Waiting {
    ops: VecDeque<CpuOp>,
    done: u64,
}

impl Model for Waiting {
    ghost use Rattle.cpu_ops.specs.Machine.{Waiting};

    ghost Value = { Waiting };

    ghost view = { λ p. record { ops = p.ops.items; done = p.done } };
}

impl Waiting {
    pub fn new(alloc: Global) -> Waiting
        ensures { result ≡ nothing_waits }
    {
        Waiting {
            ops: VecDeque::new(alloc),
            done: 0,
        }
    }

    pub fn len(&self) -> usize
        ensures { result ≡ length self.now.ops }
    {
        self.ops.len()
    }

    pub fn is_empty(&self) -> bool
        ensures { IsTrue result ↔ (self.now.ops ≡ []) }
    {
        self.ops.is_empty()
    }

    pub fn first(&self) -> Option<CpuOp>
        ensures { result ≡ slice_get self.now.ops 0 }
    {
        self.ops.front().copied()
    }

    pub fn done(&self) -> u64
        ensures { result ≡ self.now.done }
    {
        self.done
    }

    pub fn push(&mut self, op: CpuOp) -> Result<(), AllocError>
        ensures ok { OnOk result (self.new ≡ with_op self.old op) }
        ensures err { OnErr result (self.new ≡ self.old) }
    {
        self.ops.push_back(op)?;
        Ok(())
    }

    /// One step more of the first op is done; after its last the next op is the first.
    pub fn advance(&mut self, first: CpuOp)
        requires first { slice_get self.old.ops 0 ≡ Some first }
        requires under_way { self.old.done < step_count first }
        ensures { self.new ≡ advanced self.old.ops self.old.done }
    {
        if self.done + 1 == first.step_count() {
            self.ops.pop_front();
            self.done = 0;
        } else {
            self.done += 1;
        }
    }
}
