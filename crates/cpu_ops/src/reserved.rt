//! Which keys are reserved, kept beside them.

ghost use Rattle.std.specs.Prelude.{◌≡◌, ◌+◌, ◌≤◌, ◌<◌, ◌==◌, not, IsTrue, List, Bool, length, replicate, IfOk, false, true};
ghost use Rattle.cpu_ops.specs.declared.op.TheConstants.{KEY_END};
ghost use Rattle.cpu_ops.specs.declared.op.CpuOp.TheVariants.{Split};
ghost use Rattle.cpu_ops.specs.Machine.{names_key, step_count};
ghost use Rattle.cpu_ops.specs.Needs.{KeysFit};
ghost use Rattle.cpu_ops.specs.Reserved.{flag_at, Flagged, FlaggedFrom, Notes};

use crate::op::{CpuOp, KEY_END};
use std::alloc::{AllocError, Global};
use std::marker::Model;

/// For each key, whether an op under way names it.
#[derive(Drop)]
pub struct Reserved {
    flags: Vec<bool>,
}

impl Model for Reserved {
    ghost Value = { List Bool };

    ghost view = { λ r. r.flags.items };
}

impl Reserved {
    /// No key is reserved.
    pub fn new(alloc: Global) -> Result<Reserved, AllocError>
        ensures { IfOk result (λ flags. flags ≡ replicate KEY_END false) }
    {
        Ok(Reserved {
            flags: vec![in alloc; false; KEY_END as usize]?,
        })
    }

    pub fn has(&self, key: u32) -> bool
        requires { key < length self.now }
        ensures { result ≡ flag_at self.now key }
    {
        self.flags[key as usize]
    }

    /// After a step of the op, of which so many were done: from the first to the last its keys are reserved.
    pub fn note(&mut self, op: CpuOp, done: u64)
        requires keys { KeysFit op }
        requires all { length self.old ≡ KEY_END }
        requires under_way { done < step_count op }
        ensures { Notes op done self.old self.new }
    {
        let first = done == 0;
        let last = done + 1 == op.step_count();
        if first != last {
            self.set(op, first);
        }
    }

    /// Sets the flag of each key that the op names.
    fn set(&mut self, op: CpuOp, flag: bool)
        requires keys { KeysFit op }
        requires all { length self.old ≡ KEY_END }
        ensures { Flagged op flag self.old self.new }
    {
        match op {
            CpuOp::Open { key, .. } | CpuOp::Close { key } | CpuOp::Trim { key, .. } => {
                self.flags[key as usize] = flag;
            }
            CpuOp::Split { key, parts, first } => self.set_split(key, parts, first, flag),
            CpuOp::Swap { one, two } => {
                self.flags[one as usize] = flag;
                self.flags[two as usize] = flag;
            }
            CpuOp::Enter { .. } | CpuOp::Leave { .. } => {}
        }
    }

    fn set_split(&mut self, key: u32, parts: u32, first: u32, flag: bool)
        requires keys { KeysFit (CpuOp.Split key parts first) }
        requires all { length self.old ≡ KEY_END }
        ensures { Flagged (CpuOp.Split key parts first) flag self.old self.new }
    {
        self.flags[key as usize] = flag;
        set_from(self.flags.as_mut_slice(), first, first + (parts - 1), flag);
    }
}

/// Sets the flags of the keys from `first` up to, and without, `end`.
fn set_from(flags: &mut [bool], first: u32, end: u32, flag: bool)
    requires order { first ≤ end }
    requires within { end ≤ length flags.old }
    ensures { FlaggedFrom first end flag flags.old flags.new }
{
    for key in first..end {
        flags[key as usize] = flag;
    }
}
