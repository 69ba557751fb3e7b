//! The hooks that are out.

ghost use Rattle.std.specs.Prelude.{◌≡◌, ◌<◌, ◌≤◌, ◌∷◌, [], ◌↔◌, drop, Err, IfOk, length, None, OnErr, OnOk, slice_get};
ghost use Rattle.page_ext.specs.Paging.{MayCount};
ghost use Rattle.slab_cache.specs.Calls.{Gives, IsAtHome, most_bytes};
ghost use Rattle.slab_cache.specs.Shown.{state_of};
ghost use Rattle.slab_cache.specs.Giving.{given_object};

use current_tag::{Saved, Task};
use slab_cache::{Obj, ObjError, SlabNode, kmalloc};
use std::alloc::{AllocError, Global};
use std::marker::Model;
use tag_model::Tag;
use tag_rule::CpuSeat;

/// A hook that is out: its tag, and what was saved when it was put out.
#[derive(Drop)]
pub(crate) struct Hook {
    tag: Tag,
    saved: Saved,
}

/// A task with the hooks that are out.
#[derive(Drop)]
pub(crate) struct Hooks {
    pub(crate) task: Task,
    out: Vec<Hook>,
}

impl Model for Hooks {
    ghost use Rattle.std.specs.Prelude.{List, map, reverse};
    ghost use Rattle.tag_model.specs.declared.state.Tag.{Tag};
    ghost use Rattle.round_worker.specs.HooksOut.{AreHooks, tag_of};

    ghost Value = { List Tag };

    // The last one first.
    ghost view = { λ hooks. map tag_of (reverse hooks.out.items) };

    ghost invariant = { λ hooks. AreHooks hooks.task (reverse hooks.out.items) };
}

impl Hooks {
    /// No hook is out, and there is room for all.
    pub fn new(alloc: Global) -> Result<Hooks, AllocError>
        ensures { IfOk result (λ hooks. hooks ≡ []) }
    {
        let mut out = Vec::new(alloc);
        out.reserve(16)?;
        Ok(Hooks {
            task: Task::new(),
            out,
        })
    }

    /// The task: its tag is that of the last hook.
    pub fn task(&self) -> &Task
        ensures current { result.now.current ≡ slice_get self.now 0 }
        ensures depth { result.now.depth ≡ length self.now }
    {
        &self.task
    }

    /// Puts a hook out.
    pub fn put_out(&mut self, tag: Tag) -> Result<(), AllocError>
        requires { length self.old < 16 }
        ensures ok { OnOk result (self.new ≡ tag ∷ self.old) }
        ensures err { OnErr result (self.new ≡ self.old) }
    {
        self.out.reserve(1)?;
        let saved = self.task.save(tag);
        self.out.push(Hook { tag, saved }).unwrap();
        Ok(())
    }

    /// Takes the last hook off.
    pub fn take_off(&mut self)
        ensures { self.new ≡ drop 1 self.old }
    {
        if let Some(hook) = self.out.pop() {
            self.task.restore(hook.saved);
        }
    }

    /// Gives an object under the last hook.
    pub fn object(
        &mut self,
        cpu: &mut CpuSeat,
        node: &mut SlabNode,
        size: u64,
    ) -> Result<Obj, ObjError>
        requires at_home { IsAtHome cpu.old node.old }
        requires few { length self.old ≤ 16 }
        requires allowed { MayCount (slice_get self.old 0) cpu.old }
        requires some { 0 < size }
        requires small { size ≤ most_bytes }
        ensures hooks { self.new ≡ self.old }
        ensures gives { IfOk result (Gives (given_object (slice_get self.old 0) size (state_of node.old)) node.old node.new cpu.old cpu.new) }
        ensures none { OnErr result (given_object (slice_get self.old 0) size (state_of node.old) ≡ None) }
        ensures same { OnErr result ((node.new ≡ node.old) × (cpu.new ≡ cpu.old)) }
    {
        kmalloc(cpu, node, &mut self.task, size)
    }
}
