//! The worker of a CPU, and its hooks.

ghost use Rattle.std.specs.List.{find};
ghost use Rattle.std.specs.Prelude.{◌≡◌, ◌==◌, ◌^◌, ◌<◌, [], IfOk, None, OnOk, if◌then◌else◌};
ghost use Rattle.module_area.specs.Entries.{is_loaded_as};
ghost use Rattle.trace.specs.declared.traces.TraceOp.TheVariants as op;
ghost use Rattle.trace_play.specs.Worker as meant;
ghost use Rattle.trace_play.specs.Worker.{done, tag_in};
ghost use Rattle.trace_play.specs.Fitting.{HookFits};
ghost use Rattle.round_worker.specs.Shown.{at_start, may_count, with_state};
ghost use Rattle.slab_cache.specs.Shown.{Stands};
ghost use Rattle.round_worker.specs.Working.{shown};

use crate::hooks::Hooks;
use crate::keys::Keys;
use module_area::{Entry, State};
use page_ext::Returned;
use slab_cache::{Back, SlabNode};
use std::alloc::{AllocError, Global};
use std::marker::Model;
use tag_model::Tag;
use tag_rule::CpuSeat;

/// Storage that was freed here and is of another CPU's node, on its way there.
#[derive(Drop)]
pub enum Going {
    Block(Returned),
    Object(Back),
}

/// The worker of a CPU: its node, its hooks, what its keys are bound to, what is on its way home, and the modules that it
/// knows.
#[derive(Drop)]
pub struct Worker {
    pub(crate) alloc: Global,
    pub(crate) node: SlabNode,
    // How many frames the node has.
    pub(crate) frames: u32,
    pub(crate) hooks: Hooks,
    pub(crate) keys: Keys,
    pub(crate) returning: Vec<Going>,
    pub(crate) entries: Vec<Entry>,
    // How many ops the CPU has begun.
    pub(crate) begun: u64,
    pub(crate) failed: u64,
    pub(crate) uncounted: u64,
}

impl Model for Worker {
    ghost use Rattle.round_worker.specs.Shown.{WorkerShown};
    ghost use Rattle.round_worker.specs.Working.{IsWorker, shown};

    ghost Value = { WorkerShown };

    ghost view = { λ worker. shown worker.node worker.hooks worker.keys worker.returning.items worker.entries.items worker.failed worker.uncounted };

    ghost invariant = { λ worker. IsWorker worker.frames worker.node worker.hooks worker.keys worker.returning.items };
}

impl Worker {
    /// A worker with no key and no hook, which knows no module.
    pub fn new(alloc: Global, node: SlabNode) -> Result<Worker, AllocError>
        requires { Stands node }
        ensures { IfOk result (λ worker. worker ≡ shown node [] [] [] [] 0 0) }
    {
        let mut node = node;
        let frames = node.node_mut().frames();
        Ok(Worker {
            alloc,
            node,
            frames,
            hooks: Hooks::new(alloc)?,
            keys: Keys::new(alloc),
            returning: Vec::new(alloc),
            entries: Vec::new(alloc),
            begun: 0,
            failed: 0,
            uncounted: 0,
        })
    }

    // The tag of a section by its index: the kernel's, or that of a loaded module.
    fn tag_in(&self, section: u32, index: u32) -> Tag
        requires { (tag_in self.now.entries section index).number < 2 ^ 32 }
        ensures { result ≡ tag_in self.now.entries section index }
    {
        tag_from(index, module_in(&self.entries, section))
    }

    pub(crate) fn hook(&mut self, cpu: &CpuSeat, section: u32, index: u32) -> Result<(), AllocError>
        requires { HookFits (may_count cpu.now) self.old.entries (op.Hook section index) (at_start self.old) }
        ensures { OnOk result (self.new ≡ with_state (done self.old.entries (op.Hook section index) (at_start self.old)) self.old) }
    {
        cpu.tell();
        let tag = self.tag_in(section, index);
        self.hooks.put_out(tag)
    }

    pub(crate) fn unhook(&mut self)
        ensures { self.new ≡ with_state (done self.old.entries op.Unhook (at_start self.old)) self.old }
    {
        self.hooks.take_off();
    }
}

fn tag_from(index: u32, module: Option<Entry>) -> Tag
    requires { (meant.tag_from index «module»).number < 2 ^ 32 }
    ensures { result ≡ meant.tag_from index «module» }
{
    match module {
        Some(entry) => Tag {
            number: entry.start + index,
            module: entry.id,
        },
        None => Tag {
            number: index,
            module: 0,
        },
    }
}

// The entry of the section's loaded module; the kernel has none.
fn module_in(entries: &[Entry], section: u32) -> Option<Entry>
    ensures { result ≡ (if section == 0 then None else find (is_loaded_as section) entries.now) }
{
    if section == 0 {
        return None;
    }
    loaded_in(entries, section)
}

fn loaded_in(entries: &[Entry], section: u32) -> Option<Entry>
    ensures { result ≡ find (is_loaded_as section) entries.now }
{
    entries
        .iter()
        .copied()
        .find(|entry| is_loaded_as(*entry, section))
}

fn is_loaded_as(entry: Entry, section: u32) -> bool
    ensures { result ≡ is_loaded_as section entry }
{
    match entry.state {
        State::Loaded => entry.section == section,
        State::Dead => false,
    }
}
