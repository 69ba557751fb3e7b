//! The check of a trace's rounds.

ghost use Rattle.std.specs.Prelude.{◌≡◌, ◌+◌, ◌<◌, ◌≤◌, length, All, IfOk};
ghost use Rattle.input_form.specs.Judging.{Leaves, Reads};
ghost use Rattle.trace.specs.Formed.{IsFormedTrace};
ghost use Rattle.round_check.specs.Formed.{FitsOp, FitsOn, FitsItem};
ghost use Rattle.round_check.specs.Walk.{start, moved, enter_module, leave_module, unload_module, hook_tag, unhook_tag, load_module, walk_op, walk_ops, walk_item, walk_items, rounds_of, LeavesAll};

use crate::cpus::CpuTable;
use crate::key_checks::{give_key, pages_of, split_key, swap_keys, take_key, trim_key};
use crate::keys::{Block, Bound, KeyTable, Turn, unbound_keys};
use crate::modules::{ModuleTable, absent_modules};
use input_form::{Code, LineError, TextError, error_at, need};
use std::alloc::{AllocError, Global};
use trace::{Item, OnOp, Trace, TraceOp};

/// What the lines so far leave, and the number of rounds so far.
#[derive(Debug, Drop)]
pub struct Walk {
    pub keys: KeyTable,
    pub modules: ModuleTable,
    pub cpus: CpuTable,
    pub round: u32,
}

/// The most hooks that are out on a CPU.
const HOOK_LIMIT: usize = 16;

fn start(alloc: Global) -> Result<Walk, AllocError>
    ensures { IfOk result (λ walk. walk ≡ start) }
{
    Ok(Walk {
        keys: unbound_keys(alloc)?,
        modules: absent_modules(alloc)?,
        cpus: CpuTable::new(alloc)?,
        round: 0,
    })
}

fn moved(walk: &mut Walk, section: u32)
    requires { section < 65 }
    ensures moved { walk.new ≡ moved walk.old section }
    ensures round { walk.new.round ≡ walk.old.round }
{
    let mut state = walk.modules.at(section);
    state.moved = walk.round;
    walk.modules.set(section, state);
}

#[tactic(auto, unfolding(crate::specs::Walk::enter_module))]
fn enter_module(walk: &mut Walk, cpu: u32, section: u32) -> Result<(), LineError>
    requires cpu { cpu < 64 }
    requires section { section < 65 }
    ensures judged { Leaves result walk.new (enter_module walk.old cpu section) }
    ensures round { walk.new.round ≡ walk.old.round }
{
    let state = walk.modules.at(section);
    need(state.unloaded != walk.round, Code::UnloadShared(section))?;
    need(state.loaded, Code::NotLoaded(section))?;
    need(!walk.cpus.is_inside(cpu, section), Code::Inside(section))?;
    moved(walk, section);
    walk.cpus.enter(cpu, section)?;
    Ok(())
}

#[tactic(auto, unfolding(crate::specs::Walk::leave_module))]
fn leave_module(walk: &mut Walk, cpu: u32, section: u32) -> Result<(), LineError>
    requires cpu { cpu < 64 }
    requires section { section < 65 }
    ensures judged { Leaves result walk.new (leave_module walk.old cpu section) }
    ensures round { walk.new.round ≡ walk.old.round }
{
    let state = walk.modules.at(section);
    need(state.unloaded != walk.round, Code::UnloadShared(section))?;
    need(walk.cpus.is_inside(cpu, section), Code::NotInside(section))?;
    need(!walk.cpus.is_hooked(cpu, section), Code::Hooked(section))?;
    moved(walk, section);
    walk.cpus.leave(cpu, section);
    Ok(())
}

#[tactic(auto, unfolding(crate::specs::Walk::unload_module))]
fn unload_module(walk: &mut Walk, section: u32) -> Result<(), LineError>
    requires { section < 65 }
    ensures judged { Leaves result walk.new (unload_module walk.old section) }
    ensures round { walk.new.round ≡ walk.old.round }
{
    let mut state = walk.modules.at(section);
    let shared = state.moved == walk.round || state.unloaded == walk.round;
    need(!shared, Code::UnloadShared(section))?;
    need(state.loaded, Code::NotLoaded(section))?;
    let users = walk.cpus.users(section);
    need(users == 0, Code::Busy(users))?;
    state.loaded = false;
    state.unloaded = walk.round;
    walk.modules.set(section, state);
    Ok(())
}

#[tactic(auto, unfolding(crate::specs::Walk::hook_tag))]
fn hook_tag(walk: &mut Walk, cpu: u32, section: u32) -> Result<(), LineError>
    requires { cpu < 64 }
    ensures judged { Leaves result walk.new (hook_tag walk.old cpu section) }
    ensures round { walk.new.round ≡ walk.old.round }
{
    need(
        section == 0 || walk.cpus.is_inside(cpu, section),
        Code::NotInside(section),
    )?;
    need(walk.cpus.hooks_out(cpu) < HOOK_LIMIT, Code::Deep)?;
    walk.cpus.hook(cpu, section)?;
    Ok(())
}

#[tactic(auto, unfolding(crate::specs::Walk::unhook_tag))]
fn unhook_tag(walk: &mut Walk, cpu: u32) -> Result<(), LineError>
    requires { cpu < 64 }
    ensures judged { Leaves result walk.new (unhook_tag walk.old cpu) }
    ensures round { walk.new.round ≡ walk.old.round }
{
    need(walk.cpus.hooks_out(cpu) > 0, Code::NoHook)?;
    walk.cpus.unhook(cpu);
    Ok(())
}

#[tactic(auto, unfolding(crate::specs::Walk::load_module))]
fn load_module(walk: &mut Walk, section: u32) -> Result<(), LineError>
    requires { section < 65 }
    ensures judged { Leaves result walk.new (load_module walk.old section) }
    ensures round { walk.new.round ≡ walk.old.round }
{
    let mut state = walk.modules.at(section);
    need(!state.loaded, Code::AlreadyLoaded(section))?;
    state.loaded = true;
    walk.modules.set(section, state);
    Ok(())
}

// An op of a CPU.
#[tactic(auto, unfolding(crate::specs::Walk::walk_op))]
fn walk_op(walk: &mut Walk, cpu: u32, op: TraceOp) -> Result<(), LineError>
    requires cpu { cpu < 64 }
    requires op { FitsOp op }
    ensures judged { Leaves result walk.new (walk_op cpu op walk.old) }
    ensures round { walk.new.round ≡ walk.old.round }
{
    let turn = Turn {
        round: walk.round,
        cpu,
    };
    match op {
        TraceOp::Page { key, order } => {
            let block = Block {
                order,
                pages: pages_of(order),
                trimmed: false,
            };
            take_key(&mut walk.keys, turn, key, Bound::Block(block))?;
            Ok(())
        }
        TraceOp::Kmalloc { key, .. } => {
            take_key(&mut walk.keys, turn, key, Bound::Object)?;
            Ok(())
        }
        TraceOp::Free { key } => {
            give_key(&mut walk.keys, turn, key)?;
            Ok(())
        }
        TraceOp::Split { key, order, first } => {
            split_key(&mut walk.keys, turn, key, order, first)?;
            Ok(())
        }
        TraceOp::Swap { one, two } => {
            swap_keys(&mut walk.keys, turn, one, two)?;
            Ok(())
        }
        TraceOp::Trim { key, pages } => {
            trim_key(&mut walk.keys, turn, key, pages)?;
            Ok(())
        }
        TraceOp::Hook { section, .. } => hook_tag(walk, cpu, section),
        TraceOp::Unhook => unhook_tag(walk, cpu),
        TraceOp::Enter { section } => enter_module(walk, cpu, section),
        TraceOp::Leave { section } => leave_module(walk, cpu, section),
        TraceOp::Unload { section } => unload_module(walk, section),
    }
}

// The ops of a round, in the order of their lines.
fn walk_ops(walk: &mut Walk, ops: &[OnOp]) -> Result<(), TextError>
    requires { All FitsOn ops.now }
    ensures judged { LeavesAll result walk.new (walk_ops ops.now walk.old) }
    ensures round { walk.new.round ≡ walk.old.round }
{
    for on in ops {
        if let Err(error) = walk_op(walk, on.cpu, on.op) {
            return Err(error_at(on.line, error));
        }
    }
    Ok(())
}

#[tactic(auto, unfolding(crate::specs::Walk::walk_item))]
fn walk_item(walk: &mut Walk, item: &Item) -> Result<(), TextError>
    requires item { FitsItem item.now }
    requires round { walk.old.round < 4294967295 }
    ensures judged { LeavesAll result walk.new (walk_item item.now walk.old) }
    ensures round { walk.new.round ≤ walk.old.round + 1 }
{
    match item {
        Item::Round { ops } => {
            walk.round += 1;
            walk_ops(walk, ops.as_slice())
        }
        Item::Load { line, section } => match load_module(walk, *section) {
            Ok(()) => Ok(()),
            Err(error) => Err(error_at(*line, error)),
        },
        Item::Print | Item::Areas => Ok(()),
    }
}

fn walk_items(walk: &mut Walk, items: &[Item]) -> Result<(), TextError>
    requires items { All FitsItem items.now }
    requires few { walk.old.round + length items.now < 4294967296 }
    ensures { LeavesAll result walk.new (walk_items items.now walk.old) }
{
    for item in items {
        walk_item(walk, item)?;
    }
    Ok(())
}

/// Whether the rounds of a trace may run: no two CPUs name one key in a round, and each line finds its keys, modules
/// and hooks as it needs them. Refuses the first line that does not.
#[tactic(auto, unfolding(crate::specs::Walk::rounds_of))]
pub fn check_rounds(alloc: Global, trace: &Trace) -> Result<(), TextError>
    requires { IsFormedTrace trace.now }
    ensures { Reads result (rounds_of trace.now) }
{
    let mut walk = match start(alloc) {
        Ok(walk) => walk,
        Err(error) => return Err(TextError::Memory(error)),
    };
    walk_items(&mut walk, trace.body.as_slice())
}
