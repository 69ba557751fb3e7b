//! Lanes that run side by side.

ghost use Rattle.std.specs.Prelude.{◌≡◌, ◌==◌, ◌<◌, OnOk, length, map, vec_len};
ghost use Rattle.std.specs.List.{list_all};
ghost use Rattle.std.specs.Thread.{IsSend, IsSync};
ghost use Rattle.lanes.specs.Lanes.{AreDone, AreReady, IsLaneDone, IsLaneReady};

use reclaim::ModuleList;
use round_worker::{Gate, Worker};
use std::alloc::AllocError;
use std::sync::Wait;
use std::thread::{Threads, join_mut};
use tag_rule::{CpuSeat, Name};
use trace::OnOp;

/// Each worker takes the ops of its lane, on its CPU, beside the others. A lane with no op gets no thread: where one half of
/// the lanes has no op, the other runs in this thread.
#[cycle(side_by_side)]
pub fn run_lanes<R: Threads + Wait + Sync, N: Name + Send + Sync, G: Gate + Sync>(
    rt: &R,
    list: &ModuleList<N>,
    gate: &G,
    ops: &[Vec<OnOp>],
    workers: &mut [Worker],
    cpus: &mut [CpuSeat],
) -> Result<(), AllocError>
    requires ready { AreReady (map (λ lane. lane.items) ops.now) workers.old cpus.old }
    ensures done { OnOk result (AreDone (map (λ lane. lane.items) ops.now) workers.old workers.new cpus.old cpus.new) }
{
    if are_idle(ops) {
        return Ok(());
    }
    if ops.len() < 2 {
        return run_lane(rt, list, gate, &ops[0], &mut workers[0], &mut cpus[0]);
    }
    let half = ops.len() / 2;
    let (low_ops, high_ops) = ops.split_at(half);
    let (low, high) = workers.split_at_mut(half);
    let (low_cpus, high_cpus) = cpus.split_at_mut(half);
    if are_idle(low_ops) {
        return run_lanes(rt, list, gate, high_ops, high, high_cpus);
    }
    if are_idle(high_ops) {
        return run_lanes(rt, list, gate, low_ops, low, low_cpus);
    }
    join_halves(
        rt, list, gate, low_ops, high_ops, low, high, low_cpus, high_cpus,
    )
}

// Both halves, one beside the other.
#[cycle(side_by_side)]
fn join_halves<R: Threads + Wait + Sync, N: Name + Send + Sync, G: Gate + Sync>(
    rt: &R,
    list: &ModuleList<N>,
    gate: &G,
    low_ops: &[Vec<OnOp>],
    high_ops: &[Vec<OnOp>],
    low: &mut [Worker],
    high: &mut [Worker],
    low_cpus: &mut [CpuSeat],
    high_cpus: &mut [CpuSeat],
) -> Result<(), AllocError>
    requires some { (0 < length low_ops.now) × (0 < length high_ops.now) }
    requires low { AreReady (map (λ lane. lane.items) low_ops.now) low.old low_cpus.old }
    requires high { AreReady (map (λ lane. lane.items) high_ops.now) high.old high_cpus.old }
    ensures low { OnOk result (AreDone (map (λ lane. lane.items) low_ops.now) low.old low.new low_cpus.old low_cpus.new) }
    ensures high { OnOk result (AreDone (map (λ lane. lane.items) high_ops.now) high.old high.new high_cpus.old high_cpus.new) }
{
    let mut one = || -> Result<(), AllocError>
        requires { IsSync R.row × IsSync N.row × IsSend N.row × IsSync G.row × (0 < length low_ops.now) × AreReady (map (λ lane. lane.items) low_ops.now) low.now low_cpus.now }
        ensures { OnOk result (AreDone (map (λ lane. lane.items) low_ops.entry.now) low.entry.now low.exit.now low_cpus.entry.now low_cpus.exit.now) }
    { run_lanes(rt, list, gate, low_ops, low, low_cpus) };
    let mut other = || -> Result<(), AllocError>
        requires { IsSync R.row × IsSync N.row × IsSend N.row × IsSync G.row × (0 < length high_ops.now) × AreReady (map (λ lane. lane.items) high_ops.now) high.now high_cpus.now }
        ensures { OnOk result (AreDone (map (λ lane. lane.items) high_ops.entry.now) high.entry.now high.exit.now high_cpus.entry.now high_cpus.exit.now) }
    { run_lanes(rt, list, gate, high_ops, high, high_cpus) };
    let (first, second) = join_mut(rt, &mut one, &mut other);
    first?;
    second
}

// Whether no lane has an op.
fn are_idle(ops: &[Vec<OnOp>]) -> bool
    ensures { result ≡ list_all (λ lane. vec_len lane == 0) ops.now }
{
    ops.iter().all(|lane| lane.is_empty())
}

// One lane, in this thread.
fn run_lane<R: Wait, N: Name, G: Gate + Sync>(
    rt: &R,
    list: &ModuleList<N>,
    gate: &G,
    ops: &Vec<OnOp>,
    worker: &mut Worker,
    cpu: &mut CpuSeat,
) -> Result<(), AllocError>
    requires ready { IsLaneReady ops.now.items worker.old cpu.old }
    ensures done { OnOk result (IsLaneDone ops.now.items worker.old worker.new cpu.old cpu.new) }
{
    if ops.is_empty() {
        return Ok(());
    }
    worker.round(rt, cpu, list, gate, ops)
}
