//! The lanes of a round run, and storage goes home.

ghost use Rattle.std.specs.Prelude.{◌≡◌, IfOk, OnOk, map};
ghost use Rattle.lanes.specs.Lanes.{AreDone, AreReady};
ghost use Rattle.rounds.specs.TurnParts.{AreDealt, AreTurned, SomeDealt};
ghost use Rattle.rounds.specs.Turns.{IsAt, IsDealt, IsTurned, Turn};

use crate::Desk;
use crate::dealing::Dealt;
use homing::bring_home;
use lanes::run_lanes;
use module_area::Entry;
use reclaim::{Locked, ModuleList};
use round_worker::{Gate, Worker};
use std::alloc::AllocError;
use std::marker::Brand;
use std::sync::Wait;
use std::thread::Threads;
use tag_rule::{CpuSeat, Name};
use trace::OnOp;

/// A desk behind a round's lanes, with the modules as the round leaves them.
#[derive(Drop)]
pub(crate) struct Turned {
    pub desk: Desk,
    pub known: Vec<Entry>,
}

impl Dealt {
    /// Each worker takes its lane beside the others; then storage goes home.
    pub(crate) fn turn<R: Threads + Wait + Sync, G: Gate + Sync>(
        self,
        rt: &R,
        gate: &G,
    ) -> Result<Turned, AllocError>
        requires { IsAt IsDealt self }
        ensures { (t : Turn) → IsDealt t self → IfOk result (IsTurned t) }
    {
        let Dealt {
            mut desk,
            lanes,
            known,
        } = self;
        desk.locked = turn_lanes(
            rt,
            gate,
            desk.locked,
            lanes.as_slice(),
            desk.workers.as_mut_slice(),
            desk.cpus.as_mut_slice(),
        )?;
        Ok(Turned { desk, known })
    }
}

// The lanes run, each on the CPU of its worker, and storage goes home.
fn turn_lanes<R: Threads + Wait + Sync, G: Gate + Sync>(
    rt: &R,
    gate: &G,
    locked: Locked,
    lanes: &[Vec<OnOp>],
    workers: &mut [Worker],
    cpus: &mut [CpuSeat],
) -> Result<Locked, AllocError>
    requires dealt { SomeDealt (map (λ lane. lane.items) lanes.now) workers.old cpus.old }
    ensures board { IfOk result (λ after. after.board ≡ locked.board) }
    ensures turned { (t : Turn) → AreDealt t (map (λ lane. lane.items) lanes.now) workers.old cpus.old → OnOk result (AreTurned t workers.new cpus.old cpus.new) }
{
    let first = &mut cpus[..workers.len()];
    let locked = run_named::<Brand, R, G>(rt, locked, gate, lanes, workers, first)?;
    bring_home(workers, first);
    Ok(locked)
}

// The lanes run with the module list behind its lock, of a table that has a name.
fn run_named<N: Name + Send + Sync, R: Threads + Wait + Sync, G: Gate + Sync>(
    rt: &R,
    locked: Locked,
    gate: &G,
    lanes: &[Vec<OnOp>],
    workers: &mut [Worker],
    cpus: &mut [CpuSeat],
) -> Result<Locked, AllocError>
    requires named { locked.board ≡ N.board }
    requires ready { AreReady (map (λ lane. lane.items) lanes.now) workers.old cpus.old }
    ensures board { IfOk result (λ after. after.board ≡ locked.board) }
    ensures done { OnOk result (AreDone (map (λ lane. lane.items) lanes.now) workers.old workers.new cpus.old cpus.new) }
{
    let list: ModuleList<N> = ModuleList::new(locked);
    run_lanes(rt, &list, gate, lanes, workers, cpus)?;
    Ok(list.into_locked())
}
