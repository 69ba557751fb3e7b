//! A round ends: keys come back, and the book is what is known.

ghost use Rattle.std.specs.List.{list_any};
ghost use Rattle.std.specs.Prelude.{◌≡◌, All, IfOk, true, ℕ};
ghost use Rattle.module_area.specs.Entries.{is_dead};
ghost use Rattle.module_area.specs.declared.entry.Entry.{Entry};
ghost use Rattle.round_keys.specs.Stored.{IsCovered};
ghost use Rattle.round_worker.specs.Parting.{AreKept};
ghost use Rattle.round_worker.specs.declared.keys.Kept as stored;
ghost use Rattle.trace_play.specs.Barrier.{round_done};
ghost use Rattle.rounds.specs.Turns.{Begins, IsAt, IsFirst, IsTurned, StandsAt, Turn, first};

use crate::Desk;
use crate::turning::Turned;
use module_area::{Entry, State};
use reclaim::Locked;
use round_keys::KeyStore;
use round_modules::end;
use round_worker::Gate;
use std::alloc::AllocError;
use std::sync::{Arc, Wait};
use std::thread::Threads;
use trace::OnOp;

impl Turned {
    /// The keys come back, the CPUs go out of the modules, and ranges go that nothing names.
    pub(crate) fn settle(self) -> Result<Desk, AllocError>
        requires { IsAt IsTurned self }
        ensures { (t : Turn) → IsTurned t self → IfOk result (StandsAt t.board t.trace (round_done t.ops (first t))) }
    {
        let Turned { mut desk, known } = self;
        let inside = desk.workers.len();
        let shared = Arc::try_clone(&desk.sections)?;
        desk.keys.take_back(desk.workers.as_mut_slice())?;
        meet_dead(&mut desk.keys, &mut desk.locked, known.as_slice());
        end(
            &mut desk.locked,
            &mut desk.pass,
            desk.cpus.as_mut_slice(),
            inside,
            known.as_slice(),
            shared,
            desk.tags,
        );
        Ok(desk)
    }
}

impl Desk {
    /// A round: each CPU's worker takes its ops beside the others, and then the barrier.
    pub fn round<R: Threads + Wait + Sync, G: Gate + Sync>(
        self,
        rt: &R,
        gate: &G,
        ops: &[OnOp],
    ) -> Result<Desk, AllocError>
        requires { Begins ops.now self }
        ensures { (t : Turn) → t.ops ≡ ops.now → IsFirst t self → IfOk result (StandsAt t.board t.trace (round_done t.ops (first t))) }
    {
        let dealt = self.deal(ops)?;
        let turned = dealt.turn(rt, gate)?;
        turned.settle()
    }
}

// Where a module is dead, each counted cell meets the list.
fn meet_dead(keys: &mut KeyStore, locked: &mut Locked, known: &[Entry])
    requires kept { AreKept locked.old.board keys.old }
    ensures same { (keys.new ≡ keys.old) × (locked.new ≡ locked.old) }
    ensures covered { list_any (λ (e : Entry). is_dead e.state) known.now ≡ true → All (λ (entry : ℕ × stored.Kept). IsCovered locked.old entry.1) keys.old }
{
    if has_dead(known) {
        keys.meet(locked);
    }
}

// Whether one of the modules is dead.
fn has_dead(known: &[Entry]) -> bool
    ensures { result ≡ list_any (λ (e : Entry). is_dead e.state) known.now }
{
    known.iter().any(|entry| is_dead(entry.state))
}

pub(crate) fn is_dead(state: State) -> bool
    ensures { result ≡ is_dead state }
{
    match state {
        State::Loaded => false,
        State::Dead => true,
    }
}
