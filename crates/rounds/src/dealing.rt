//! A round begins: its keys are dealt, and its CPUs come into the modules.

ghost use Rattle.std.specs.Prelude.{◌≡◌, ◌<◌, [], All, IfOk, OnOk, length, map, not};
ghost use Rattle.tag_rule.specs.Shown.{Board};
ghost use Rattle.trace_play.specs.Alone.{kept};
ghost use Rattle.round_keys.specs.Handed.{handed, is_handed, with_lives};
ghost use Rattle.round_worker.specs.Kept.{live_of};
ghost use Rattle.round_worker.specs.Parting.{AreKept};
ghost use Rattle.round_worker.specs.Shown.{WorkerShown};
ghost use Rattle.standing.specs.Turning.{knowing};
ghost use Rattle.rounds.specs.Turns.{Begins, IsDealt, IsFirst, Turn};

use crate::Desk;
use lanes::by_cpu;
use module_area::Entry;
use reclaim::Locked;
use round_keys::KeyStore;
use round_modules::{begin, unload_known};
use round_worker::Worker;
use std::alloc::{AllocError, Global};
use trace::OnOp;

/// A desk as a round's lanes begin, with the ops of each, and the modules as the round leaves them.
#[derive(Drop)]
pub(crate) struct Dealt {
    pub desk: Desk,
    pub lanes: Vec<Vec<OnOp>>,
    pub known: Vec<Entry>,
}

impl Desk {
    /// Deals the keys of a round's ops, and lets each CPU into the modules that stay loaded.
    pub(crate) fn deal(self, ops: &[OnOp]) -> Result<Dealt, AllocError>
        requires { Begins ops.now self }
        ensures { (t : Turn) → t.ops ≡ ops.now → IsFirst t self → IfOk result (IsDealt t) }
    {
        let mut desk = self;
        let inside = desk.workers.len();
        let lanes = by_cpu(desk.alloc, inside as u32, ops)?;
        let mut known = entries_of(desk.alloc, &desk.locked)?;
        equip(
            &mut desk.keys,
            ops,
            desk.workers.as_mut_slice(),
            known.as_slice(),
        )?;
        unload_known(ops, known.as_mut_slice());
        begin(
            &mut desk.locked,
            &mut desk.pass,
            desk.cpus.as_mut_slice(),
            inside,
            known.as_slice(),
        );
        Ok(Dealt { desk, lanes, known })
    }
}

// Hands the workers the keys that their ops name, and tells them the modules.
fn equip(
    keys: &mut KeyStore,
    ops: &[OnOp],
    workers: &mut [Worker],
    modules: &[Entry],
) -> Result<(), AllocError>
    requires cpus { All (λ on. on.cpu < length workers.old) ops.now }
    requires none { All (λ (w : WorkerShown). w.live ≡ []) workers.old }
    requires kept { All (λ (w : WorkerShown). AreKept w.board keys.old) workers.old }
    ensures workers { OnOk result (workers.new ≡ map (knowing modules.now) (with_lives (λ cpu. kept (handed ops.now cpu) (live_of keys.old)) workers.old)) }
    ensures rest { OnOk result (live_of keys.new ≡ kept (λ key. not (is_handed ops.now key)) (live_of keys.old)) }
    ensures still { (board : Board) → AreKept board keys.old → OnOk result (AreKept board keys.new) }
{
    keys.hand_out(ops, workers)?;
    tell_all(workers, modules)
}

// The entries of the book.
fn entries_of(alloc: Global, locked: &Locked) -> Result<Vec<Entry>, AllocError>
    ensures { IfOk result (λ entries. entries.items ≡ locked.now.area.entries) }
{
    let book = locked.book();
    let mut entries = Vec::new(alloc);
    for place in 0..book.count() {
        entries.push(book.at(place))?;
    }
    Ok(entries)
}

// Tells each worker the modules.
fn tell_all(workers: &mut [Worker], modules: &[Entry]) -> Result<(), AllocError>
    ensures { OnOk result (workers.new ≡ map (knowing modules.now) workers.old) }
{
    for worker in workers.iter_mut() {
        worker.know(modules)?;
    }
    Ok(())
}
