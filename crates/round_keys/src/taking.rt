//! Keys come back from the workers.

ghost use Rattle.std.specs.Prelude.{◌≡◌, All, OnOk, fold, map};
ghost use Rattle.tag_rule.specs.Shown.{Board};
ghost use Rattle.trace_play.specs.Alone.{put_all};
ghost use Rattle.round_worker.specs.Kept.{live_of};
ghost use Rattle.round_worker.specs.Parting.{AreKept};
ghost use Rattle.round_worker.specs.Shown.{WorkerShown};
ghost use Rattle.round_keys.specs.Handed.{without_live};

use crate::KeyStore;
use round_worker::{Keys, Worker};
use std::alloc::AllocError;

impl KeyStore {
    /// Takes all keys back.
    pub fn take_back(&mut self, workers: &mut [Worker]) -> Result<(), AllocError>
        ensures store { OnOk result (live_of self.new ≡ fold (λ into (w : WorkerShown). put_all into w.live) (live_of self.old) workers.old) }
        ensures workers { OnOk result (workers.new ≡ map without_live workers.old) }
        ensures still { (board : Board) → AreKept board self.old → All (λ (w : WorkerShown). w.board ≡ board) workers.old → OnOk result (AreKept board self.new) }
    {
        for worker in workers.iter_mut() {
            self.take_from(worker)?;
        }
        Ok(())
    }

    // Takes back what a worker has.
    fn take_from(&mut self, worker: &mut Worker) -> Result<(), AllocError>
        ensures store { OnOk result (live_of self.new ≡ put_all (live_of self.old) worker.old.live) }
        ensures worker { worker.new ≡ without_live worker.old }
        ensures still { AreKept worker.old.board self.old → OnOk result (AreKept worker.old.board self.new) }
    {
        let keys = worker.give_keys();
        self.take_all(keys)
    }

    fn take_all(&mut self, keys: Keys) -> Result<(), AllocError>
        ensures store { OnOk result (live_of self.new ≡ put_all (live_of self.old) (live_of keys)) }
        ensures still { (board : Board) → AreKept board self.old → AreKept board keys → OnOk result (AreKept board self.new) }
    {
        self.tell();
        for (key, kept) in keys.into_entries() {
            self.put(key, kept)?;
        }
        Ok(())
    }
}
