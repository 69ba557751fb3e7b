//! Keys go to the workers.

ghost use Rattle.std.specs.Prelude.{◌≡◌, ℕ, ◌<◌, [], All, IsTrue, List, OnOk, Option, length, not};
ghost use Rattle.std.specs.FinMap.Entries.{is_sorted};
ghost use Rattle.std.specs.Ordering.{nat_cmp};
ghost use Rattle.tag_rule.specs.Shown.{Board};
ghost use Rattle.trace_play.specs.Alone.{kept, rises};
ghost use Rattle.trace_play.specs.Live.{Live};
ghost use Rattle.round_worker.specs.Kept.{live_of};
ghost use Rattle.round_worker.specs.Parting.{AreKept};
ghost use Rattle.round_worker.specs.Shown.{WorkerShown};
ghost use Rattle.round_keys.specs.Handed.{handed, is_handed, with_lives};
ghost use Rattle.round_keys.specs.Handing.{HandedSo, with_key, with_op};

use crate::KeyStore;
use round_worker::Worker;
use std::alloc::AllocError;
use trace::{OnOp, TraceOp};

impl KeyStore {
    /// Hands each worker the keys that its ops name.
    pub fn hand_out(&mut self, ops: &[OnOp], workers: &mut [Worker]) -> Result<(), AllocError>
        requires cpus { All (λ on. on.cpu < length workers.old) ops.now }
        requires none { All (λ (w : WorkerShown). w.live ≡ []) workers.old }
        requires kept { All (λ (w : WorkerShown). AreKept w.board self.old) workers.old }
        ensures workers { OnOk result (workers.new ≡ with_lives (λ cpu. kept (handed ops.now cpu) (live_of self.old)) workers.old) }
        ensures rest { OnOk result (live_of self.new ≡ kept (λ key. not (is_handed ops.now key)) (live_of self.old)) }
        ensures still { (board : Board) → AreKept board self.old → AreKept board self.new }
    {
        self.tell();
        for on in ops {
            self.hand_op(on.op, on.cpu, workers)?;
        }
        Ok(())
    }

    // Hands the worker of the CPU the keys that the op names.
    fn hand_op(&mut self, op: TraceOp, cpu: u32, workers: &mut [Worker]) -> Result<(), AllocError>
        requires cpu { cpu < length workers.old }
        requires kept { All (λ (w : WorkerShown). AreKept w.board self.old) workers.old }
        ensures handed { (who : ℕ → Option ℕ) (live : Live) (from : List WorkerShown) → IsTrue (rises live) → HandedSo who live from self.old workers.old → OnOk result (HandedSo (with_op op cpu who) live from self.new workers.new) }
        ensures kept { OnOk result (All (λ (w : WorkerShown). AreKept w.board self.new) workers.new) }
        ensures still { (board : Board) → AreKept board self.old → AreKept board self.new }
    {
        match op {
            TraceOp::Page { key, .. } => self.hand_key(key, cpu, workers),
            TraceOp::Kmalloc { key, .. } => self.hand_key(key, cpu, workers),
            TraceOp::Free { key } => self.hand_key(key, cpu, workers),
            TraceOp::Split { key, .. } => self.hand_key(key, cpu, workers),
            TraceOp::Swap { one, two } => {
                self.hand_key(one, cpu, workers)?;
                self.hand_key(two, cpu, workers)
            }
            TraceOp::Trim { key, .. } => self.hand_key(key, cpu, workers),
            TraceOp::Hook { .. } => Ok(()),
            TraceOp::Unhook => Ok(()),
            TraceOp::Enter { .. } => Ok(()),
            TraceOp::Leave { .. } => Ok(()),
            TraceOp::Unload { .. } => Ok(()),
        }
    }

    // Hands the worker of the CPU a key, if it is here.
    fn hand_key(&mut self, key: u32, cpu: u32, workers: &mut [Worker]) -> Result<(), AllocError>
        requires cpu { cpu < length workers.old }
        requires kept { All (λ (w : WorkerShown). AreKept w.board self.old) workers.old }
        ensures handed { (who : ℕ → Option ℕ) (live : Live) (from : List WorkerShown) → IsTrue (rises live) → HandedSo who live from self.old workers.old → OnOk result (HandedSo (with_key key cpu who) live from self.new workers.new) }
        ensures kept { OnOk result (All (λ (w : WorkerShown). AreKept w.board self.new) workers.new) }
        ensures still { (board : Board) → AreKept board self.old → AreKept board self.new }
    {
        match self.take(key) {
            Some(kept) => {
                let worker = &mut workers[cpu as usize];
                worker.put(key, kept)
            }
            None => Ok(()),
        }
    }
}
