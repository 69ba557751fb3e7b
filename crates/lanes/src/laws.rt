//! Laws of lanes. The functions do nothing: what they promise are laws of the definitions.

ghost use Rattle.std.specs.Prelude.{ℕ, ◌≡◌, ◌↔◌, List, map};
ghost use Rattle.std.specs.List.{range_with_len};
ghost use Rattle.tag_rule.specs.Shown.{CpuShown};
ghost use Rattle.trace.specs.declared.traces.OnOp.{OnOp};
ghost use Rattle.trace_play.specs.Barrier.{ops_of};
ghost use Rattle.round_worker.specs.Shown.{WorkerShown};
ghost use Rattle.lanes.specs.Lanes.{AreDone, AreReady, lanes_of};
ghost use Rattle.lanes.specs.Numbered.{AllDone, AllReady};

/// The ops of the lanes are those that the meaning of a round gives each CPU.
pub fn lanes_have_the_ops_of_their_cpus()
    ensures { (count : ℕ) (ops : List OnOp) → map (λ (lane : List OnOp). map (λ on. on.op) lane) (lanes_of count ops) ≡ map (λ cpu. ops_of cpu ops) (range_with_len 0 count) }
{}

/// Lanes are ready, and done, where each is, by its number.
pub fn lanes_go_by_number()
    ensures ready { (lanes : List (List OnOp)) (workers : List WorkerShown) (cpus : List CpuShown) → AreReady lanes workers cpus ↔ AllReady lanes workers cpus }
    ensures done { (lanes : List (List OnOp)) (workers : List WorkerShown) (workers_after : List WorkerShown) (cpus : List CpuShown) (cpus_after : List CpuShown) → AreDone lanes workers workers_after cpus cpus_after ↔ AllDone lanes workers workers_after cpus cpus_after }
{}
