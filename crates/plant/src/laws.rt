//! Laws of what a run begins with. The functions do nothing: what they promise are laws of the definitions.

ghost use Rattle.std.specs.Prelude.{◌≡◌, map};
ghost use Rattle.tag_rule.specs.Shown.{Board};
ghost use Rattle.trace.specs.declared.traces.Trace.{Trace};
ghost use Rattle.trace_play.specs.Machine.{machine_of};
ghost use Rattle.round_worker.specs.Shown.{WorkerShown};
ghost use Rattle.plant.specs.Fresh.{fresh_workers};

/// The workers have what the meaning's CPUs have before the first line.
pub fn workers_begin_as_the_meaning_does()
    ensures { (board : Board) (trace : Trace) → map (λ (w : WorkerShown). w.seat) (fresh_workers board trace.frames trace.vectors trace.cpus) ≡ (machine_of trace).seats }
{}
