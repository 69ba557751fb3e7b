//! Laws of the keys of a round. The functions do nothing: what they promise are laws of the definitions.

ghost use Rattle.std.specs.Prelude.{◌≡◌, ◌<◌, ℕ, List, None, Ok, Option, fold, length, map, not};
ghost use Rattle.std.specs.List.{range_with_len};
ghost use Rattle.round_check.specs.Rounds.{IsRound};
ghost use Rattle.round_check.specs.Walk.{rounds_of, walk_ops};
ghost use Rattle.round_check.specs.declared.walk.Walk.{Walk};
ghost use Rattle.trace.specs.Formed.{IsFormedTrace};
ghost use Rattle.trace.specs.declared.traces.OnOp.{OnOp};
ghost use Rattle.trace.specs.declared.traces.Trace.{Trace};
ghost use Rattle.trace_play.specs.Alone.{kept, put_all, worker_done};
ghost use Rattle.trace_play.specs.Barrier.{cpus_done};
ghost use Rattle.trace_play.specs.Fits.{is_owner};
ghost use Rattle.trace_play.specs.Play.{played_so_far};
ghost use Rattle.round_keys.specs.Handed.{handed, is_handed};

/// In each round of a checked trace, where no `load` before it was refused: of the bound keys, those that go to a CPU, since
/// the first op that names them outright is its own, are those that the round check's table gives to the CPU.
pub fn named_keys_are_the_owners()
    ensures { (trace : Trace) (top : Option ℕ) (ops : List OnOp) (before after : Walk) → IsFormedTrace trace → rounds_of trace ≡ Ok tt → (round : IsRound trace ops before)
        → (played_so_far trace top round.front).refused ≡ None → walk_ops ops before ≡ Ok after
        → let m = (played_so_far trace top round.front).played.machine in (cpu : ℕ) → kept (handed ops cpu) m.live ≡ kept (is_owner after cpu) m.live }
{}

/// What the workers have left then, each put into the keys that no op named, is what the round leaves.
pub fn keys_come_back()
    ensures { (trace : Trace) (top : Option ℕ) (ops : List OnOp) (before after : Walk) → IsFormedTrace trace → rounds_of trace ≡ Ok tt → (round : IsRound trace ops before)
        → (played_so_far trace top round.front).refused ≡ None → walk_ops ops before ≡ Ok after
        → let m = (played_so_far trace top round.front).played.machine in
        fold (λ into cpu. put_all into (worker_done (is_owner after) ops m cpu).live) (kept (λ key. not (is_handed ops key)) m.live) (range_with_len 0 (length m.seats)) ≡ (cpus_done ops m).live }
{}
