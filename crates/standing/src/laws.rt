//! Laws of the turns of a round. The functions do nothing: what they promise are laws of the definitions.

ghost use Rattle.std.specs.List.{list_any};
ghost use Rattle.std.specs.Prelude.{ℕ, List, All, Option, drop, filter, length, map, take, true, ◌++◌, ◌≡◌};
ghost use Rattle.module_area.specs.Area.{IsBook};
ghost use Rattle.module_area.specs.Entries.{is_dead};
ghost use Rattle.module_area.specs.declared.entry.Entry.{Entry};
ghost use Rattle.tag_rule.specs.Shown.{Board, CpuShown};
ghost use Rattle.reclaim.specs.Quiet.{is_unquiet};
ghost use Rattle.reclaim.specs.State.{IsNamed, LockedShown};
ghost use Rattle.homing.specs.Seats.{FindsHome, home_moves, seats_home};
ghost use Rattle.homing.specs.Workers.{AreBeside, with_seats};
ghost use Rattle.lanes.specs.Lanes.{AreDone, AreReady, lanes_of};
ghost use Rattle.round_keys.specs.Stored.{IsCovered};
ghost use Rattle.round_modules.specs.Inside.{AreInside, outside};
ghost use Rattle.round_modules.specs.Known.{AreCounted, AreHeld, known_area, runs_of, unloaded_by};
ghost use Rattle.round_worker.specs.Kept.{KeyList, live_of};
ghost use Rattle.round_worker.specs.Shown.{WorkerShown};
ghost use Rattle.tag_ref.specs.Refs.{moved_by};
ghost use Rattle.trace.specs.declared.traces.OnOp.{OnOp};
ghost use Rattle.trace.specs.declared.traces.Trace.{Trace};
ghost use Rattle.trace_play.specs.Barrier.{cpus_done, round_done};
ghost use Rattle.trace_play.specs.Fits.{is_owner};
ghost use Rattle.standing.specs.Standing.{CpusStand, HasRoomFor, KeysStand, RoundOf, WorkersStand, first_of};
ghost use Rattle.standing.specs.Turning.{AreSameButWords, LivesAre, dealt, home_of_round};

/// A round of a checked trace, once its keys are dealt and its CPUs are inside the modules that stay loaded: each lane is
/// ready.
pub fn rounds_are_ready()
    ensures { (trace : Trace) (top : Option ℕ) (ops : List OnOp) (r : RoundOf trace top ops) (b : Board) (cpus : List CpuShown) (workers : List WorkerShown)
        → HasRoomFor b trace → CpusStand b (first_of trace top ops r) cpus → WorkersStand b (first_of trace top ops r) workers
        → AreInside trace.cpus (runs_of (unloaded_by ops (first_of trace top ops r).area.entries)) cpus
        → AreReady (lanes_of trace.cpus ops) (dealt ops (first_of trace top ops r) workers) (take trace.cpus cpus) }
{}

/// Lanes that are done leave workers and CPUs as the meaning of the round's ops leaves them.
pub fn done_lanes_stand()
    ensures { (trace : Trace) (top : Option ℕ) (ops : List OnOp) (r : RoundOf trace top ops) (b : Board) (cpus after : List CpuShown) (workers left : List WorkerShown)
        → HasRoomFor b trace → CpusStand b (first_of trace top ops r) cpus → WorkersStand b (first_of trace top ops r) workers
        → AreDone (lanes_of trace.cpus ops) (dealt ops (first_of trace top ops r) workers) left (take trace.cpus cpus) after
        → WorkersStand b (cpus_done ops (first_of trace top ops r)) left × LivesAre (is_owner r.after) ops (first_of trace top ops r) left
        × CpusStand b (cpus_done ops (first_of trace top ops r)) (after ++ drop trace.cpus cpus) × AreSameButWords (take trace.cpus cpus) after }
{}

/// What comes home then finds its home, and leaves workers and CPUs as the meaning's barrier does.
pub fn homed_rounds_stand()
    ensures ready { (trace : Trace) (top : Option ℕ) (ops : List OnOp) (r : RoundOf trace top ops) (b : Board) (cpus : List CpuShown) (workers : List WorkerShown)
        → HasRoomFor b trace → CpusStand b (cpus_done ops (first_of trace top ops r)) cpus → WorkersStand b (cpus_done ops (first_of trace top ops r)) workers
        → AreBeside workers (take trace.cpus cpus) × FindsHome (map (λ (w : WorkerShown). w.seat) workers) }
    ensures home { (trace : Trace) (top : Option ℕ) (ops : List OnOp) (r : RoundOf trace top ops) (b : Board) (cpus : List CpuShown) (workers left : List WorkerShown)
        → HasRoomFor b trace → CpusStand b (cpus_done ops (first_of trace top ops r)) cpus → WorkersStand b (cpus_done ops (first_of trace top ops r)) workers
        → left ≡ with_seats (seats_home (map (λ (w : WorkerShown). w.seat) workers)) workers
        → WorkersStand b (home_of_round ops (first_of trace top ops r)) left
        × CpusStand b (home_of_round ops (first_of trace top ops r)) (map (moved_by (home_moves (map (λ (w : WorkerShown). w.seat) workers))) (take trace.cpus cpus) ++ drop trace.cpus cpus) }
{}

/// What a round's end asks holds then, and what is kept is what the meaning keeps.
pub fn ends_are_met()
    ensures book { (trace : Trace) (top : Option ℕ) (ops : List OnOp) (r : RoundOf trace top ops) (b : Board) → HasRoomFor b trace
        → IsBook (known_area b.shape trace.area (unloaded_by ops (first_of trace top ops r).area.entries))
        × All (λ (e : Entry). e.users ≡ 0) (unloaded_by ops (first_of trace top ops r).area.entries)
        × All (IsNamed trace.sections) (unloaded_by ops (first_of trace top ops r).area.entries) }
    ensures met { (trace : Trace) (top : Option ℕ) (ops : List OnOp) (r : RoundOf trace top ops) (b : Board) (cpus : List CpuShown) (l : LockedShown) (keys : KeyList)
        → HasRoomFor b trace → l.board ≡ b → CpusStand b (home_of_round ops (first_of trace top ops r)) cpus → live_of keys ≡ (cpus_done ops (first_of trace top ops r)).live
        → (list_any (λ (e : Entry). is_dead e.state) (unloaded_by ops (first_of trace top ops r).area.entries) ≡ true → All (λ entry. IsCovered l entry.1) keys)
        → AreHeld cpus l.area.entries (unloaded_by ops (first_of trace top ops r).area.entries)
        × AreCounted cpus b.shape.kernel_tags l.area.entries (unloaded_by ops (first_of trace top ops r).area.entries) }
    ensures kept { (trace : Trace) (top : Option ℕ) (ops : List OnOp) (r : RoundOf trace top ops) (b : Board) (cpus : List CpuShown)
        → HasRoomFor b trace → CpusStand b (home_of_round ops (first_of trace top ops r)) cpus
        → known_area b.shape trace.area (filter (is_unquiet cpus) (unloaded_by ops (first_of trace top ops r).area.entries)) ≡ (round_done ops (first_of trace top ops r)).area }
{}
