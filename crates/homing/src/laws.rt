//! Laws of storage that goes home. The functions do nothing: what they promise are laws of the definitions.

ghost use Rattle.std.specs.Prelude.{ℕ, List, None, Ok, Option, ◌≡◌};
ghost use Rattle.round_check.specs.Rounds.{IsRound};
ghost use Rattle.round_check.specs.Walk.{rounds_of};
ghost use Rattle.round_check.specs.declared.walk.Walk.{Walk};
ghost use Rattle.trace.specs.Formed.{IsFormedTrace};
ghost use Rattle.trace.specs.declared.traces.OnOp.{OnOp};
ghost use Rattle.trace.specs.declared.traces.Trace.{Trace};
ghost use Rattle.trace_play.specs.Barrier.{all_home, cpus_done, modules_done};
ghost use Rattle.trace_play.specs.Machine.{Machine};
ghost use Rattle.trace_play.specs.Play.{played_so_far};
ghost use Rattle.homing.specs.Seats.{FindsHome, home_moves, seats_home, with_home};

/// What goes home, and what its CPUs move for it, is told by the seats alone.
pub fn all_home_is_of_the_seats()
    ensures { (m : Machine) → all_home m ≡ with_home (seats_home m.seats) (home_moves m.seats) m }
{}

/// In a round of a checked trace, where no `load` before it was refused, all storage that was freed on another CPU finds
/// its home in its turn.
pub fn checked_storage_finds_its_home()
    ensures after_ops { (trace : Trace) (top : Option ℕ) (ops : List OnOp) (before : Walk) → IsFormedTrace trace → rounds_of trace ≡ Ok tt → (round : IsRound trace ops before)
        → (played_so_far trace top round.front).refused ≡ None → FindsHome (cpus_done ops (played_so_far trace top round.front).played.machine).seats }
    ensures after_modules { (trace : Trace) (top : Option ℕ) (ops : List OnOp) (before : Walk) → IsFormedTrace trace → rounds_of trace ≡ Ok tt → (round : IsRound trace ops before)
        → (played_so_far trace top round.front).refused ≡ None → FindsHome (modules_done ops (cpus_done ops (played_so_far trace top round.front).played.machine)).seats }
{}
