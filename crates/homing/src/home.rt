//! Storage that the workers freed of other nodes goes home.

ghost use Rattle.std.specs.Prelude.{◌≡◌, All, map};
ghost use Rattle.tag_ref.specs.Refs.{moved_by};
ghost use Rattle.trace_play.specs.Barrier.{all_home};
ghost use Rattle.trace_play.specs.Machine.{Machine};
ghost use Rattle.round_worker.specs.Shown.{WorkerShown};
ghost use Rattle.round_worker.specs.Working.{IsGoing, going_storage};
ghost use Rattle.homing.specs.Seats.{AllFind, Finds, FindsHome, all_in, home_moves, moves_in, one_in, seats_home, taken_in};
ghost use Rattle.homing.specs.Workers.{AreBeside, but_seat, seats_of, with_seats};

use round_worker::{Going, Worker};
use tag_rule::CpuSeat;

/// All storage that the workers freed of other nodes goes home to its own node, by freeing CPU, and for each in the order
/// of its frees.
pub fn bring_home(workers: &mut [Worker], cpus: &mut [CpuSeat])
    requires beside { AreBeside workers.old cpus.old }
    requires finds { FindsHome (seats_of workers.old) }
    ensures workers { workers.new ≡ with_seats (seats_home (seats_of workers.old)) workers.old }
    ensures home { (m : Machine) → m.seats ≡ seats_of workers.old → seats_of workers.new ≡ (all_home m).seats }
    ensures cpus { cpus.new ≡ map (moved_by (home_moves (seats_of workers.old))) cpus.old }
    ensures beside { AreBeside workers.new cpus.new }
{
    for index in 0..workers.len() {
        let going = workers[index].returned();
        bring_all(workers, cpus, going);
    }
}

// Some storage goes home, in its order.
fn bring_all(workers: &mut [Worker], cpus: &mut [CpuSeat], going: Vec<Going>)
    requires beside { AreBeside workers.old cpus.old }
    requires table { All (λ (w : WorkerShown). All (IsGoing w.board) going.items) workers.old }
    requires finds { AllFind (seats_of workers.old) (map going_storage going.items) }
    ensures seats { seats_of workers.new ≡ all_in (seats_of workers.old) (map going_storage going.items) }
    ensures rest { map but_seat workers.new ≡ map but_seat workers.old }
    ensures cpus { cpus.new ≡ map (moved_by (moves_in (seats_of workers.old) (map going_storage going.items))) cpus.old }
{
    for one in going {
        bring_one(workers, cpus, one);
    }
}

fn bring_one(workers: &mut [Worker], cpus: &mut [CpuSeat], one: Going)
    requires beside { AreBeside workers.old cpus.old }
    requires table { All (λ (w : WorkerShown). IsGoing w.board one) workers.old }
    requires finds { Finds (seats_of workers.old) (going_storage one) }
    ensures seats { seats_of workers.new ≡ one_in (seats_of workers.old) (going_storage one) }
    ensures rest { map but_seat workers.new ≡ map but_seat workers.old }
    ensures cpus { cpus.new ≡ map (moved_by (taken_in (seats_of workers.old) (going_storage one)).moves) cpus.old }
{
    let home = one.home() as usize;
    workers[home].take_home(&mut cpus[home], one);
}
