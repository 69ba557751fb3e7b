//! A run ends: what its last line says, and what it leaves.

ghost use Rattle.std.specs.Prelude.{◌≡◌, count_by, length};
ghost use Rattle.module_area.specs.Entries.{is_dead};
ghost use Rattle.module_area.specs.declared.entry.Entry.{Entry};
ghost use Rattle.reclaim.specs.State.{IsLocked};
ghost use Rattle.trace_play.specs.Machine.{live_count};
ghost use Rattle.trace_play.specs.Printed.{dead_of};
ghost use Rattle.rounds.specs.Places.{IsSomewhere, IsThere, Place, machine_at};

use crate::Desk;
use crate::settling::is_dead;
use plant::Left;
use reclaim::Locked;
use run_text::Done;
use tag_rule::CpuSeat;

impl Desk {
    /// What the last line says here, of a run of so many rounds and ops.
    pub fn numbers(&self, rounds: u64, ops: u64) -> Done
        requires { IsSomewhere self.now }
        ensures { (p : Place) → IsThere p self.now → result ≡ record {
          rounds = rounds;
          ops = ops;
          failed = (machine_at p).tally.failed;
          uncounted = (machine_at p).tally.uncounted;
          live = live_count (machine_at p);
          kept = length (dead_of (machine_at p));
        } }
    {
        let workers = self.workers.as_slice();
        Done {
            rounds,
            ops,
            failed: workers.iter().map(|worker| worker.failed()).sum(),
            uncounted: workers.iter().map(|worker| worker.uncounted()).sum(),
            live: self.keys.counted() + workers.iter().map(|worker| worker.slabs()).sum::<u64>(),
            kept: kept_in(&self.locked),
        }
    }

    /// Gives back the CPUs of the table, and what stands beside them.
    pub fn into_left(self) -> (Vec<CpuSeat>, Left)
        ensures cpus { result.0.items ≡ self.cpus.items }
        ensures left { result.1 ≡ record { workers = self.workers; keys = self.keys; locked = self.locked } }
        ensures locked { IsLocked self.locked }
    {
        let Desk {
            cpus,
            workers,
            keys,
            locked,
            ..
        } = self;
        locked.tell();
        let left = Left {
            workers,
            keys,
            locked,
        };
        (cpus, left)
    }
}

// How many ranges are kept.
fn kept_in(locked: &Locked) -> u64
    ensures { result ≡ count_by (λ (e : Entry). is_dead e.state) locked.now.area.entries }
{
    let book = locked.book();
    let mut kept: u64 = 0;
    for place in 0..book.count() {
        kept += u64::from(is_dead(book.at(place).state));
    }
    kept
}
