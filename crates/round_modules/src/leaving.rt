//! CPUs go out of the modules that they are inside.

ghost use Rattle.std.specs.Prelude.{◌≡◌, ◌<◌, [], All, AllPairs, IsTrue, None, map};
ghost use Rattle.module_area.specs.declared.entry.Entry.{Entry};
ghost use Rattle.module_area.specs.declared.entry.State.TheVariants.{Loaded};
ghost use Rattle.tag_rule.specs.Listed.{has_run};
ghost use Rattle.tag_rule.specs.Runs.{with_runs};
ghost use Rattle.tag_rule.specs.Shown.{CpuShown};
ghost use Rattle.round_modules.specs.Inside.{left_runs};
ghost use Rattle.round_modules.specs.Known.{SameModules, runs_of};

use crate::knowing::is_loaded;
use module_area::Entry;
use reclaim::{Locked, leave_locked};
use tag_rule::CpuSeat;

/// Each of the CPUs goes out of each module that stays loaded.
pub(crate) fn leave_all(locked: &mut Locked, cpus: &mut [CpuSeat], known: &[Entry])
    requires tables { All (λ (c : CpuShown). c.board ≡ locked.old.board) cpus.old }
    requires hands { All (λ (c : CpuShown). c.part.hand ≡ None) cpus.old }
    requires rising { AllPairs (λ (one : Entry) (other : Entry). one.id < other.id) known.now }
    requires inside { All (λ (c : CpuShown). c.part.runs ≡ runs_of known.now) cpus.old }
    ensures cpus { cpus.new ≡ map (with_runs []) cpus.old }
    ensures same { SameModules locked.old locked.new }
{
    if let Some((first, rest)) = cpus.split_first_mut() {
        leave_each(locked, first, known);
        leave_all(locked, rest, known);
    }
}

// The CPU goes out of each module that stays loaded.
fn leave_each(locked: &mut Locked, cpu: &mut CpuSeat, known: &[Entry])
    requires table { cpu.old.board ≡ locked.old.board }
    requires no_hand { cpu.old.part.hand ≡ None }
    requires rising { AllPairs (λ (one : Entry) (other : Entry). one.id < other.id) known.now }
    requires inside { cpu.old.part.runs ≡ runs_of known.now }
    ensures cpu { cpu.new ≡ with_runs [] cpu.old }
    ensures same { SameModules locked.old locked.new }
{
    if let Some((first, rest)) = known.split_first() {
        leave_one(locked, cpu, *first);
        leave_each(locked, cpu, rest);
    }
}

// The CPU goes out of the module, if it stays loaded.
fn leave_one(locked: &mut Locked, cpu: &mut CpuSeat, entry: Entry)
    requires table { cpu.old.board ≡ locked.old.board }
    requires no_hand { cpu.old.part.hand ≡ None }
    requires inside { entry.state ≡ Loaded → IsTrue (has_run entry.id cpu.old.part.runs) }
    ensures cpu { cpu.new ≡ with_runs (left_runs entry cpu.old.part.runs) cpu.old }
    ensures same { SameModules locked.old locked.new }
{
    if is_loaded(entry.state) {
        leave_locked(locked, cpu, entry.id);
    }
}
