//! CPUs come into the modules that stay loaded.

ghost use Rattle.std.specs.Prelude.{◌≡◌, ◌+◌, ◌<◌, ◌≤◌, ◌++◌, ◌∷◌, [], All, AllPairs, false, length, map};
ghost use Rattle.module_area.specs.declared.entry.Entry.{Entry};
ghost use Rattle.module_area.specs.declared.entry.State.TheVariants.{Loaded};
ghost use Rattle.tag_rule.specs.Listed.{has_run};
ghost use Rattle.tag_rule.specs.Runs.{with_runs};
ghost use Rattle.tag_rule.specs.Shown.{CpuShown};
ghost use Rattle.round_modules.specs.Known.{AreLoadedIn, IsLoadedIn, SameModules, runs_of};

use crate::knowing::is_loaded;
use module_area::Entry;
use reclaim::{Locked, enter_locked};
use tag_rule::CpuSeat;

/// Each of the CPUs comes into each module that stays loaded.
pub(crate) fn enter_all(locked: &mut Locked, cpus: &mut [CpuSeat], known: &[Entry])
    requires tables { All (λ (c : CpuShown). c.board ≡ locked.old.board) cpus.old }
    requires outside { All (λ (c : CpuShown). c.part.runs ≡ []) cpus.old }
    requires few { length known.now ≤ 64 }
    requires rising { AllPairs (λ (one : Entry) (other : Entry). one.id < other.id) known.now }
    requires loaded { AreLoadedIn locked.old.area.entries known.now }
    ensures cpus { cpus.new ≡ map (with_runs (runs_of known.now)) cpus.old }
    ensures same { SameModules locked.old locked.new }
{
    if let Some((first, rest)) = cpus.split_first_mut() {
        enter_each(locked, first, known);
        enter_all(locked, rest, known);
    }
}

// The CPU comes into each module that stays loaded.
fn enter_each(locked: &mut Locked, cpu: &mut CpuSeat, known: &[Entry])
    requires table { cpu.old.board ≡ locked.old.board }
    requires outside { All (λ (e : Entry). has_run e.id cpu.old.part.runs ≡ false) known.now }
    requires room { length cpu.old.part.runs + length known.now ≤ 64 }
    requires rising { AllPairs (λ (one : Entry) (other : Entry). one.id < other.id) known.now }
    requires loaded { AreLoadedIn locked.old.area.entries known.now }
    ensures cpu { cpu.new ≡ with_runs (cpu.old.part.runs ++ runs_of known.now) cpu.old }
    ensures same { SameModules locked.old locked.new }
{
    if let Some((first, rest)) = known.split_first() {
        enter_one(locked, cpu, *first);
        enter_each(locked, cpu, rest);
    }
}

// The CPU comes into the module, if it stays loaded.
fn enter_one(locked: &mut Locked, cpu: &mut CpuSeat, entry: Entry)
    requires table { cpu.old.board ≡ locked.old.board }
    requires outside { has_run entry.id cpu.old.part.runs ≡ false }
    requires room { length cpu.old.part.runs < 64 }
    requires loaded { entry.state ≡ Loaded → IsLoadedIn locked.old.area.entries entry }
    ensures cpu { cpu.new ≡ with_runs (cpu.old.part.runs ++ runs_of (entry ∷ [])) cpu.old }
    ensures same { SameModules locked.old locked.new }
{
    if is_loaded(entry.state) {
        enter_locked(locked, cpu, entry.id).unwrap();
    }
}
