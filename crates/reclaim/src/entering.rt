//! CPUs come into modules, and go out of them.

ghost use Rattle.std.specs.Prelude.{◌≡◌, ◌++◌, ◌∷◌, ◌<◌, ◌↔◌, [], IsErr, IsTrue, None, OnErr, OnOk, Some, false, length};
ghost use Rattle.core_list.specs.ListState.{run_of};
ghost use Rattle.module_area.specs.Entries.{entry_of, id_loaded};
ghost use Rattle.module_area.specs.declared.entry.Entry.{Entry};
ghost use Rattle.reclaim.specs.Refusals.{HasLoaded};
ghost use Rattle.tag_rule.specs.Listed.{has_run};
ghost use Rattle.tag_rule.specs.Runs.{other_runs, with_runs};
ghost use Rattle.reclaim.specs.State.{entered_locked, left_locked};

use crate::{Locked, NotLoaded};
use module_area::{Entry, State};
use tag_rule::{Change, CpuSeat, change_list, give_run, take_run};

/// The CPU comes into a loaded module.
pub fn enter_locked(locked: &mut Locked, cpu: &mut CpuSeat, id: u32) -> Result<(), NotLoaded>
    requires table { cpu.old.board ≡ locked.old.board }
    requires outside { has_run id cpu.old.part.runs ≡ false }
    requires room { length cpu.old.part.runs < 64 }
    ensures not_loaded { IsErr result ↔ ¬ HasLoaded id locked.old.area.entries }
    ensures entered { OnOk result (locked.new ≡ entered_locked id locked.old) }
    ensures inside { OnOk result ((entry : Entry) → entry_of locked.old.area.entries id ≡ Some entry → cpu.new ≡ with_runs (cpu.old.part.runs ++ run_of entry ∷ []) cpu.old) }
    ensures err { OnErr result ((locked.new ≡ locked.old) × (cpu.new ≡ cpu.old)) }
{
    match locked.book.get(id) {
        Some(
            Entry {
                state: State::Loaded,
                ..
            },
        ) => {
            locked.enter(cpu, id);
            Ok(())
        }
        _ => Err(NotLoaded),
    }
}

/// The CPU goes out of a module that it is inside.
pub fn leave_locked(locked: &mut Locked, cpu: &mut CpuSeat, id: u32)
    requires table { cpu.old.board ≡ locked.old.board }
    requires inside { IsTrue (has_run id cpu.old.part.runs) }
    requires no_hand { cpu.old.part.hand ≡ None }
    ensures left { locked.new ≡ left_locked id locked.old }
    ensures outside { cpu.new ≡ with_runs (other_runs id cpu.old.part.runs) cpu.old }
{
    take_run(&mut locked.list, cpu, id);
    change_list(&mut locked.list, Change::Leave { id });
    locked.book.leave(id);
}

/// The id of the section's loaded module.
pub fn loaded_locked(locked: &Locked, section: u32) -> Option<u32>
    ensures { result ≡ id_loaded locked.now.area.entries section }
{
    locked.book.loaded(section)
}

impl Locked {
    fn enter(&mut self, cpu: &mut CpuSeat, id: u32)
        requires table { cpu.old.board ≡ self.old.board }
        requires outside { has_run id cpu.old.part.runs ≡ false }
        requires room { length cpu.old.part.runs < 64 }
        requires loaded { HasLoaded id self.old.area.entries }
        ensures entered { self.new ≡ entered_locked id self.old }
        ensures inside { (entry : Entry) → entry_of self.old.area.entries id ≡ Some entry → cpu.new ≡ with_runs (cpu.old.part.runs ++ run_of entry ∷ []) cpu.old }
    {
        change_list(&mut self.list, Change::Enter { id });
        give_run(&mut self.list, cpu, id);
        self.book.enter(id);
    }
}
