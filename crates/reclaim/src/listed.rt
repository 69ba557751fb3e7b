//! The module list behind its lock. The one call that takes the lock answers the guard and nothing else; what is done
//! under it is said by the calls on the value.

ghost use Rattle.std.specs.Prelude.{◌≡◌, ◌++◌, ◌∷◌, ◌+◌, ◌<◌, ◌↔◌, [], All, Err, IfOk, IsErr, IsNone, IsOk, IsTrue, MatchOption, None, OnErr, OnOk, Some, false, filter, length, map};
ghost use Rattle.std.specs.List.{range_with_len};
ghost use Rattle.core_list.specs.ListState.{run_of};
ghost use Rattle.module_area.specs.Entries.{entry_of, id_loaded};
ghost use Rattle.module_area.specs.declared.entry.Entry.{Entry};
ghost use Rattle.tag_rule.specs.Listed.{has_run};
ghost use Rattle.tag_rule.specs.Runs.{other_runs, with_runs};
ghost use Rattle.tag_rule.specs.Shown.{CpuShown};
ghost use Rattle.reclaim.specs.Loading.{LoadEnds, early_refusal};
ghost use Rattle.tag_section.specs.Section.{tags_in};
ghost use Rattle.reclaim.specs.Quiet.{is_unquiet};
ghost use Rattle.reclaim.specs.Refusals.{HasLoaded, unload_refusal};
ghost use Rattle.reclaim.specs.State.{entered_locked, left_locked};
ghost use Rattle.reclaim.specs.Sweeps.{Cleaned, Unloaded, with_entries};
ghost use Rattle.reclaim.specs.Telling.{IsUntold, TellsTag};

use crate::cleaning::clean_locked;
use crate::entering::{enter_locked, leave_locked, loaded_locked};
use crate::loading::load_locked;
use crate::quiet::clean_quiet_locked;
use crate::telling::tag_of_locked;
use crate::unloading::unload_locked;
use crate::{Locked, NotLoaded, Reclaim, UnloadError};
use module_area::AreaError;
use std::alloc::AllocError;
use std::marker::PhantomData;
use std::sync::{Mutex, MutexGuard, Wait};
use tag_model::Tag;
use tag_rule::{CellSeat, CpuSeat, LoadPass, Name};

/// A `Locked` of the table that `N` names.
#[derive(Drop)]
pub struct Listed<N: Name> {
    locked: Locked,
    of: PhantomData<N>,
    ghost named: { locked.board ≡ N.board },
}

/// A lock over a `Listed`.
#[derive(Drop)]
pub struct ModuleList<N: Name> {
    list: Mutex<Listed<N>>,
}

impl<N: Name> ModuleList<N> {
    /// Puts a list of the table that `N` names behind a lock.
    pub fn new(locked: Locked) -> ModuleList<N>
        requires { locked.board ≡ N.board }
    {
        ModuleList {
            list: Mutex::new(Listed {
                locked,
                of: PhantomData,
            }),
        }
    }

    /// Takes the lock.
    pub fn lock<R: Wait>(&self, rt: &R) -> MutexGuard<'_, Listed<N>> {
        self.list.lock(rt)
    }

    /// The list, of the table that `N` names.
    pub fn into_locked(self) -> Locked
        ensures { result.board ≡ N.board }
    {
        let Listed { locked, of: _ } = self.list.into_inner();
        locked
    }
}

impl<N: Name> Listed<N> {
    /// The list.
    pub fn locked(&self) -> &Locked
        ensures { result.now ≡ self.now.locked }
    {
        &self.locked
    }

    /// As `load_locked`.
    pub fn load(&mut self, pass: &mut LoadPass, section: u32) -> Result<u32, AreaError>
        requires table { pass.old.board ≡ self.old.locked.board }
        ensures answer { MatchOption (early_refusal section self.old.locked) (LoadEnds section (tags_in self.old.locked.sections section) pass.old.next self.old.locked self.new.locked result) (λ why. (result ≡ Err why) × (self.new.locked ≡ self.old.locked)) }
        ensures ok { OnOk result (pass.new ≡ record pass.old { next = pass.old.next + 1 }) }
        ensures err { OnErr result (pass.new ≡ pass.old) }
    {
        load_locked(&mut self.locked, pass, section)
    }

    /// As `enter_locked`.
    pub fn enter(&mut self, cpu: &mut CpuSeat, id: u32) -> Result<(), NotLoaded>
        requires table { cpu.old.board ≡ self.old.locked.board }
        requires outside { has_run id cpu.old.part.runs ≡ false }
        requires room { length cpu.old.part.runs < 64 }
        ensures not_loaded { IsErr result ↔ ¬ HasLoaded id self.old.locked.area.entries }
        ensures entered { OnOk result (self.new.locked ≡ entered_locked id self.old.locked) }
        ensures inside { OnOk result ((entry : Entry) → entry_of self.old.locked.area.entries id ≡ Some entry → cpu.new ≡ with_runs (cpu.old.part.runs ++ run_of entry ∷ []) cpu.old) }
        ensures err { OnErr result ((self.new.locked ≡ self.old.locked) × (cpu.new ≡ cpu.old)) }
    {
        enter_locked(&mut self.locked, cpu, id)
    }

    /// As `leave_locked`.
    pub fn leave(&mut self, cpu: &mut CpuSeat, id: u32)
        requires table { cpu.old.board ≡ self.old.locked.board }
        requires inside { IsTrue (has_run id cpu.old.part.runs) }
        requires no_hand { cpu.old.part.hand ≡ None }
        ensures left { self.new.locked ≡ left_locked id self.old.locked }
        ensures outside { cpu.new ≡ with_runs (other_runs id cpu.old.part.runs) cpu.old }
    {
        leave_locked(&mut self.locked, cpu, id);
    }

    /// As `loaded_locked`.
    pub fn loaded(&self, section: u32) -> Option<u32>
        ensures { result ≡ id_loaded self.now.locked.area.entries section }
    {
        loaded_locked(&self.locked, section)
    }

    /// As `unload_locked`.
    pub fn unload(&mut self, id: u32) -> Result<Reclaim, UnloadError>
        ensures answer { MatchOption (unload_refusal id self.old.locked.area.entries) (IsOk result) (λ why. result ≡ Err why) }
        ensures unloaded { IfOk result (λ answer. (entry : Entry) → entry_of self.old.locked.area.entries id ≡ Some entry → Unloaded entry self.old.locked self.new.locked answer) }
        ensures err { OnErr result (self.new.locked ≡ self.old.locked) }
    {
        unload_locked(&mut self.locked, id)
    }

    /// As `clean_locked`.
    pub fn clean(&mut self) -> u32
        ensures { Cleaned self.old.locked self.new.locked result }
    {
        clean_locked(&mut self.locked)
    }

    /// As `tag_of_locked`.
    pub fn tag_of(
        &mut self,
        cell: &mut CellSeat,
        out: &mut Vec<u8>,
    ) -> Result<Option<Tag>, AllocError>
        requires table { cell.old.board ≡ self.old.locked.board }
        ensures told { IfOk result (λ told. TellsTag self.old.locked cell.old.held told out.old.items out.new.items) }
        ensures none { IfOk result (λ told. IsNone told ↔ IsUntold self.old.locked cell.old.held) }
        ensures err { OnErr result (out.new.items ≡ out.old.items) }
        ensures same { (self.new.locked ≡ self.old.locked) × (cell.new ≡ cell.old) }
    {
        tag_of_locked(&mut self.locked, cell, out)
    }

    /// As `clean_quiet_locked`.
    pub fn clean_quiet(&mut self, cpus: &mut [CpuSeat]) -> u32
        requires tables { All (λ (c : CpuShown). c.board ≡ self.old.locked.board) cpus.old }
        requires all { map (λ (c : CpuShown). c.part.number) cpus.old ≡ range_with_len 0 self.old.locked.board.shape.cpus }
        ensures cleaned { Cleaned self.old.locked self.new.locked result }
        ensures exact { self.new.locked.area ≡ with_entries (filter (is_unquiet cpus.old) self.old.locked.area.entries) self.old.locked }
        ensures same { cpus.new ≡ cpus.old }
    {
        clean_quiet_locked(&mut self.locked, cpus)
    }
}
