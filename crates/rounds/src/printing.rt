//! What a trace prints on the way.

ghost use Rattle.std.specs.Prelude.{ℕ, ◌≡◌, ◌++◌, OnOk};
ghost use Rattle.tag_rule.specs.Shown.{Board};
ghost use Rattle.trace.specs.declared.traces.Trace.{Trace};
ghost use Rattle.trace_play.specs.Machine.{Machine};
ghost use Rattle.trace_play.specs.Printed.{areas_text, print_text};
ghost use Rattle.rounds.specs.Places.{IsSomewhere, IsThere, Place, machine_at};
ghost use Rattle.rounds.specs.Turns.{StandsAt};

use crate::Desk;
use run_text::areas::write_areas;
use run_text::print::print_locked;
use std::alloc::AllocError;

impl Desk {
    /// Appends what `print` shows here: the bytes and the references of each tag, or so many of the greatest.
    pub fn print(
        &mut self,
        kept: bool,
        top: Option<u32>,
        out: &mut Vec<u8>,
    ) -> Result<(), AllocError>
        requires { IsSomewhere self.old }
        ensures text { (p : Place) → IsThere p self.old → OnOk result (out.new.items ≡ out.old.items ++ print_text p.trace.sections kept top (machine_at p)) }
        ensures stays { (b : Board) (trace : Trace) (m : Machine) → StandsAt b trace m self.old → StandsAt b trace m self.new }
    {
        self.locked.tell();
        print_locked(
            self.alloc,
            &self.locked,
            self.cpus.as_mut_slice(),
            kept,
            top,
            out,
        )
    }

    /// Appends what `areas` shows: the ranges of modules, loaded and kept.
    pub fn print_areas(&self, out: &mut Vec<u8>) -> Result<(), AllocError>
        ensures { (b : Board) (trace : Trace) (m : Machine) → StandsAt b trace m self.now → OnOk result (out.new.items ≡ out.old.items ++ areas_text trace.sections m) }
    {
        write_areas(&self.locked, out)
    }
}
