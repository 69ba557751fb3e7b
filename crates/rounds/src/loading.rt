//! A trace loads a module.

ghost use Rattle.std.specs.Prelude.{◌≡◌, IfErr, IfOk, None, OnErr, OnOk, Some};
ghost use Rattle.round_modules.specs.Meant.{code_of};
ghost use Rattle.rounds.specs.Places.{IsLoad, IsThere, LoadsNext, Place, loaded_here, machine_at, refusal_here};
ghost use Rattle.rounds.specs.Turns.{StandsAt};

use crate::Desk;
use round_modules::{LoadRefusal, load};

impl Desk {
    /// Loads the module of a section: it gets the next id, and the least start that is free.
    pub fn load(&mut self, section: u32) -> Result<(), LoadRefusal>
        requires { LoadsNext section self.old }
        ensures loaded { (p : Place) → IsThere p self.old → IsLoad section p → OnOk result (StandsAt p.board p.trace (loaded_here section p) self.new) }
        ensures allowed { (p : Place) → IsThere p self.old → (i : IsLoad section p) → IfOk result (λ done. refusal_here section p i ≡ None) }
        ensures refused { (p : Place) → IsThere p self.old → (i : IsLoad section p) → IfErr result (λ why. refusal_here section p i ≡ Some (i.line, code_of why)) }
        ensures stays { OnErr result (self.new ≡ self.old) }
    {
        load(&mut self.locked, &mut self.pass, section)?;
        Ok(())
    }
}
