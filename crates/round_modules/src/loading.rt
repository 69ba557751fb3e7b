//! A load of a trace.

ghost use Rattle.std.specs.Prelude.{◌≡◌, ◌+◌, ◌≤◌, Err, MatchOption, None, Ok, OnErr, OnOk};
ghost use Rattle.reclaim.specs.Loading.{early_refusal, loaded_as};
ghost use Rattle.tag_section.specs.Section.{tags_in};
ghost use Rattle.module_area.specs.Area.{least_start};
ghost use Rattle.round_modules.specs.Loads.{refusal_in};

use module_area::BOOK_LIMIT;
use reclaim::{Locked, load_locked};
use tag_rule::LoadPass;
use thiserror::Error;

/// Why a load of a trace is refused.
#[derive(Clone, Copy, Debug, PartialEq, Eq, Error)]
pub enum LoadRefusal {
    #[error("there are as many ranges as may be")]
    Full,
    #[error("no free range of the area is long enough")]
    NoRoom,
}

/// Loads a section's module under the pass's next id, at the least start that is free. It is refused exactly where the book
/// has as many entries as may be, or else has no gap that is long enough.
pub fn load(locked: &mut Locked, pass: &mut LoadPass, section: u32) -> Result<u32, LoadRefusal>
    requires table { pass.old.board ≡ locked.old.board }
    requires early { early_refusal section locked.old ≡ None }
    requires id { pass.old.next ≤ 4294967295 }
    ensures answer { MatchOption (refusal_in (tags_in locked.old.sections section) locked.old.area) (result ≡ Ok pass.old.next) (λ why. result ≡ Err why) }
    ensures loaded { OnOk result (locked.new ≡ loaded_as pass.old.next section (tags_in locked.old.sections section) locked.old) }
    ensures next { OnOk result (pass.new ≡ record pass.old { next = pass.old.next + 1 }) }
    ensures err { OnErr result ((locked.new ≡ locked.old) × (pass.new ≡ pass.old)) }
{
    if locked.book().count() == BOOK_LIMIT as u32 {
        return Err(LoadRefusal::Full);
    }
    let size = locked.sections().len_of(section);
    if start_for(locked, size).is_none() {
        return Err(LoadRefusal::NoRoom);
    }
    Ok(load_locked(locked, pass, section).unwrap())
}

// The least start at which so many tags are free.
fn start_for(locked: &Locked, size: u32) -> Option<u32>
    requires { 1 ≤ size }
    ensures { result ≡ least_start locked.now.area size }
{
    locked.book().least_start(size)
}
