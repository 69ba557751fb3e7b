//! Before a round.

ghost use Rattle.std.specs.Prelude.{◌≡◌, ◌≤◌, [], All, length, map};
ghost use Rattle.std.specs.List.{range_with_len};
ghost use Rattle.reclaim.specs.State.{part_of};
ghost use Rattle.tag_rule.specs.Meeting.{first_notes};
ghost use Rattle.tag_rule.specs.Shown.{CpuShown};
ghost use Rattle.round_modules.specs.Inside.{AreInside, AreNoted, come_in, outside};
ghost use Rattle.round_modules.specs.Known.{IsKnown, SameModules, runs_of};

use crate::entering::enter_all;
use module_area::Entry;
use reclaim::Locked;
use tag_rule::{CpuSeat, LoadPass};

/// Before a round: each of the first `inside` CPUs comes into each module that stays loaded, and the first CPU takes a note
/// of each module.
pub fn begin(
    locked: &mut Locked,
    pass: &mut LoadPass,
    cpus: &mut [CpuSeat],
    inside: usize,
    known: &[Entry],
)
    requires tables { (pass.old.board ≡ locked.old.board) × All (λ (c : CpuShown). c.board ≡ locked.old.board) cpus.old }
    requires all { map (λ (c : CpuShown). c.part.number) cpus.old ≡ range_with_len 0 locked.old.board.shape.cpus }
    requires outside { All (λ (c : CpuShown). c.part.runs ≡ []) cpus.old }
    requires some { (1 ≤ inside) × (inside ≤ length cpus.old) }
    requires known { IsKnown locked.old.area.entries known.now }
    ensures cpus { cpus.new ≡ come_in inside (runs_of known.now) (first_notes (part_of locked.old).records cpus.old) }
    ensures inside { AreInside inside (runs_of known.now) cpus.new }
    ensures noted { AreNoted known.now cpus.new }
    ensures rest { map outside cpus.new ≡ map outside cpus.old }
    ensures same { SameModules locked.old locked.new × (pass.new ≡ pass.old) }
{
    locked.tell();
    locked.meet_all(pass, cpus);
    enter_all(locked, &mut cpus[..inside], known);
}
