//! After a round.

ghost use Rattle.std.specs.Prelude.{◌≡◌, ◌≤◌, ◌+◌, [], All, None, filter, length, map};
ghost use Rattle.std.specs.Arc.{arc_value};
ghost use Rattle.std.specs.List.{range_with_len};
ghost use Rattle.module_area.specs.declared.entry.Entry.{Entry};
ghost use Rattle.module_area.specs.Area.{IsBook};
ghost use Rattle.reclaim.specs.Quiet.{is_unquiet};
ghost use Rattle.reclaim.specs.State.{IsNamed};
ghost use Rattle.tag_rule.specs.Shown.{CpuShown};
ghost use Rattle.round_modules.specs.Inside.{AreInside, AreNoted, outside};
ghost use Rattle.round_modules.specs.Known.{AreCounted, AreHeld, known_area, runs_of};

use crate::leaving::leave_all;
use crate::marking::mark_unknown;
use module_area::Entry;
use reclaim::{Locked, clean_quiet_locked};
use std::alloc::Global;
use std::sync::Arc;
use tag_rule::{CpuSeat, LoadPass};
use tag_section::Sections;

/// After a round, in which others may have done anything under the lock: the CPUs go out of the modules, and the book is
/// what is known, without the dead modules under which nothing is counted.
pub fn end(
    locked: &mut Locked,
    pass: &mut LoadPass,
    cpus: &mut [CpuSeat],
    inside: usize,
    known: &[Entry],
    sections: Arc<Sections, Global>,
    tags: u32,
)
    requires tables { (pass.old.board ≡ locked.old.board) × All (λ (c : CpuShown). c.board ≡ locked.old.board) cpus.old }
    requires all { map (λ (c : CpuShown). c.part.number) cpus.old ≡ range_with_len 0 locked.old.board.shape.cpus }
    requires hands { All (λ (c : CpuShown). c.part.hand ≡ None) cpus.old }
    requires some { (1 ≤ inside) × (inside ≤ length cpus.old) }
    requires inside { AreInside inside (runs_of known.now) cpus.old }
    requires noted { AreNoted known.now cpus.old }
    requires book { IsBook (known_area locked.old.board.shape tags known.now) }
    requires users { All (λ (e : Entry). e.users ≡ 0) known.now }
    requires named { All (IsNamed (arc_value sections)) known.now }
    requires within { locked.old.board.shape.kernel_tags + tags ≤ locked.old.board.shape.tags }
    requires held { AreHeld cpus.old locked.old.area.entries known.now }
    requires counted { AreCounted cpus.old locked.old.board.shape.kernel_tags locked.old.area.entries known.now }
    ensures area { locked.new.area ≡ known_area locked.old.board.shape tags (filter (is_unquiet cpus.old) known.now) }
    ensures sections { locked.new.sections ≡ arc_value sections }
    ensures same { (locked.new.board ≡ locked.old.board) × (pass.new ≡ pass.old) }
    ensures outside { All (λ (c : CpuShown). c.part.runs ≡ []) cpus.new }
    ensures rest { map outside cpus.new ≡ map outside cpus.old }
{
    // What the CPUs carry tells what the book must still have, and once they are out, that nobody is inside.
    locked.tell();
    locked.meet_all(pass, cpus);
    leave_all(locked, &mut cpus[..inside], known);
    locked.meet_all(pass, cpus);
    locked.tell();
    mark_unknown(locked, known);
    clean_quiet_locked(locked, cpus);
    locked.put_sections(sections, tags);
}
