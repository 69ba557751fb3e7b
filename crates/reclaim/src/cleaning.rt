//! A sweep over all dead modules.

ghost use Rattle.reclaim.specs.Sweeps.{Cleaned};

use crate::Locked;
use crate::sweeping::read_all;
use tag_rule::{Change, change_list};

/// One sweep over all dead modules: first all their byte words are read, and then the call words of those that are left.
/// Those with no word sum but 0 are released, by rising id. The answer is their number.
pub fn clean_locked(locked: &mut Locked) -> u32
    ensures { Cleaned locked.old locked.new result }
{
    change_list(&mut locked.list, Change::Sweep);
    read_all(&mut locked.list);
    locked.release_all()
}
