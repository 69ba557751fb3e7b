//! The changes of the module list that are steps of a sweep.

ghost use Rattle.std.specs.Prelude.{◌≡◌, IsSome, IsSomeAnd, IsTrue};
ghost use Rattle.module_list.specs.Listing.{may_release, reader_of};
ghost use Rattle.reclaim.specs.Steps.{ScansOne};

use tag_model::Kind;
use tag_rule::{ListSeat, scan_byte, scan_call};

/// The sweep reads its next word.
pub(crate) fn read_next(list: &mut ListSeat)
    requires { IsSome (reader_of list.old.part.sweep) }
    ensures board { list.new.board ≡ list.old.board }
    ensures read { ScansOne list.old.board.shape list.old.part list.new.part }
{
    list.tell();
    if let Some(reader) = list.reader() {
        match reader.pass {
            Kind::Bytes => scan_byte(list),
            Kind::Calls => scan_call(list),
        };
    }
}
