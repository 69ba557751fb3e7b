//! The change of the module list that loads.

ghost use Rattle.std.specs.List.{list_all};
ghost use Rattle.std.specs.Prelude.{◌≡◌, ◌+◌, ◌<◌, ◌≤◌, nat_lt, IsTrue, length};
ghost use Rattle.tag_model.specs.StepRules.{Loads};
ghost use Rattle.tag_model.specs.declared.state.Record.{Record};
ghost use Rattle.module_list.specs.Listing.{record_limit};
ghost use Rattle.tag_rule.specs.Listed.{MayLoad, with_loaded};

use crate::modules::{ListSeat, LoadPass};
use crate::seats::exchange;
use crate::words::Words;
use std::marker::Brand;
use tag_model::Record;

/// list-change load: a module is loaded over the range, under the pass's next id. The id is above all others of the list.
pub fn load_list(
    list: &mut ListSeat,
    pass: &mut LoadPass,
    section: u32,
    start: u32,
    size: u32,
) -> u32
    requires table { pass.old.board ≡ list.old.board }
    requires room { length list.old.part.records < record_limit }
    requires id { pass.old.next ≤ 4294967295 }
    requires range { MayLoad list.old.board.shape start size list.old.part.records }
    ensures id { result ≡ pass.old.next }
    ensures pass { pass.new ≡ record pass.old { next = pass.old.next + 1 } }
    ensures list { list.new ≡ record list.old { part = with_loaded result section start size list.old.part } }
    ensures row { Loads list.old.board.shape section start size result list.old.part list.new.part }
    ensures above { (0 < result) × IsTrue (list_all (λ (r : Record). nat_lt r.id result) list.old.part.records) }
{
    let words: &Words = &list.words;
    let record = Record {
        id: pass.next as u32,
        section,
        start,
        length: size,
        dead: false,
        users: 0,
    };
    exchange::<Brand, Record>(words, &mut list.seat, &mut pass.seat, &record);
    pass.next += 1;
    list.kept.load(record.id, section, start, size);
    record.id
}
