//! The rights to the module list and to the next id.

ghost use Rattle.std.specs.Prelude.{◌≡◌};
ghost use Rattle.module_list.specs.Listing.{reader_of, releasable};
ghost use Rattle.tag_rule.specs.Seated.{IsListShown};

use crate::words::{Seat, Words};
use module_list::RecordList;
use std::alloc::Global;
use std::marker::Model;
use std::sync::Arc;
use tag_model::{Reader, Shape, Stop};

/// The right to the module list. What it keeps of the list counts no users.
#[derive(Drop)]
pub struct ListSeat {
    pub(crate) words: Arc<Words, Global>,
    pub(crate) seat: Seat,
    pub(crate) kept: RecordList,
}

impl Model for ListSeat {
    ghost use Rattle.tag_rule.specs.Shown.{ListShown};

    ghost Value = { ListShown };

    ghost use Rattle.tag_rule.specs.Tokens.{list_shown, IsListSeat};

    ghost view = { list_shown };

    ghost invariant = { IsListSeat };
}

/// The right to begin a new record.
#[derive(Drop)]
pub struct LoadPass {
    pub(crate) seat: Seat,
    pub(crate) shape: Shape,
    pub(crate) next: u64,
}

impl Model for LoadPass {
    ghost use Rattle.tag_rule.specs.Shown.{PassShown};

    ghost Value = { PassShown };

    ghost use Rattle.tag_rule.specs.Tokens.{pass_shown, IsLoadPass};

    ghost view = { pass_shown };

    ghost invariant = { IsLoadPass };
}

impl ListSeat {
    /// The shape that the table was made of.
    pub fn shape(&self) -> Shape
        ensures { result ≡ self.now.board.shape }
    {
        self.words.shape
    }

    /// The word that the sweep reads next.
    pub fn reader(&self) -> Option<Reader>
        ensures { result ≡ reader_of self.now.part.sweep }
    {
        self.kept.reader()
    }

    /// The first module that a sweep that is done may release.
    pub fn releasable(&self) -> Option<u32>
        ensures { result ≡ releasable self.now.part.sweep }
    {
        self.kept.releasable()
    }

    /// What took modules off the sweep's list.
    pub fn stops(&self) -> &[Stop]
        ensures { result.now ≡ self.now.part.stops }
    {
        self.kept.stops()
    }

    /// What holds of each seat, for whoever sees its value alone.
    pub fn tell(&self)
        ensures { IsListShown self.now }
    {
        let _records = self.kept.records();
    }
}

impl LoadPass {
    /// One more than the last id that was given.
    pub fn next(&self) -> u64
        ensures { result ≡ self.now.next }
    {
        self.next
    }
}
