//! The module list, as it lies behind its lock.

ghost use Rattle.std.specs.Prelude.{◌≡◌, ◌+◌, ◌≤◌, All, []};
ghost use Rattle.std.specs.Arc.{arc_value};
ghost use Rattle.module_area.specs.declared.entry.Entry.{Entry};
ghost use Rattle.tag_rule.specs.Fresh.{fresh_list};
ghost use Rattle.reclaim.specs.State.{IsLocked, IsNamed};

use module_area::Book;
use std::alloc::Global;
use std::marker::Model;
use std::sync::Arc;
use tag_rule::ListSeat;
use tag_section::Sections;

/// The book of module ranges, the sections that it names, and the right to the module list.
#[derive(Drop)]
pub struct Locked {
    pub(crate) book: Book,
    pub(crate) list: ListSeat,
    pub(crate) sections: Arc<Sections, Global>,
}

impl Model for Locked {
    ghost use Rattle.reclaim.specs.State.{LockedShown};

    ghost Value = { LockedShown };

    ghost use Rattle.reclaim.specs.Tied.{IsTied, locked_shown};

    ghost view = { locked_shown };

    ghost invariant = { IsTied };
}

impl Locked {
    /// A book and a list in which nothing was ever loaded, with the sections of what is loaded later.
    pub fn new(book: Book, list: ListSeat, sections: Arc<Sections, Global>) -> Locked
        requires empty { (book.entries ≡ []) × (list.part ≡ fresh_list) }
        requires first { book.first ≡ list.board.shape.kernel_tags }
        requires within { book.first + book.tags ≤ list.board.shape.tags }
        ensures { result ≡ record { board = list.board; area = book; sections = arc_value sections; sweep = list.part.sweep; stops = list.part.stops; reads = list.part.reads } }
    {
        Locked {
            book,
            list,
            sections,
        }
    }

    /// The entries, loaded and dead.
    pub fn book(&self) -> &Book
        ensures value { result.now ≡ self.now.area }
        ensures holds { IsLocked self.now }
    {
        &self.book
    }

    /// The sections.
    pub fn sections(&self) -> &Sections
        ensures value { result.now ≡ self.now.sections }
        ensures holds { IsLocked self.now }
    {
        &self.sections
    }

    /// What holds of each, for whoever sees its value alone.
    pub fn tell(&self)
        ensures { IsLocked self.now }
    {
        let _book = &self.book;
    }

    /// Puts other sections and another number of the area's tags in place of those there are.
    pub fn put_sections(&mut self, sections: Arc<Sections, Global>, tags: u32)
        requires named { All (IsNamed (arc_value sections)) self.old.area.entries }
        requires lie { All (λ (e : Entry). e.start + e.length ≤ self.old.area.first + tags) self.old.area.entries }
        requires within { self.old.area.first + tags ≤ self.old.board.shape.tags }
        ensures { self.new ≡ record self.old { area = record self.old.area { tags = tags }; sections = arc_value sections } }
    {
        self.book.resize(tags);
        self.sections = sections;
    }
}
