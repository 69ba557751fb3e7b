//! The book, the last id that was given, and the sweep with what it found.

ghost use Rattle.std.specs.Prelude.{◌≡◌, ◌+◌, ◌<◌, ◌≤◌, IsTrue, IsSomeAnd, IfOk, OnOk, OnErr, MatchOption};
ghost use Rattle.tag_model.specs.Laws.{are_dead, sweep_fits};
ghost use Rattle.tag_model.specs.Shape.{IsChecked};
ghost use Rattle.module_area.specs.Entries.{entry_of};
ghost use Rattle.module_area.specs.declared.book.TheConstants.{BOOK_LIMIT, TAG_LIMIT, USER_LIMIT};
ghost use Rattle.module_area.specs.declared.entry.State.TheVariants as state;
ghost use Rattle.core_list.specs.ListState.{IsList, dead_list, entered_list, found_at, fresh_list, left_ids, left_list, load_refusal, loaded, next_of, read_to, records_of, released, scanned, swept_list};

use module_area::{AreaError, BOOK_LIMIT, Book, TAG_LIMIT, USER_LIMIT};
use module_list::RecordList;
use std::alloc::{AllocError, Global};
use std::marker::Model;
use tag_model::{Reader, Shape, Stop};

/// No id is above this.
pub const LAST_ID: u32 = 4_294_967_295;

/// The last id, and how many entries there are at most, as numbers.
pub fn limits_are_these()
    ensures ids { LAST_ID ≡ 4294967295 }
    ensures entries { BOOK_LIMIT ≡ 64 }
{}

/// What a sweep does next.
#[derive(Clone, Copy, Debug, PartialEq, Eq)]
pub enum Next {
    Nothing,
    /// It reads the word of a CPU.
    Read(Reader),
    /// It releases the module of an id.
    Release(u32),
}

/// The module list. Its room is made once, so only `new` takes memory.
#[derive(Drop)]
pub struct CoreList {
    book: Book,
    last_id: u32,
    list: RecordList,
}

impl Model for CoreList {
    ghost use Rattle.std.specs.Prelude.{◌≡◌, map};
    ghost use Rattle.module_list.specs.Listing.{bare_record};
    ghost use Rattle.core_list.specs.ListState.{ListState, IsList, record_of};

    ghost Value = { ListState };

    ghost view = { λ l. record { area = l.book; last_id = l.last_id; sweep = l.list.sweep; stops = l.list.stops } };

    ghost invariant = { λ l. IsList (record { area = l.book; last_id = l.last_id; sweep = l.list.sweep; stops = l.list.stops })
        × (l.list.records ≡ map bare_record (map record_of l.book.entries)) };
}

impl CoreList {
    /// The list of an area of `tags` tags from `first` on, in which nothing was ever loaded.
    pub fn new(alloc: Global, first: u32, tags: u32) -> Result<CoreList, AllocError>
        requires { first + tags ≤ TAG_LIMIT }
        ensures { IfOk result (λ list. list ≡ fresh_list first tags) }
    {
        Ok(CoreList {
            book: Book::new(alloc, first, tags)?,
            last_id: 0,
            list: RecordList::new(alloc)?,
        })
    }

    /// The entries, loaded and dead.
    pub fn book(&self) -> &Book
        ensures value { result.now ≡ self.now.area }
        ensures holds { IsList self.now }
    {
        &self.book
    }

    /// What the sweep does next.
    pub fn next(&self) -> Next
        ensures { result ≡ next_of self.now.sweep }
    {
        match self.list.reader() {
            Some(reader) => Next::Read(reader),
            None => match self.list.releasable() {
                Some(id) => Next::Release(id),
                None => Next::Nothing,
            },
        }
    }

    /// Loads a module of so many tags at the least start that is free.
    pub fn load(&mut self, section: u32, length: u32) -> Result<(), AreaError>
        requires { 1 ≤ length }
        ensures answer { MatchOption (load_refusal section length self.old) (result ≡ Ok tt) (λ why. result ≡ Err why) }
        ensures ok { OnOk result (self.new ≡ loaded section length self.old) }
        ensures err { OnErr result (self.new ≡ self.old) }
    {
        if self.last_id == LAST_ID {
            return match self.book.loaded(section) {
                Some(_id) => Err(AreaError::SameName),
                None => Err(AreaError::BookFull),
            };
        }
        let id = self.last_id + 1;
        let start = self.book.reserve(id, section, length)?;
        self.list.load(id, section, start, length);
        self.last_id = id;
        Ok(())
    }

    /// A CPU comes into a loaded module.
    pub fn enter(&mut self, id: u32)
        requires { IsSomeAnd (entry_of self.old.area.entries id) (λ entry. (entry.state ≡ state.Loaded) × (entry.users < USER_LIMIT)) }
        ensures { self.new ≡ entered_list id self.old }
    {
        self.book.enter(id);
    }

    /// A CPU goes out of a module.
    pub fn leave(&mut self, id: u32)
        requires { IsSomeAnd (entry_of self.old.area.entries id) (λ entry. 0 < entry.users) }
        ensures { self.new ≡ left_list id self.old }
    {
        self.book.leave(id);
    }

    /// Unloads a module that has no users, and begins a sweep of it alone.
    pub fn mark_dead(&mut self, id: u32)
        requires { IsSomeAnd (entry_of self.old.area.entries id) (λ entry. (entry.state ≡ state.Loaded) × (entry.users ≡ 0)) }
        ensures { self.new ≡ dead_list id self.old }
    {
        self.book.set_dead(id);
        self.list.mark_dead(id);
    }

    /// Begins a sweep of all dead modules, by rising id.
    pub fn sweep(&mut self)
        ensures { self.new ≡ swept_list self.old }
    {
        self.list.sweep();
    }

    /// The sweep reads a word. The answer is what takes a module off its list, if that does.
    pub fn scan(&mut self, shape: Shape, word: u64) -> Option<Stop>
        requires checked { IsChecked shape }
        requires fits { IsTrue (sweep_fits shape self.old.sweep (records_of self.old)) }
        ensures after { self.new ≡ scanned shape word self.old }
        ensures found { result ≡ found_at shape word self.old.sweep }
    {
        self.list.scan(shape, word)
    }

    /// The sweep goes on in the tag that it reads, from this CPU on and with this sum. Who calls this has read the words
    /// in between.
    pub fn read_to(&mut self, cpu: u32, sum: u64)
        ensures { self.new ≡ read_to cpu sum self.old }
    {
        self.list.read_to(cpu, sum);
    }

    /// Releases the first module on the list of a sweep that is done.
    pub fn release(&mut self)
        requires { IsTrue (are_dead (left_ids self.old.sweep) (records_of self.old)) }
        ensures { self.new ≡ released self.old }
    {
        if let Some(id) = self.list.releasable() {
            self.book.release(id);
            self.list.release(id);
        }
    }
}
