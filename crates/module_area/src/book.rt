ghost use Rattle.std.specs.Prelude.{ℕ, ◌≡◌, ◌≢◌, ◌+◌, ◌<◌, ◌≤◌, ◌==◌, ◌↔◌, List, [], ◌∷◌, ◌++◌, length, slice_get, Some, IsSome, IsNone, IsSomeAnd, IfSome, IfOk, OnErr, IsErrOf, MatchOption, Contains, All, Any};
ghost use Rattle.std.specs.List.{find, position};
ghost use Rattle.module_area.specs.Entries.{Covers, meets, IsLoadedAs, entry_of, id_covering, id_loaded, with_entry, without_entry, entered, left, kept};
ghost use Rattle.module_area.specs.Area.{Area, IsLeastStart, HasNoRoom, IsFull, IsBook, least_start};
ghost use Rattle.module_area.specs.declared.entry.State.TheVariants.{Loaded, Dead};

use crate::entry::{Entry, State};
use std::alloc::{AllocError, Global};
use std::marker::Model;
use thiserror::Error;

/// The most entries of a book.
pub const BOOK_LIMIT: usize = 64;

/// The most users of an entry.
pub const USER_LIMIT: u32 = 64;

/// No area reaches past this tag.
pub const TAG_LIMIT: u32 = 1024;

/// Why no range was reserved.
#[derive(Clone, Copy, Debug, PartialEq, Eq, Error)]
pub enum AreaError {
    #[error("a module of this section is loaded")]
    SameName,
    #[error("the book has as many entries as may be")]
    BookFull,
    #[error("no free range of the area is long enough")]
    NoRoom,
    #[error("there is no such section")]
    NoSection,
}

/// The entries of the module area, by rising id. Its room is made once, so only `new` takes memory.
#[derive(Debug, Drop)]
pub struct Book {
    entries: Vec<Entry>,
    first: u32,
    tags: u32,
}

impl Model for Book {
    ghost use Rattle.std.specs.Prelude.{◌≤◌, vec_capacity};
    ghost use Rattle.module_area.specs.Area.{Area, IsBook};
    ghost use Rattle.module_area.specs.declared.book.TheConstants.{BOOK_LIMIT};

    ghost Value = { Area };

    ghost view = { λ b. record { entries = b.entries.items; first = b.first; tags = b.tags } };

    ghost invariant = { λ b. IsBook (record { entries = b.entries.items; first = b.first; tags = b.tags })
        × (BOOK_LIMIT ≤ vec_capacity b.entries) };
}

impl Book {
    /// A book of an area of `tags` tags from `first` on, with no entry.
    pub fn new(alloc: Global, first: u32, tags: u32) -> Result<Book, AllocError>
        requires { first + tags ≤ TAG_LIMIT }
        ensures empty { IfOk result (λ book. book ≡ record { entries = []; first = first; tags = tags }) }
        ensures formed { IfOk result (λ book. IsBook book) }
    {
        Ok(Book {
            entries: Vec::with_capacity(alloc, BOOK_LIMIT)?,
            first,
            tags,
        })
    }

    /// How many entries there are.
    pub fn count(&self) -> u32
        ensures value { result ≡ length self.now.entries }
        ensures formed { IsBook self.now }
    {
        self.entries.len() as u32
    }

    /// The entry at a place.
    pub fn at(&self, place: u32) -> Entry
        requires { place < length self.now.entries }
        ensures value { slice_get self.now.entries place ≡ Some result }
        ensures formed { IsBook self.now }
    {
        self.entries[place as usize]
    }

    /// The entry of an id.
    pub fn get(&self, id: u32) -> Option<Entry>
        ensures value { result ≡ entry_of self.now.entries id }
        ensures found { IfSome result
            (λ entry. Contains self.now.entries entry × (entry.id ≡ id)) }
        ensures none { IsNone result ↔ All (λ entry. entry.id ≢ id) self.now.entries }
        ensures formed { IsBook self.now }
    {
        self.entries.iter().copied().find(|entry| entry.id == id)
    }

    /// The id of the section's loaded module.
    pub fn loaded(&self, section: u32) -> Option<u32>
        ensures value { result ≡ id_loaded self.now.entries section }
        ensures found { IfSome result
            (λ id. Any (λ entry. (entry.id ≡ id) × IsLoadedAs section entry) self.now.entries) }
        ensures none { IsNone result ↔ All (λ entry. ¬ IsLoadedAs section entry) self.now.entries }
        ensures formed { IsBook self.now }
    {
        self.entries
            .iter()
            .find(|entry| entry.is_loaded_as(section))
            .map(|entry| entry.id)
    }

    /// The id of the entry whose range has a tag.
    pub fn covering(&self, tag: u32) -> Option<u32>
        ensures value { result ≡ id_covering self.now.entries tag }
        ensures found { IfSome result
            (λ id. Any (λ entry. (entry.id ≡ id) × Covers entry tag) self.now.entries) }
        ensures none { IsNone result ↔ All (λ entry. ¬ Covers entry tag) self.now.entries }
        ensures formed { IsBook self.now }
    {
        self.entries
            .iter()
            .find(|entry| entry.covers(tag))
            .map(|entry| entry.id)
    }

    /// Sets how many tags the area has.
    pub fn resize(&mut self, tags: u32)
        requires small { self.old.first + tags ≤ TAG_LIMIT }
        requires within { All (λ entry. entry.start + entry.length ≤ self.old.first + tags)
            self.old.entries }
        ensures after { self.new ≡ record self.old { tags = tags } }
        ensures formed { IsBook self.new }
    {
        self.tags = tags;
    }

    /// Gives `length` tags to a module that is loaded under a new id, at the least start that is free.
    pub fn reserve(&mut self, id: u32, section: u32, length: u32) -> Result<u32, AreaError>
        requires some_tags { 1 ≤ length }
        requires above_zero { 0 < id }
        requires rising { All (λ entry. entry.id < id) self.old.entries }
        ensures reserved { IfOk result (λ start. IsLeastStart self.old length start
            × (self.new ≡ record self.old {
              entries = self.old.entries
                  ++ record { id = id; section = section; start = start; length = length; state = Loaded; users = 0 } ∷ [];
            })) }

        ensures same_name { IsErrOf result AreaError.SameName
            ↔ Any (IsLoadedAs section) self.old.entries }
        ensures book_full { IsErrOf result AreaError.BookFull
            ↔ (All (λ entry. ¬ IsLoadedAs section entry) self.old.entries × IsFull self.old) }
        ensures no_room { IsErrOf result AreaError.NoRoom
            ↔ (All (λ entry. ¬ IsLoadedAs section entry) self.old.entries
            × (¬ IsFull self.old) × HasNoRoom self.old length) }
        ensures never { ¬ IsErrOf result AreaError.NoSection }
        ensures err { OnErr result (self.new ≡ self.old) }
        ensures formed { IsBook self.new }
    {
        if self.loaded(section).is_some() {
            return Err(AreaError::SameName);
        }
        if self.entries.len() == BOOK_LIMIT {
            return Err(AreaError::BookFull);
        }
        match self.least_start(length) {
            None => Err(AreaError::NoRoom),
            Some(start) => {
                self.append(id, section, start, length);
                Ok(start)
            }
        }
    }

    /// Counts one more user of a loaded module.
    pub fn enter(&mut self, id: u32)
        requires { IsSomeAnd (entry_of self.old.entries id)
            (λ entry. (entry.state ≡ Loaded) × (entry.users < USER_LIMIT)) }
        ensures after { self.new ≡ record self.old { entries = with_entry id entered self.old.entries } }
        ensures formed { IsBook self.new }
    {
        let place = self.place_of(id);
        self.entries[place].users += 1;
    }

    /// Counts one user less.
    pub fn leave(&mut self, id: u32)
        requires { IsSomeAnd (entry_of self.old.entries id) (λ entry. 0 < entry.users) }
        ensures after { self.new ≡ record self.old { entries = with_entry id left self.old.entries } }
        ensures formed { IsBook self.new }
    {
        let place = self.place_of(id);
        self.entries[place].users -= 1;
    }

    /// Unloads a module that has no users. Its range is kept.
    pub fn set_dead(&mut self, id: u32)
        requires { IsSomeAnd (entry_of self.old.entries id)
            (λ entry. (entry.state ≡ Loaded) × (entry.users ≡ 0)) }
        ensures after { self.new ≡ record self.old { entries = with_entry id kept self.old.entries } }
        ensures formed { IsBook self.new }
    {
        let place = self.place_of(id);
        self.entries[place].state = State::Dead;
    }

    /// Gives the range of an unloaded module back.
    pub fn release(&mut self, id: u32)
        requires { IsSomeAnd (entry_of self.old.entries id) (λ entry. entry.state ≡ Dead) }
        ensures after { self.new ≡ record self.old { entries = without_entry id self.old.entries } }
        ensures formed { IsBook self.new }
    {
        self.entries.retain(|entry| entry.id != id);
    }

    // The place of the entry of an id.
    fn place_of(&self, id: u32) -> usize
        requires { IsSome (entry_of self.now.entries id) }
        ensures within { result < length self.now.entries }
        ensures there { slice_get self.now.entries result ≡ entry_of self.now.entries id }
    {
        self.position(id).unwrap()
    }

    // The place of the entry of an id, if there is one.
    fn position(&self, id: u32) -> Option<usize>
        ensures { result ≡ position (λ entry. entry.id == id) self.now.entries }
    {
        self.entries.iter().position(|entry| entry.id == id)
    }

    // The first entry whose range has one of the `size` tags from `start` on.
    fn met(&self, start: u32, size: u32) -> Option<Entry>
        requires { 1 ≤ size }
        ensures value { result ≡ find (λ entry. meets entry start size) self.now.entries }
        ensures formed { IsBook self.now }
    {
        self.entries
            .iter()
            .copied()
            .find(|entry| entry.meets(start, size))
    }

    /// The least start at which `size` tags are free. Where some are covered, no start before the end of the
    /// entry that covers one is free.
    pub fn least_start(&self, size: u32) -> Option<u32>
        requires { 1 ≤ size }
        ensures value { result ≡ least_start self.now size }
        ensures least { MatchOption result (HasNoRoom self.now size) (IsLeastStart self.now size) }
    {
        let end = self.first + self.tags;
        let mut start = self.first;
        while size <= end - start {
            match self.met(start, size) {
                None => return Some(start),
                Some(entry) => start = entry.start + entry.length,
            }
        }
        None
    }

    // Puts the entry of a loaded module at the end.
    fn append(&mut self, id: u32, section: u32, start: u32, size: u32)
        requires room { length self.old.entries < BOOK_LIMIT }
        requires some_tags { 1 ≤ size }
        requires above_zero { 0 < id }
        requires rising { All (λ entry. entry.id < id) self.old.entries }
        requires new_section { All (λ entry. ¬ IsLoadedAs section entry) self.old.entries }
        requires least { IsLeastStart self.old size start }
        ensures formed { IsBook self.new }
        ensures after { self.new ≡ record self.old {
          entries = self.old.entries
              ++ record { id = id; section = section; start = start; length = size; state = Loaded; users = 0 } ∷ [];
        } }
    {
        self.entries
            .push(Entry {
                id,
                section,
                start,
                length: size,
                state: State::Loaded,
                users: 0,
            })
            .unwrap();
    }
}
