ghost use Rattle.std.specs.Prelude.{◌≡◌, ◌+◌, ◌≤◌, [], ◌∷◌, MatchOption};
ghost use Rattle.tag_iter.specs.Places.{IsLeastAbove, NoneAbove, after_place, found_in, is_in, next_place, places_of};

use crate::range::TagRange;
use crate::{TagIter, TagPlace};
use module_area::{Book, Entry, State};
use reclaim::{Listed, Locked};
use tag_rule::Name;

/// The least place of the walk above the last one. Where there is none the iterator stays.
pub fn next_locked(iter: &mut TagIter, locked: &Locked) -> Option<TagPlace>
    ensures least { MatchOption result
        (NoneAbove iter.old.last (places_of iter.old.all locked.now))
        (IsLeastAbove iter.old.last (places_of iter.old.all locked.now)) }
    ensures value { result ≡ next_place iter.old locked.now }
    ensures after { iter.new ≡ after_place iter.old result }
{
    locked.tell();
    let next = iter.place_above(locked);
    if next.is_some() {
        iter.last = next;
    }
    next
}

impl TagIter {
    /// As `next_locked`.
    pub fn next<N: Name>(&mut self, listed: &Listed<N>) -> Option<TagPlace>
        ensures least { MatchOption result
            (NoneAbove self.old.last (places_of self.old.all listed.now.locked))
            (IsLeastAbove self.old.last (places_of self.old.all listed.now.locked)) }
        ensures value { result ≡ next_place self.old listed.now.locked }
        ensures after { self.new ≡ after_place self.old result }
    {
        next_locked(self, listed.locked())
    }

    // The first place of the walk above the last one.
    fn place_above(&self, locked: &Locked) -> Option<TagPlace>
        ensures { result ≡ next_place self.now locked.now }
    {
        let kernel = TagRange::kernel(locked.sections());
        if let Some(place) = kernel.first_above(self.last) {
            return Some(place);
        }
        let book = locked.book();
        if let Some(place) = first_in(book, State::Loaded, self.last) {
            return Some(place);
        }
        if self.all {
            first_in(book, State::Dead, self.last)
        } else {
            None
        }
    }
}

// The first place above the last one in the ranges of the modules of a state.
fn first_in(book: &Book, state: State, last: Option<TagPlace>) -> Option<TagPlace>
    ensures { result ≡ found_in last state book.now.entries }
{
    for place in 0..book.count() {
        let found = first_of(book.at(place), state, last);
        if found.is_some() {
            return found;
        }
    }
    None
}

// The first place above the last one in the range of a module, if it has the state.
fn first_of(entry: Entry, state: State, last: Option<TagPlace>) -> Option<TagPlace>
    requires { entry.start + entry.length ≤ 1024 }
    ensures { result ≡ found_in last state (entry ∷ []) }
{
    if is_in(entry, state) {
        TagRange::of(entry).first_above(last)
    } else {
        None
    }
}

// Whether the module has the state.
fn is_in(entry: Entry, state: State) -> bool
    ensures { result ≡ is_in state entry }
{
    entry.state == state
}
