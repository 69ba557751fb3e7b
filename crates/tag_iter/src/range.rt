ghost use Rattle.std.specs.Prelude.{ℕ, ◌≡◌, ◌+◌, ◌<◌, ◌≤◌, false, nat_le, MatchOption};
ghost use Rattle.std.specs.List.{find};
ghost use Rattle.tag_iter.specs.Places.{is_above, kernel_range, place_at, places_in, range_of};

use crate::TagPlace;
use module_area::{Entry, State};
use tag_section::Sections;

/// The tags of one section, numbered from `start` on, under a module's id.
#[derive(Clone, Copy, Debug)]
pub struct TagRange {
    pub module: u32,
    pub section: u32,
    pub start: u32,
    pub size: u32,
    pub kept: bool,
}

impl TagRange {
    // The kernel's section.
    pub(crate) fn kernel(sections: &Sections) -> TagRange
        ensures value { result ≡ kernel_range sections.now }
        ensures small { result.size ≤ 1024 }
    {
        let size = if sections.count() == 0 {
            0
        } else {
            sections.len_of(0)
        };
        TagRange {
            module: 0,
            section: 0,
            start: 0,
            size,
            kept: false,
        }
    }

    // The range of a module.
    pub(crate) fn of(entry: Entry) -> TagRange
        ensures { result ≡ range_of entry }
    {
        TagRange {
            module: entry.id,
            section: entry.section,
            start: entry.start,
            size: entry.length,
            kept: match entry.state {
                State::Loaded => false,
                State::Dead => true,
            },
        }
    }

    // The place of an index.
    fn place(&self, index: u32) -> TagPlace
        requires within { index < self.now.size }
        requires small { self.now.start + self.now.size ≤ 1024 }
        ensures { result ≡ place_at self.now index }
    {
        TagPlace {
            module: self.module,
            section: self.section,
            index,
            number: self.start + index,
            kept: self.kept,
        }
    }

    // The index from which on the range's places stand above the last one, if it has any.
    fn index_above(&self, last: Option<TagPlace>) -> Option<u32>
        ensures { MatchOption result
            ((index : ℕ) → index < self.now.size → is_above last (place_at self.now index) ≡ false)
            (λ first. (index : ℕ) → is_above last (place_at self.now index) ≡ nat_le first index) }
    {
        let Some(last) = last else {
            return Some(0);
        };
        match (last.kept, self.kept) {
            (false, true) => Some(0),
            (true, false) => None,
            _ if last.module < self.module => Some(0),
            _ if last.module == self.module && last.index < self.size => Some(last.index + 1),
            _ => None,
        }
    }

    // The first place of the range above the last one.
    pub(crate) fn first_above(&self, last: Option<TagPlace>) -> Option<TagPlace>
        requires { self.now.start + self.now.size ≤ 1024 }
        ensures { result ≡ find (is_above last) (places_in self.now) }
    {
        let Some(first) = self.index_above(last) else {
            return None;
        };
        if first < self.size {
            Some(self.place(first))
        } else {
            None
        }
    }
}
