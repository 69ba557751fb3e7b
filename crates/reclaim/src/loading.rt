//! A module gets a range of tags.

ghost use Rattle.std.specs.Prelude.{◌≡◌, ◌+◌, ◌<◌, ◌≤◌, length, All, Err, MatchOption, Ok, OnErr, OnOk};
ghost use Rattle.module_area.specs.Area.{least_start};
ghost use Rattle.module_area.specs.Entries.{IsLoadedAs};
ghost use Rattle.reclaim.specs.Loading.{IsPrepared, LoadEnds, early_refusal, late_refusal, loaded_as};
ghost use Rattle.tag_section.specs.Section.{tags_in};

use crate::Locked;
use crate::cleaning::clean_locked;
use module_area::{AreaError, BOOK_LIMIT};
use tag_rule::{LoadPass, load_list};

/// Loads the module of a section under the pass's next id, at the least start that is free. Where there are as many
/// entries as may be, or no gap, it cleans once, and what it answers is of the book after that.
pub fn load_locked(locked: &mut Locked, pass: &mut LoadPass, section: u32) -> Result<u32, AreaError>
    requires table { pass.old.board ≡ locked.old.board }
    ensures answer { MatchOption (early_refusal section locked.old) (LoadEnds section (tags_in locked.old.sections section) pass.old.next locked.old locked.new result) (λ why. (result ≡ Err why) × (locked.new ≡ locked.old)) }
    ensures ok { OnOk result (pass.new ≡ record pass.old { next = pass.old.next + 1 }) }
    ensures err { OnErr result (pass.new ≡ pass.old) }
{
    let size = locked.admit(section)?;
    locked.make_room(size);
    locked.load(pass, section, size)
}

impl Locked {
    // How many tags the section has, if a module of it may be loaded.
    fn admit(&self, section: u32) -> Result<u32, AreaError>
        ensures unnamed { OnOk result (All (λ e. ¬ IsLoadedAs section e) self.now.area.entries) }
        ensures answer { MatchOption (early_refusal section self.now) (result ≡ Ok (tags_in self.now.sections section)) (λ why. result ≡ Err why) }
    {
        if section == 0 || self.sections.count() <= section || self.sections.len_of(section) == 0 {
            return Err(AreaError::NoSection);
        }
        if self.book.loaded(section).is_some() {
            return Err(AreaError::SameName);
        }
        Ok(self.sections.len_of(section))
    }

    // The least start at which so many tags are free.
    fn start_for(&self, size: u32) -> Option<u32>
        requires { 1 ≤ size }
        ensures { result ≡ least_start self.now.area size }
    {
        let _count = self.book.count();
        self.book.least_start(size)
    }

    // Cleans once, where there are as many entries as may be, or no gap.
    fn make_room(&mut self, size: u32)
        requires { 1 ≤ size }
        ensures { IsPrepared size self.old self.new }
    {
        if self.book.count() == BOOK_LIMIT as u32 || self.start_for(size).is_none() {
            clean_locked(self);
        }
    }

    // Loads the module, if there is an id, an entry and a gap for it.
    fn load(&mut self, pass: &mut LoadPass, section: u32, size: u32) -> Result<u32, AreaError>
        requires table { pass.old.board ≡ self.old.board }
        requires some_tags { 1 ≤ size }
        requires named { (section < length self.old.sections) × (tags_in self.old.sections section ≡ size) }
        requires unnamed { All (λ e. ¬ IsLoadedAs section e) self.old.area.entries }
        ensures ends { MatchOption (late_refusal size pass.old.next self.old.area) ((result ≡ Ok pass.old.next) × (self.new ≡ loaded_as pass.old.next section size self.old)) (λ why. (result ≡ Err why) × (self.new ≡ self.old)) }
        ensures ok { OnOk result (pass.new ≡ record pass.old { next = pass.old.next + 1 }) }
        ensures err { OnErr result (pass.new ≡ pass.old) }
    {
        if self.book.count() == BOOK_LIMIT as u32 || pass.next() > u64::from(u32::MAX) {
            return Err(AreaError::BookFull);
        }
        let Some(start) = self.start_for(size) else {
            return Err(AreaError::NoRoom);
        };
        let id = load_list(&mut self.list, pass, section, start, size);
        let _start = self.book.reserve(id, section, size).unwrap();
        Ok(id)
    }
}
