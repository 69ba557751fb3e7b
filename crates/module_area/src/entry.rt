ghost use Rattle.std.specs.Prelude.{◌≡◌, ◌≤◌};

/// Whether a module is loaded, or is unloaded and its range is kept.
#[derive(Clone, Copy, Debug, PartialEq, Eq)]
pub enum State {
    Loaded,
    Dead,
}

/// The range of a module's tags: `length` tags from `start` on.
#[derive(Clone, Copy, Debug, PartialEq, Eq)]
pub struct Entry {
    pub id: u32,
    pub section: u32,
    pub start: u32,
    pub length: u32,
    pub state: State,
    /// How many CPUs are inside the module.
    pub users: u32,
}

impl Entry {
    ghost use Rattle.module_area.specs.Entries.{covers, meets, is_loaded_as};

    // Whether the range has a tag.
    pub(crate) fn covers(&self, tag: u32) -> bool
        ensures { result ≡ covers self.now tag }
    {
        self.start <= tag && tag - self.start < self.length
    }

    // Whether the range has one of the `length` tags from `start` on.
    pub(crate) fn meets(&self, start: u32, length: u32) -> bool
        requires { 1 ≤ length }
        ensures { result ≡ meets self.now start length }
    {
        if self.start <= start {
            start - self.start < self.length
        } else {
            self.start - start < length
        }
    }

    // Whether this is the section's loaded module.
    pub(crate) fn is_loaded_as(&self, section: u32) -> bool
        ensures { result ≡ is_loaded_as section self.now }
    {
        match self.state {
            State::Loaded => self.section == section,
            State::Dead => false,
        }
    }
}
