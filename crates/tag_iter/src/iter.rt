ghost use Rattle.std.specs.Prelude.{◌≡◌, true, false};
ghost use Rattle.tag_iter.specs.Places.{fresh_iter};

use crate::TagPlace;

/// A walk over the tags of a module list: which it gave last, and whether kept ranges are walked too.
#[derive(Clone, Copy, Debug)]
pub struct TagIter {
    pub(crate) all: bool,
    pub(crate) last: Option<TagPlace>,
}

impl TagIter {
    /// Walks the kernel's section and the loaded modules.
    pub fn new() -> TagIter
        ensures { result ≡ fresh_iter false }
    {
        TagIter {
            all: false,
            last: None,
        }
    }

    /// Walks the kernel's section, the loaded modules, and then the ranges that are kept.
    pub fn new_all() -> TagIter
        ensures { result ≡ fresh_iter true }
    {
        TagIter {
            all: true,
            last: None,
        }
    }
}
