ghost use Rattle.std.specs.Prelude.{◌≡◌, ◌<◌, [], ◌∷◌, ◌++◌, length, slice_index_or, IfOk, OnOk, OnErr};
ghost use Rattle.tag_section.specs.Section.{no_tag};

use codetag::CodeTag;
use std::alloc::{AllocError, Global};
use std::marker::Model;

/// A section: its name, and its tags in their order.
#[derive(Debug, Drop)]
pub(crate) struct TagLines {
    name: Vec<u8>,
    tags: Vec<CodeTag>,
}

impl Model for TagLines {
    ghost use Rattle.tag_section.specs.Section.{Section};

    ghost Value = { Section };

    ghost view = { λ lines. record { name = lines.name.items; tags = lines.tags.items } };
}

impl TagLines {
    /// A section without tags.
    pub(crate) fn new(alloc: Global, name: &[u8]) -> Result<TagLines, AllocError>
        ensures { IfOk result (λ section. section ≡ record { name = name.now; tags = [] }) }
    {
        Ok(TagLines {
            name: Vec::from_slice(alloc, name)?,
            tags: Vec::new(alloc),
        })
    }

    pub(crate) fn name(&self) -> &[u8]
        ensures { result.now ≡ self.now.name }
    {
        self.name.as_slice()
    }

    pub(crate) fn len(&self) -> usize
        ensures { result ≡ length self.now.tags }
    {
        self.tags.len()
    }

    pub(crate) fn tag(&self, index: usize) -> &CodeTag
        requires { index < length self.now.tags }
        ensures { result.now ≡ slice_index_or self.now.tags index no_tag }
    {
        &self.tags[index]
    }

    pub(crate) fn push(&mut self, tag: CodeTag) -> Result<(), AllocError>
        ensures ok { OnOk result
            (self.new ≡ record { name = self.old.name; tags = self.old.tags ++ tag ∷ [] }) }
        ensures err { OnErr result (self.new ≡ self.old) }
    {
        self.tags.push(tag)?;
        Ok(())
    }
}
