ghost use Rattle.std.specs.Prelude.{ℕ, ◌≡◌, ◌≢◌, ◌+◌, ◌-◌, ◌<◌, ◌≤◌, ◌↔◌, List, [], ◌∷◌, ◌++◌, length, Some, IsSome, IsNone, IfSome, IfOk, IfErr, OnOk, OnErr, IsErrOf, All};
ghost use Rattle.tag_section.specs.ModuleName.{kernel_name, IsModuleName};
ghost use Rattle.tag_section.specs.Section.{section_at, tag_at, number_of, with_section, with_tag, section_limit, tag_limit, AreSections, MayBegin};
ghost use Rattle.tag_section.specs.Refusals.{IsNameRefusal, IsTagRefusal};

use crate::module_name::{is_kernel, is_module_name};
use crate::tag_lines::TagLines;
use codetag::CodeTag;
use std::alloc::{AllocError, Global};
use std::collections::BTreeMap;
use std::marker::Model;
use thiserror::Error;

/// The most sections: the kernel's, and 64 of modules.
pub const SECTION_LIMIT: usize = 65;

/// The most tags of the kernel's section.
pub const KERNEL_TAG_LIMIT: usize = 128;

/// The most tags of a module's section.
pub const MODULE_TAG_LIMIT: usize = 896;

/// Why no section was begun, or no tag was added.
#[derive(Clone, Copy, Debug, PartialEq, Eq, Error)]
pub enum SectionError {
    #[error("the first section is not the kernel's")]
    KernelFirst,
    #[error("the section's name is not of its form")]
    BadName,
    #[error("a section has this name")]
    SameName,
    #[error("there are as many sections as may be")]
    TooManySections,
    #[error("the section has as many tags as it may have")]
    TooManyTags,
    #[error("out of memory")]
    Memory(AllocError),
}

impl From<AllocError> for SectionError {
    ghost use Rattle.std.specs.Prelude.{◌≡◌};
    ghost use Rattle.tag_section.specs.declared.sections.SectionError.TheVariants.{Memory};

    ghost from_gives = { λ cause error. error ≡ Memory cause };

    fn from(cause: AllocError) -> SectionError {
        SectionError::Memory(cause)
    }
}

/// A list of sections. Its first section is the kernel's, and names are found by an ordered map.
#[derive(Debug, Drop)]
pub struct Sections {
    alloc: Global,
    sections: Vec<TagLines>,
    numbers: BTreeMap<Vec<u8>, u32>,
}

impl Model for Sections {
    ghost use Rattle.std.specs.Prelude.{List};
    ghost use Rattle.tag_section.specs.Section.{Section, AreSections};
    ghost use Rattle.tag_section.specs.Numbers.{AreNumbers};

    ghost Value = { List Section };

    ghost view = { λ s. s.sections.items };

    ghost invariant = { λ s. AreSections s.sections.items × AreNumbers s.numbers s.sections.items };
}

impl Sections {
    /// No section. Takes no memory.
    pub fn new(alloc: Global) -> Sections
        ensures { result ≡ [] }
    {
        Sections {
            alloc,
            sections: Vec::new(alloc),
            numbers: BTreeMap::new(alloc),
        }
    }

    /// How many sections there are.
    pub fn count(&self) -> u32
        ensures value { result ≡ length self.now }
        ensures formed { AreSections self.now }
    {
        self.sections.len() as u32
    }

    /// The name of a section.
    pub fn name(&self, section: u32) -> &[u8]
        requires { section < length self.now }
        ensures value { result.now ≡ (section_at self.now section).name }
        ensures formed { AreSections self.now }
    {
        self.sections[section as usize].name()
    }

    /// How many tags a section has.
    pub fn len_of(&self, section: u32) -> u32
        requires { section < length self.now }
        ensures value { result ≡ length (section_at self.now section).tags }
        ensures formed { AreSections self.now }
    {
        self.sections[section as usize].len() as u32
    }

    /// A tag of a section.
    pub fn tag(&self, section: u32, index: u32) -> &CodeTag
        requires in_list { section < length self.now }
        requires in_section { index < length (section_at self.now section).tags }
        ensures value { result.now ≡ tag_at self.now section index }
        ensures formed { AreSections self.now }
    {
        self.sections[section as usize].tag(index as usize)
    }

    /// The number of the section with a name.
    pub fn find(&self, name: &[u8]) -> Option<u32>
        ensures value { result ≡ number_of self.now name.now }
        ensures found { IfSome result
            (λ number. (number < length self.now) × ((section_at self.now number).name ≡ name.now)) }
        ensures none { IsNone result ↔ All (λ section. section.name ≢ name.now) self.now }
        ensures formed { AreSections self.now }
    {
        self.numbers.get(name).copied()
    }

    /// Begins a section, and gives its number. The first section is `kernel`.
    pub fn begin(&mut self, name: &[u8]) -> Result<u32, SectionError>
        ensures begun { IfOk result
            (λ number. (number ≡ length self.old) × (self.new ≡ with_section self.old name.now)) }
        ensures may { OnOk result (MayBegin self.old name.now) }

        ensures kernel_first { IsErrOf result SectionError.KernelFirst
            ↔ ((self.old ≡ []) × (name.now ≢ kernel_name)) }
        ensures bad_name { IsErrOf result SectionError.BadName
            ↔ ((self.old ≢ []) × ¬ IsModuleName name.now) }
        ensures same_name { IsErrOf result SectionError.SameName
            ↔ ((self.old ≢ []) × IsModuleName name.now × IsSome (number_of self.old name.now)) }
        ensures too_many { IsErrOf result SectionError.TooManySections
            ↔ ((length self.old ≡ section_limit) × IsModuleName name.now
            × IsNone (number_of self.old name.now)) }
        ensures never { ¬ IsErrOf result SectionError.TooManyTags }
        ensures err { OnErr result (self.new ≡ self.old) }
    {
        self.admit(name)?;
        let number = self.append(name)?;
        Ok(number)
    }

    /// Adds a tag at the end of the last section.
    pub fn add_line(&mut self, tag: CodeTag) -> Result<(), SectionError>
        requires { 0 < length self.old }
        ensures added { OnOk result (self.new ≡ with_tag self.old tag) }
        ensures too_many { IsErrOf result SectionError.TooManyTags
            ↔ (length (section_at self.old (length self.old - 1)).tags
            ≡ tag_limit (length self.old - 1)) }
        ensures only { IfErr result IsTagRefusal }
        ensures err { OnErr result (self.new ≡ self.old) }
    {
        let last = self.sections.len() - 1;
        let limit = if last == 0 {
            KERNEL_TAG_LIMIT
        } else {
            MODULE_TAG_LIMIT
        };
        let lines = &mut self.sections[last];
        if lines.len() == limit {
            return Err(SectionError::TooManyTags);
        }
        lines.push(tag)?;
        Ok(())
    }

    // Whether a section of this name may begin.
    fn admit(&self, name: &[u8]) -> Result<(), SectionError>
        ensures may { OnOk result (MayBegin self.now name.now) }
        ensures kernel_first { IsErrOf result SectionError.KernelFirst
            ↔ ((self.now ≡ []) × (name.now ≢ kernel_name)) }
        ensures bad_name { IsErrOf result SectionError.BadName
            ↔ ((self.now ≢ []) × ¬ IsModuleName name.now) }
        ensures same_name { IsErrOf result SectionError.SameName
            ↔ ((self.now ≢ []) × IsModuleName name.now × IsSome (number_of self.now name.now)) }
        ensures too_many { IsErrOf result SectionError.TooManySections
            ↔ ((length self.now ≡ section_limit) × IsModuleName name.now
            × IsNone (number_of self.now name.now)) }
        ensures only { IfErr result IsNameRefusal }
    {
        if self.sections.is_empty() {
            if !is_kernel(name) {
                return Err(SectionError::KernelFirst);
            }
            return Ok(());
        }
        if !is_module_name(name) {
            return Err(SectionError::BadName);
        }
        if self.find(name).is_some() {
            return Err(SectionError::SameName);
        }
        if self.sections.len() == SECTION_LIMIT {
            return Err(SectionError::TooManySections);
        }
        Ok(())
    }

    // Puts a section of a new name at the end.
    fn append(&mut self, name: &[u8]) -> Result<u32, AllocError>
        requires { MayBegin self.old name.now }
        ensures begun { IfOk result
            (λ number. (number ≡ length self.old) × (self.new ≡ with_section self.old name.now)) }
        ensures err { OnErr result (self.new ≡ self.old) }
    {
        let lines = TagLines::new(self.alloc, name)?;
        let key = Vec::from_slice(self.alloc, name)?;
        self.sections.reserve(1)?;
        let number = self.sections.len() as u32;
        self.numbers.insert(key, number)?;
        self.sections.push(lines).unwrap();
        Ok(number)
    }
}
