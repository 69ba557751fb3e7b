//! The sizes and the sections, which stand before the body.

ghost use Rattle.std.specs.Prelude.{◌≡◌, ◌<◌, ◌≤◌, length, [], IfSome, OnOk};
ghost use Rattle.tag_section.specs.ModuleName.{kernel_name};
ghost use Rattle.tag_section.specs.Section.{with_section};
ghost use Rattle.input_form.specs.Head.{head_line, head_word, least, most, size_in, with_size, size_line, kernel_line, module_line, tag_line, section_form, begun, added, tag_of, empty_head, cpus_of};
ghost use Rattle.input_form.specs.Judging.{Leaves, Gives};

use crate::code::Code;
use crate::line_error::LineError;
use crate::words::{is_word, need, number_word};
use codetag::{CodeTag, TagError};
use std::alloc::{AllocError, Global};
use tag_section::{SectionError, Sections};
use text_form::{LineWords, parse_number};

/// What a size line sets.
#[derive(Clone, Copy, Debug, PartialEq, Eq)]
pub enum Size {
    Cpus,
    Area,
    Frames,
    Vectors,
}

/// The first word of a line that stands before the body.
#[derive(Clone, Copy, Debug, PartialEq, Eq)]
pub enum HeadWord {
    Size(Size),
    Kernel,
    Module,
    Tag,
}

/// What a first word of both languages says. A language may have more sizes.
#[tactic(auto, unfolding(crate::specs::Head::head_word))]
pub fn head_word(word: &[u8]) -> Result<HeadWord, Code>
    ensures { result ≡ head_word word.now }
{
    if is_word(word, b"cpus") {
        Ok(HeadWord::Size(Size::Cpus))
    } else if is_word(word, b"area") {
        Ok(HeadWord::Size(Size::Area))
    } else if is_word(word, b"kernel") {
        Ok(HeadWord::Kernel)
    } else if is_word(word, b"module") {
        Ok(HeadWord::Module)
    } else if is_word(word, b"tag") {
        Ok(HeadWord::Tag)
    } else {
        Err(Code::Word)
    }
}

/// The sizes that were set so far, and the sections so far.
#[derive(Debug, Drop)]
pub struct Head {
    pub cpus: Option<u32>,
    pub area: Option<u32>,
    pub frames: Option<u32>,
    pub vectors: Option<u32>,
    pub sections: Sections,
}

/// Nothing is set, and no section is there.
pub fn empty_head(alloc: Global) -> Head
    ensures { result ≡ empty_head }
{
    Head {
        cpus: None,
        area: None,
        frames: None,
        vectors: None,
        sections: Sections::new(alloc),
    }
}

/// How many CPUs there are.
pub fn cpus_of(head: &Head) -> u32
    ensures { result ≡ cpus_of head.now }
{
    head.cpus.unwrap_or(4)
}

fn least(size: Size) -> u32
    ensures { result ≡ least size }
{
    match size {
        Size::Cpus | Size::Frames => 1,
        Size::Area | Size::Vectors => 0,
    }
}

fn most(size: Size) -> u32
    ensures { result ≡ most size }
{
    match size {
        Size::Cpus | Size::Vectors => 64,
        Size::Area => 896,
        Size::Frames => 1024,
    }
}

fn size_in(head: &Head, size: Size) -> Option<u32>
    ensures { result ≡ size_in head.now size }
{
    match size {
        Size::Cpus => head.cpus,
        Size::Area => head.area,
        Size::Frames => head.frames,
        Size::Vectors => head.vectors,
    }
}

fn set_size(head: &mut Head, size: Size, value: u32)
    ensures { head.new ≡ with_size head.old size value }
{
    match size {
        Size::Cpus => head.cpus = Some(value),
        Size::Area => head.area = Some(value),
        Size::Frames => head.frames = Some(value),
        Size::Vectors => head.vectors = Some(value),
    }
}

// `cpus N`, `area N`, `frames N` or `vectors N`
#[tactic(auto, unfolding(crate::specs::Head::size_line))]
fn size_line(head: &mut Head, size: Size, line: &LineWords<'_>) -> Result<(), LineError>
    ensures { Leaves result head.new (size_line size line.now head.old) }
{
    need(head.sections.count() == 0, Code::Order)?;
    need(size_in(head, size).is_none(), Code::Repeat)?;
    need(line.count() == 2, Code::Word)?;
    let value = number_word(line.at(1), least(size), most(size))?;
    set_size(head, size, value);
    Ok(())
}

/// Whether there is a section, and the last one has a tag.
#[tactic(auto, unfolding(crate::specs::Head::section_form))]
pub fn section_form(sections: &Sections) -> Result<(), Code>
    ensures value { result ≡ section_form sections.now }
    ensures some { OnOk result (0 < length sections.now) }
{
    let count = sections.count();
    if count == 0 {
        return Err(Code::Order);
    }
    need(sections.len_of(count - 1) > 0, Code::Empty)
}

fn begin(sections: &mut Sections, name: &[u8]) -> Result<(), LineError>
    requires { 0 < length sections.old }
    ensures { Leaves result sections.new (begun name.now sections.old) }
{
    match sections.begin(name) {
        Ok(_) => Ok(()),
        Err(SectionError::Memory(error)) => Err(LineError::Memory(error)),
        Err(SectionError::BadName) => Err(LineError::Refused(Code::Name)),
        Err(SectionError::SameName) => Err(LineError::Refused(Code::Name)),
        Err(SectionError::TooManySections) => Err(LineError::Refused(Code::Sections)),
        Err(_) => unreachable!(),
    }
}

fn begin_kernel(sections: &mut Sections) -> Result<(), AllocError>
    requires { sections.old ≡ [] }
    ensures { OnOk result (sections.new ≡ with_section sections.old kernel_name) }
{
    match sections.begin(b"kernel") {
        Ok(_) => Ok(()),
        Err(SectionError::Memory(error)) => Err(error),
        Err(_) => unreachable!(),
    }
}

// `kernel`
#[tactic(auto, unfolding(crate::specs::Head::kernel_line))]
fn kernel_line(head: &mut Head, line: &LineWords<'_>) -> Result<(), LineError>
    ensures { Leaves result head.new (kernel_line line.now head.old) }
{
    need(head.sections.count() == 0, Code::Order)?;
    need(line.count() == 1, Code::Word)?;
    begin_kernel(&mut head.sections)?;
    Ok(())
}

// `module NAME`
#[tactic(auto, unfolding(crate::specs::Head::module_line))]
fn module_line(head: &mut Head, in_body: bool, line: &LineWords<'_>) -> Result<(), LineError>
    ensures { Leaves result head.new (module_line in_body line.now head.old) }
{
    need(!in_body, Code::Order)?;
    section_form(&head.sections)?;
    need(line.count() == 2, Code::Word)?;
    begin(&mut head.sections, line.at(1))
}

// A tag, by its parts. The line is None where its word is no number of the range.
fn tag_of(
    alloc: Global,
    file: &[u8],
    line: Option<u64>,
    function: &[u8],
) -> Result<CodeTag, LineError>
    requires { IfSome line (λ n. (1 ≤ n) × (n ≤ 4294967295)) }
    ensures { Gives result (tag_of file.now line function.now) }
{
    match CodeTag::new(alloc, file, line.unwrap_or(0), function) {
        Ok(tag) => Ok(tag),
        Err(TagError::BadFile) => Err(LineError::Refused(Code::File)),
        Err(TagError::BadLine) => Err(LineError::Refused(Code::Number)),
        Err(TagError::BadFunction) => Err(LineError::Refused(Code::Function)),
        Err(TagError::Memory(error)) => Err(LineError::Memory(error)),
    }
}

fn add(sections: &mut Sections, tag: CodeTag) -> Result<(), LineError>
    requires { 0 < length sections.old }
    ensures { Leaves result sections.new (added tag sections.old) }
{
    match sections.add_line(tag) {
        Ok(()) => Ok(()),
        Err(SectionError::Memory(error)) => Err(LineError::Memory(error)),
        Err(SectionError::TooManyTags) => Err(LineError::Refused(Code::Tags)),
        Err(_) => unreachable!(),
    }
}

// `tag FILE LINE FUNCTION`
#[tactic(auto, unfolding(crate::specs::Head::tag_line))]
fn tag_line(
    alloc: Global,
    head: &mut Head,
    in_body: bool,
    line: &LineWords<'_>,
) -> Result<(), LineError>
    ensures { Leaves result head.new (tag_line in_body line.now head.old) }
{
    need(head.sections.count() > 0 && !in_body, Code::Order)?;
    need(line.count() == 4, Code::Word)?;
    let number = parse_number(line.at(2), 1, 4_294_967_295);
    let tag = tag_of(alloc, line.at(1), number, line.at(3))?;
    add(&mut head.sections, tag)
}

/// A line that stands before the body, by its first word.
#[tactic(auto, unfolding(crate::specs::Head::head_line))]
pub fn head_line(
    alloc: Global,
    head: &mut Head,
    which: HeadWord,
    in_body: bool,
    line: &LineWords<'_>,
) -> Result<(), LineError>
    ensures { Leaves result head.new (head_line which in_body line.now head.old) }
{
    match which {
        HeadWord::Size(size) => size_line(head, size, line),
        HeadWord::Kernel => kernel_line(head, line),
        HeadWord::Module => module_line(head, in_body, line),
        HeadWord::Tag => tag_line(alloc, head, in_body, line),
    }
}
