//! Rows that were read.

ghost use Rattle.std.specs.Prelude.{◌≡◌, IfOk};
ghost use Rattle.std.specs.Option.{option_copied};
ghost use Rattle.codetag.specs.TagParts.{IsFormed};
ghost use Rattle.info_read.specs.Grammar.{IsInfoRow};
ghost use Rattle.info_read.specs.Views.{row_view};

use codetag::{CodeTag, TagError, TagText};
use std::alloc::{AllocError, Global};

/// A row as it stands in a text: its names are parts of that text. Its bytes are a word of 64 bits, and a kept row has
/// a module.
#[derive(Clone, Copy, Debug)]
pub struct RowText<'a> {
    pub bytes: u64,
    pub calls: u64,
    pub module: Option<&'a [u8]>,
    pub kept: bool,
    pub file: &'a [u8],
    pub line: u32,
    pub function: &'a [u8],
}

/// A row that was read: its bytes as a word of 64 bits, its calls, its module, and its tag. A kept row has a module.
#[derive(Debug, Drop)]
pub struct InfoRow {
    pub bytes: u64,
    pub calls: u64,
    pub module: Option<TagText>,
    pub kept: bool,
    pub tag: CodeTag,
}

// The tag with a copy of its names.
fn owned_tag(alloc: Global, file: &[u8], line: u32, function: &[u8]) -> Result<CodeTag, AllocError>
    requires { IsFormed (record { file = file.now; line = line; function = function.now }) }
    ensures { IfOk result (λ tag. tag ≡ record { file = file.now; line = line; function = function.now }) }
{
    match CodeTag::new(alloc, file, u64::from(line), function) {
        Ok(tag) => Ok(tag),
        Err(TagError::Memory(error)) => Err(error),
        Err(TagError::BadFile | TagError::BadLine | TagError::BadFunction) => unreachable!(),
    }
}

// The module with a copy of its name.
fn owned_name(alloc: Global, name: Option<&[u8]>) -> Result<Option<TagText>, AllocError>
    ensures { IfOk result (λ owned. owned ≡ option_copied name.entry) }
{
    match name {
        None => Ok(None),
        Some(name) => Ok(Some(TagText::of(Vec::from_slice(alloc, name)?))),
    }
}

/// The row with copies of its names.
pub fn owned_row(alloc: Global, row: RowText<'_>) -> Result<InfoRow, AllocError>
    requires { IsInfoRow (row_view row) }
    ensures { IfOk result (λ owned. owned ≡ row_view row.entry) }
{
    let tag = owned_tag(alloc, row.file, row.line, row.function)?;
    let module = owned_name(alloc, row.module)?;
    Ok(InfoRow {
        bytes: row.bytes,
        calls: row.calls,
        module,
        kept: row.kept,
        tag,
    })
}

// The name, lent.
fn lent_name(name: &Option<TagText>) -> Option<&[u8]>
    ensures { option_copied result ≡ name.now }
{
    match name {
        None => None,
        Some(name) => Some(name.bytes()),
    }
}

/// The row as a part of itself.
pub fn row_text(row: &InfoRow) -> RowText<'_>
    ensures { row_view result ≡ row.now }
{
    RowText {
        bytes: row.bytes,
        calls: row.calls,
        module: lent_name(&row.module),
        kept: row.kept,
        file: row.tag.file(),
        line: row.tag.line(),
        function: row.tag.function(),
    }
}
