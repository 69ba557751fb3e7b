ghost use Rattle.std.specs.Prelude.{◌≡◌, ◌++◌, ◌↔◌, Some, IfOk, OnOk, OnErr, IsErrOf};
ghost use Rattle.std.specs.Option.{option_copied};
ghost use Rattle.std.specs.List.{flat_map};
ghost use Rattle.codetag.specs.Names.{IsFile, IsLine, IsFunction};
ghost use Rattle.codetag.specs.Prefix.{IsPrefix};
ghost use Rattle.codetag.specs.TagParts.{tag_text, kept_text};

use crate::names::{is_file, is_function, is_line};
use itoa::Buffer;
use std::alloc::{AllocError, Global};
use std::marker::Model;
use thiserror::Error;

/// Why no code tag was made.
#[derive(Clone, Copy, Debug, PartialEq, Eq, Error)]
pub enum TagError {
    #[error("the file's name is not of its form")]
    BadFile,
    #[error("the line's number is out of its range")]
    BadLine,
    #[error("the function's name is not of its form")]
    BadFunction,
    #[error("out of memory")]
    Memory(AllocError),
}

/// A line of a source file, and the function that it stands in.
#[derive(Debug, Drop)]
pub struct CodeTag {
    file: Vec<u8>,
    line: u32,
    function: Vec<u8>,
}

impl Model for CodeTag {
    ghost use Rattle.codetag.specs.TagParts.{TagParts, IsFormed};

    ghost Value = { TagParts };

    ghost view = { λ tag. record { file = tag.file.items; line = tag.line; function = tag.function.items } };

    ghost invariant = { λ tag. IsFormed (record { file = tag.file.items; line = tag.line; function = tag.function.items }) };
}

impl CodeTag {
    /// Makes a tag of parts that are of their forms, and else refuses the first part that is not.
    pub fn new(alloc: Global, file: &[u8], line: u64, function: &[u8]) -> Result<CodeTag, TagError>
        ensures parts { IfOk result
            (λ tag. tag ≡ record { file = file.now; line = line; function = function.now }) }
        ensures formed { OnOk result (IsFile file.now × IsLine line × IsFunction function.now) }

        ensures bad_file { IsErrOf result TagError.BadFile ↔ ¬ IsFile file.now }
        ensures bad_line { IsErrOf result TagError.BadLine ↔ (IsFile file.now × ¬ IsLine line) }
        ensures bad_function { IsErrOf result TagError.BadFunction
            ↔ (IsFile file.now × IsLine line × ¬ IsFunction function.now) }
    {
        if !is_file(file) {
            return Err(TagError::BadFile);
        }
        if !is_line(line) {
            return Err(TagError::BadLine);
        }
        if !is_function(function) {
            return Err(TagError::BadFunction);
        }
        let file = Vec::from_slice(alloc, file).map_err(TagError::Memory)?;
        let function = Vec::from_slice(alloc, function).map_err(TagError::Memory)?;
        Ok(CodeTag {
            file,
            line: line as u32,
            function,
        })
    }

    /// The file's name.
    pub fn file(&self) -> &[u8]
        ensures value { result.now ≡ self.now.file }
        ensures formed { IsFile self.now.file }
    {
        self.file.as_slice()
    }

    /// The line's number.
    pub fn line(&self) -> u32
        ensures value { result ≡ self.now.line }
        ensures formed { IsLine self.now.line }
    {
        self.line
    }

    /// The function's name.
    pub fn function(&self) -> &[u8]
        ensures value { result.now ≡ self.now.function }
        ensures formed { IsFunction self.now.function }
    {
        self.function.as_slice()
    }

    /// Appends `file:line func:function`, or `file:line [module] func:function`. Where memory runs out,
    /// nothing is appended.
    #[tactic(auto, using(std::proofs::lemmas::Grind::common_steps), unfolding(crate::specs::TagParts::tag_text))]
    pub fn to_text(&self, module_name: Option<&[u8]>, out: &mut Vec<u8>) -> Result<(), AllocError>
        ensures ok { OnOk result
            (out.new.items ≡ out.old.items ++ tag_text self.now (option_copied module_name.entry)) }
        ensures err { OnErr result (out.new.items ≡ out.old.items) }
    {
        let mut buffer = Buffer::new();
        let line = buffer.format(self.line).as_bytes();
        match module_name {
            None => append_all(&[self.file(), b":", line, b" func:", self.function()], out),
            Some(name) => append_all(
                &[
                    self.file(),
                    b":",
                    line,
                    b" [",
                    name,
                    b"] func:",
                    self.function(),
                ],
                out,
            ),
        }
    }

    /// Appends `file:line [module:kept] func:function`. Where memory runs out, nothing is appended.
    #[tactic(auto, using(std::proofs::lemmas::Grind::common_steps), unfolding(crate::specs::TagParts::kept_text))]
    pub fn to_text_kept(&self, module_name: &[u8], out: &mut Vec<u8>) -> Result<(), AllocError>
        ensures ok { OnOk result (out.new.items ≡ out.old.items ++ kept_text self.now module_name.now) }
        ensures err { OnErr result (out.new.items ≡ out.old.items) }
    {
        let mut buffer = Buffer::new();
        let line = buffer.format(self.line).as_bytes();
        append_all(
            &[
                self.file(),
                b":",
                line,
                b" [",
                module_name,
                b":kept] func:",
                self.function(),
            ],
            out,
        )
    }
}

// Appends the pieces one after another, or none of them.
fn append_all(pieces: &[&[u8]], out: &mut Vec<u8>) -> Result<(), AllocError>
    ensures ok { OnOk result (out.new.items ≡ out.old.items ++ flat_map (λ piece. piece.now) pieces.now) }
    ensures err { OnErr result (out.new.items ≡ out.old.items) }
{
    let start = out.len();
    match append_pieces(pieces, out) {
        Ok(()) => Ok(()),
        Err(error) => {
            out.truncate(start);
            Err(error)
        }
    }
}

// Appends the pieces up to the first for which no memory is left.
fn append_pieces(pieces: &[&[u8]], out: &mut Vec<u8>) -> Result<(), AllocError>
    ensures ok { OnOk result (out.new.items ≡ out.old.items ++ flat_map (λ piece. piece.now) pieces.now) }
    ensures err { OnErr result (IsPrefix out.old.items out.new.items) }
{
    for piece in pieces {
        out.extend_from_slice(piece)?;
    }
    Ok(())
}
