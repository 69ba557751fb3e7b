//! How a text is read.

ghost use Rattle.std.specs.Prelude.{◌≡◌, ◌<◌, ◌≤◌, [], ◌∷◌, ◌++◌, length, map, All, MatchOption, IfOk, OnOk};
ghost use Rattle.text_form.specs.Lines.{FitsInput, lines_of, tail_of};
ghost use Rattle.info_read.specs.Grammar.{FindsRows, FindsFault, IsInfoRow};
ghost use Rattle.info_read.specs.Views.{row_view};
ghost use Rattle.info_read.specs.Reading.{Reads, ReadsText, behind, rows_from, rows_of};

use crate::error::InfoError;
use crate::line::row_of;
use crate::row::{InfoRow, RowText, owned_row};
use std::alloc::{AllocError, Global};
use text_form::next_line;

// What stands behind the first line, where that is the line.
fn behind<'a>(text: &'a [u8], line: &[u8]) -> Option<&'a [u8]>
    ensures { MatchOption result (behind line.now (lines_of text.now) ≡ None)
        (λ rest. (behind line.now (lines_of text.now) ≡ Some (lines_of rest.now))
        × (tail_of text.now ≡ tail_of rest.now) × (length rest.now ≤ length text.now)) }
{
    match next_line(text) {
        None => None,
        Some((first, rest)) => { if first == line { Some(rest) } else { None } }
    }
}

fn push<'a>(rows: &mut Vec<RowText<'a>>, row: RowText<'a>) -> Result<(), AllocError>
    ensures { OnOk result (map row_view rows.new.items ≡ map row_view rows.old.items ++ row_view row.entry ∷ []) }
{
    rows.push(row)?;
    Ok(())
}

// The rows of the lines behind the header.
fn body_rows(alloc: Global, text: &[u8]) -> Result<Vec<RowText<'_>>, InfoError>
    requires { FitsInput text.now }
    ensures { ReadsText result (rows_from 3 (lines_of text.now) (tail_of text.now) []) }
{
    let mut rows = Vec::new(alloc);
    let mut rest = text;
    let mut number: u32 = 3;
    while let Some((line, after)) = next_line(rest) {
        match row_of(line) {
            Some(row) => push(&mut rows, row)?,
            None => return Err(InfoError::Refused { line: number }),
        }
        rest = after;
        number += 1;
    }
    if !rest.is_empty() {
        return Err(InfoError::Refused { line: number });
    }
    Ok(rows)
}

/// The rows that a text of allocinfo spells, as parts of that text, in their order, or the number of its first line
/// that is not of its form.
#[tactic(auto, unfolding(crate::specs::Reading::rows_of))]
pub fn read_rows(alloc: Global, bytes: &[u8]) -> Result<Vec<RowText<'_>>, InfoError>
    requires { FitsInput bytes.now }
    ensures { ReadsText result (rows_of bytes.now) }
{
    let Some(body) = behind(bytes, b"allocinfo - version: 1.0") else {
        return Err(InfoError::Refused { line: 1 });
    };
    let Some(lines) = behind(body, b"#     <size>  <calls> <tag info>") else {
        return Err(InfoError::Refused { line: 2 });
    };
    body_rows(alloc, lines)
}

// The rows with copies of their names.
fn owned_rows(alloc: Global, rows: &[RowText<'_>]) -> Result<Vec<InfoRow>, AllocError>
    requires { All (λ row. IsInfoRow (row_view row)) rows.now }
    ensures { IfOk result (λ owned. owned.items ≡ map row_view rows.now) }
{
    let mut owned = Vec::new(alloc);
    for row in rows {
        owned.push(owned_row(alloc, *row)?)?;
    }
    Ok(owned)
}

/// The rows that a text of allocinfo spells, in their order, or the number of its first line that is not of its form.
pub fn read_info(alloc: Global, bytes: &[u8]) -> Result<Vec<InfoRow>, InfoError>
    requires { FitsInput bytes.now }
    ensures rows { FindsRows bytes.now result }
    ensures fault { FindsFault bytes.now result }
    ensures reads { Reads result (rows_of bytes.now) }
{
    info_rows(alloc, bytes)
}

// The same, by what reading gives.
fn info_rows(alloc: Global, bytes: &[u8]) -> Result<Vec<InfoRow>, InfoError>
    requires { FitsInput bytes.now }
    ensures { Reads result (rows_of bytes.now) }
{
    let rows = read_rows(alloc, bytes)?;
    Ok(owned_rows(alloc, &rows)?)
}
