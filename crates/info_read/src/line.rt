//! How a line is read.

ghost use Rattle.std.specs.Prelude.{◌≡◌, ◌≤◌, ◌&&◌, MatchOption, IfSome};
ghost use Rattle.std.specs.Option.{option_copied};
ghost use Rattle.codetag.specs.Names.{is_file, is_function};
ghost use Rattle.info_read.specs.Line.{parts_of, formed_name, formed_row, row_of};
ghost use Rattle.info_read.specs.Views.{place_view, row_view};

use crate::cuts::unpadded;
use crate::numbers::{signed_of, unsigned_of};
use crate::place::{PlaceParts, place_of};
use crate::row::RowText;
use allocinfo::{BYTES_PLACES, CALLS_PLACES};
use codetag::{is_file, is_function};
use tag_section::is_module_name;

/// The parts of a line.
#[derive(Clone, Copy, Debug)]
struct LineParts<'a> {
    bytes: u64,
    calls: u64,
    place: PlaceParts<'a>,
}

#[tactic(auto, unfolding(crate::specs::Line::parts_of))]
fn parts_of(line: &[u8]) -> Option<LineParts<'_>>
    ensures value { MatchOption result (parts_of line.now ≡ None)
        (λ parts. parts_of line.now ≡ Some (parts.bytes, parts.calls, place_view parts.place)) }
    ensures range { IfSome result (λ parts. (1 ≤ parts.place.line) × (parts.place.line ≤ 4294967295)) }
{
    let (word, rest) = unpadded(line, BYTES_PLACES)?;
    let bytes = signed_of(word)?;
    let (word, rest) = unpadded(rest, CALLS_PLACES)?;
    let calls = unsigned_of(word)?;
    let place = place_of(rest)?;
    Some(LineParts {
        bytes,
        calls,
        place,
    })
}

// Whether the names of a tag are of their forms.
fn are_names(file: &[u8], function: &[u8]) -> bool
    ensures { result ≡ (is_file file.now && is_function function.now) }
{
    is_file(file) && is_function(function)
}

// The module, where its name is of its form.
#[tactic(auto, unfolding(crate::specs::Line::formed_name))]
fn formed_name(name: Option<&[u8]>) -> Option<Option<&[u8]>>
    ensures { MatchOption result (formed_name (option_copied name.entry) ≡ None)
        (λ formed. formed_name (option_copied name.entry) ≡ Some (option_copied formed)) }
{
    match name {
        None => Some(None),
        Some(word) => {
            if is_module_name(word) {
                Some(Some(word))
            } else {
                None
            }
        }
    }
}

// The row, where its names are of their forms.
#[tactic(auto, unfolding(crate::specs::Line::formed_row, crate::specs::Line::formed_tag))]
fn formed_row(parts: LineParts<'_>) -> Option<RowText<'_>>
    requires { (1 ≤ parts.place.line) × (parts.place.line ≤ 4294967295) }
    ensures { MatchOption result (formed_row parts.entry.bytes parts.entry.calls (place_view parts.entry.place) ≡ None)
        (λ row. formed_row parts.entry.bytes parts.entry.calls (place_view parts.entry.place) ≡ Some (row_view row)) }
{
    let place = parts.place;
    if !are_names(place.file, place.function) {
        return None;
    }
    let module = formed_name(place.name)?;
    Some(RowText {
        bytes: parts.bytes,
        calls: parts.calls,
        module,
        kept: place.kept,
        file: place.file,
        line: place.line as u32,
        function: place.function,
    })
}

/// The row of a line.
#[tactic(auto, unfolding(crate::specs::Line::row_of))]
pub(crate) fn row_of(line: &[u8]) -> Option<RowText<'_>>
    ensures { MatchOption result (row_of line.now ≡ None) (λ row. row_of line.now ≡ Some (row_view row)) }
{
    let parts = parts_of(line)?;
    formed_row(parts)
}
