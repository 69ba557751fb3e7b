ghost use Rattle.std.specs.Prelude.{ℕ, ◌≡◌, ◌+◌, ◌++◌, codes, decimal, OnOk, OnErr};
ghost use Rattle.std.specs.List.{flat_map};
ghost use Rattle.codetag.specs.Prefix.{IsPrefix};
ghost use Rattle.allocinfo.specs.Text.{header_text, right, signed_text, place_text, row_text, rows_text, IsRow, AreRows};
ghost use Rattle.allocinfo.specs.declared.print.TheConstants.{BYTES_PLACES, CALLS_PLACES};

use crate::rows::Row;
use itoa::Buffer;
use std::alloc::AllocError;
use tag_section::Sections;

/// The places of a row's bytes.
pub const BYTES_PLACES: usize = 12;

/// The places of a row's calls.
pub const CALLS_PLACES: usize = 8;

/// The places, as numbers.
pub fn places_are_these()
    ensures bytes { BYTES_PLACES ≡ 12 }
    ensures calls { CALLS_PLACES ≡ 8 }
{}

/// Appends the two lines before the rows, or nothing.
pub fn write_header(out: &mut Vec<u8>) -> Result<(), AllocError>
    ensures ok { OnOk result (out.new.items ≡ out.old.items ++ header_text) }
    ensures err { OnErr result (out.new.items ≡ out.old.items) }
{
    out.extend_from_slice(b"allocinfo - version: 1.0\n#     <size>  <calls> <tag info>\n")
}

/// Appends the line of a row, or nothing.
pub fn write_line(sections: &Sections, row: Row, out: &mut Vec<u8>) -> Result<(), AllocError>
    requires { IsRow sections.now row }
    ensures ok { OnOk result (out.new.items ≡ out.old.items ++ row_text sections.now row) }
    ensures err { OnErr result (out.new.items ≡ out.old.items) }
{
    let start = out.len();
    match write_parts(sections, row, out) {
        Ok(()) => Ok(()),
        Err(error) => {
            out.truncate(start);
            Err(error)
        }
    }
}

// Appends the parts of a row's line, up to the first for which no memory is left.
#[tactic(auto, unfolding(crate::specs::Text::row_text))]
fn write_parts(sections: &Sections, row: Row, out: &mut Vec<u8>) -> Result<(), AllocError>
    requires { IsRow sections.now row }
    ensures ok { OnOk result (out.new.items ≡ out.old.items ++ row_text sections.now row) }
    ensures err { OnErr result (IsPrefix out.old.items out.new.items) }
{
    write_bytes(row.bytes, out)?;
    out.push(b' ')?;
    write_calls(row.calls, out)?;
    out.push(b' ')?;
    write_place(sections, row, out)?;
    out.extend_from_slice(b" \n")
}

/// Appends the header and the lines of the rows, in their order.
pub fn print_rows(sections: &Sections, rows: &[Row], out: &mut Vec<u8>) -> Result<(), AllocError>
    requires { AreRows sections.now rows.now }
    ensures ok { OnOk result (out.new.items ≡ out.old.items ++ rows_text sections.now rows.now) }
    ensures err { OnErr result (IsPrefix out.old.items out.new.items) }
{
    write_header(out)?;
    write_rows(sections, rows, out)
}

// Appends the lines of the rows.
fn write_rows(sections: &Sections, rows: &[Row], out: &mut Vec<u8>) -> Result<(), AllocError>
    requires { AreRows sections.now rows.now }
    ensures ok { OnOk result (out.new.items ≡ out.old.items ++ flat_map (row_text sections.now) rows.now) }
    ensures err { OnErr result (IsPrefix out.old.items out.new.items) }
{
    for row in rows {
        write_line(sections, *row, out)?;
    }
    Ok(())
}

/// Appends the column of the bytes: a signed number at the right of its places.
pub fn write_bytes(bytes: u64, out: &mut Vec<u8>) -> Result<(), AllocError>
    ensures ok { OnOk result (out.new.items ≡ out.old.items ++ right BYTES_PLACES (signed_text bytes)) }
    ensures err { OnErr result (IsPrefix out.old.items out.new.items) }
{
    let mut buffer = Buffer::new();
    write_right(
        BYTES_PLACES,
        buffer.format(bytes.cast_signed()).as_bytes(),
        out,
    )
}

/// Appends the column of the calls.
pub fn write_calls(calls: u64, out: &mut Vec<u8>) -> Result<(), AllocError>
    ensures ok { OnOk result (out.new.items ≡ out.old.items ++ right CALLS_PLACES (decimal calls)) }
    ensures err { OnErr result (IsPrefix out.old.items out.new.items) }
{
    let mut buffer = Buffer::new();
    write_right(CALLS_PLACES, buffer.format(calls).as_bytes(), out)
}

// Appends the text at the right of so many places.
fn write_right(places: usize, text: &[u8], out: &mut Vec<u8>) -> Result<(), AllocError>
    ensures ok { OnOk result (out.new.items ≡ out.old.items ++ right places text.now) }
    ensures err { OnErr result (IsPrefix out.old.items out.new.items) }
{
    for _space in 0..places.saturating_sub(text.len()) {
        out.push(b' ')?;
    }
    out.extend_from_slice(text)
}

// Appends the text of a row's tag.
#[tactic(auto, unfolding(crate::specs::Text::place_text))]
fn write_place(sections: &Sections, row: Row, out: &mut Vec<u8>) -> Result<(), AllocError>
    requires { IsRow sections.now row }
    ensures ok { OnOk result (out.new.items ≡ out.old.items ++ place_text sections.now row) }
    ensures err { OnErr result (out.new.items ≡ out.old.items) }
{
    let tag = sections.tag(row.section, row.index);
    if row.kept {
        tag.to_text_kept(sections.name(row.section), out)
    } else if row.section == 0 {
        tag.to_text(None, out)
    } else {
        tag.to_text(Some(sections.name(row.section)), out)
    }
}
