//! What holds of reading and printing together.

ghost use Rattle.std.specs.Prelude.{◌≡◌, List, ℕ, All, Ok, IfOk, IfErr};
ghost use Rattle.tag_section.specs.Section.{Section};
ghost use Rattle.allocinfo.specs.Text.{AreRows, IsRow, rows_text};
ghost use Rattle.allocinfo.specs.declared.rows.Row.{Row};
ghost use Rattle.text_form.specs.Lines.{FitsInput};
ghost use Rattle.info_read.specs.declared.row.InfoRow.{InfoRow};
ghost use Rattle.info_read.specs.Grammar.{IsInfoRow, IsLineOf, Spells};
ghost use Rattle.info_read.specs.Reading.{rows_of};
ghost use Rattle.info_read.specs.ReadBack.{info_row, info_rows, AreInfoRows, IsMemory};

use crate::error::InfoError;
use crate::reading::read_info;
use crate::row::InfoRow;
use allocinfo::{Row, print_rows};
use std::alloc::Global;
use tag_section::Sections;

/// A line is that of one row.
pub fn line_is_of_one_row()
    ensures { (line : List ℕ) (one other : InfoRow) → IsLineOf one line → IsLineOf other line → one ≡ other }
{}

/// What is printed of rows spells these rows.
pub fn printed_rows_are_spelled()
    ensures { (sections : List Section) (rows : List Row) → AreRows sections rows → AreInfoRows sections rows
        → Spells (rows_text sections rows) (info_rows sections rows) }
{}

/// What is printed of rows is read as these rows.
pub fn printed_rows_are_read()
    ensures { (sections : List Section) (rows : List Row) → AreRows sections rows → AreInfoRows sections rows
        → rows_of (rows_text sections rows) ≡ Ok (info_rows sections rows) }
{}

// A row's numbers fit, and its names are of their forms.
fn is_info_row(sections: &Sections, row: Row)
    requires { IsRow sections.now row }
    ensures { IsInfoRow (info_row sections.now row) }
{
    let tag = sections.tag(row.section, row.index);
    let _file = tag.file();
    let _line = tag.line();
    let _function = tag.function();
    let _count = sections.count();
    let _bytes = row.bytes;
    let _calls = row.calls;
}

fn are_info_rows(sections: &Sections, rows: &[Row])
    requires { AreRows sections.now rows.now }
    ensures { AreInfoRows sections.now rows.now }
{
    for row in rows {
        is_info_row(sections, *row);
    }
}

/// Prints rows to an empty text, and reads them back.
pub fn printed_and_read(
    alloc: Global,
    sections: &Sections,
    rows: &[Row],
) -> Result<Vec<InfoRow>, InfoError>
    requires rows { AreRows sections.now rows.now }
    requires room { FitsInput (rows_text sections.now rows.now) }
    ensures ok { IfOk result (λ read. read.items ≡ info_rows sections.now rows.now) }
    ensures err { IfErr result IsMemory }
{
    are_info_rows(sections, rows);
    let mut text = Vec::new(alloc);
    print_rows(sections, rows, &mut text)?;
    read_info(alloc, &text)
}
