//! Groups of rows.

ghost use Rattle.std.specs.Prelude.{◌≡◌, map, IfOk};
ghost use Rattle.info_read.specs.Views.{row_view};
ghost use Rattle.info_group.specs.Keys.{file_key, key_of, module_key};
ghost use Rattle.info_group.specs.Grouping.{groups_of};
ghost use Rattle.info_group.specs.Tally.{by_name, group_from};

use crate::key::Key;
use crate::tally::{Sums, tally};
use codetag::TagText;
use info_read::{InfoRow, RowText, row_text};
use std::alloc::{AllocError, Global};
use std::collections::BTreeMap;

/// The rows with one key: the key as a name, and the sums of the rows' bytes and calls as words of 64 bits.
#[derive(Debug, Drop)]
pub struct Group {
    pub name: TagText,
    pub bytes: u64,
    pub calls: u64,
}

/// A group for each key that some row has, of rows that are parts of a text.
#[tactic(auto, using(crate::proofs::TallyLemmas::groups_from_tallies))]
pub fn group_rows(alloc: Global, rows: &[RowText<'_>], key: Key) -> Result<Vec<Group>, AllocError>
    ensures { IfOk result (λ groups. groups.items ≡ groups_of (key_of key) (map row_view rows.now)) }
{
    listed(alloc, tally(alloc, rows, key)?)
}

/// A group for each file.
pub fn by_file(alloc: Global, rows: &[InfoRow]) -> Result<Vec<Group>, AllocError>
    ensures { IfOk result (λ groups. groups.items ≡ groups_of file_key rows.now) }
{
    grouped(alloc, rows, Key::File)
}

/// A group for each module, for what is kept of each, and for the kernel.
pub fn by_module(alloc: Global, rows: &[InfoRow]) -> Result<Vec<Group>, AllocError>
    ensures { IfOk result (λ groups. groups.items ≡ groups_of module_key rows.now) }
{
    grouped(alloc, rows, Key::Module)
}

fn grouped(alloc: Global, rows: &[InfoRow], key: Key) -> Result<Vec<Group>, AllocError>
    ensures { IfOk result (λ groups. groups.items ≡ groups_of (key_of key) rows.now) }
{
    let texts = texts_of(alloc, rows)?;
    group_rows(alloc, &texts, key)
}

// The rows as parts of themselves.
fn texts_of(alloc: Global, rows: &[InfoRow]) -> Result<Vec<RowText<'_>>, AllocError>
    ensures { IfOk result (λ texts. map row_view texts.items ≡ rows.now) }
{
    let mut texts = Vec::new(alloc);
    for row in rows {
        texts.push(row_text(row))?;
    }
    Ok(texts)
}

// The groups in the order of the names.
fn listed(alloc: Global, sums: BTreeMap<Vec<u8>, Sums>) -> Result<Vec<Group>, AllocError>
    ensures { IfOk result (λ groups. groups.items ≡ map group_from (by_name sums)) }
{
    let mut groups = Vec::new(alloc);
    for (name, sum) in sums {
        groups.push(Group {
            name: TagText::of(name),
            bytes: sum.bytes,
            calls: sum.calls,
        })?;
    }
    Ok(groups)
}
