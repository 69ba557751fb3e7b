//! What rows are grouped by.

ghost use Rattle.std.specs.Prelude.{◌≡◌, ◌++◌, codes, IfOk, OnOk};
ghost use Rattle.std.specs.Option.{unwrap_or};
ghost use Rattle.std.specs.FinMap.{find, put};
ghost use Rattle.info_read.specs.Views.{row_view};
ghost use Rattle.info_group.specs.Keys.{key_of, module_key};
ghost use Rattle.info_group.specs.Grouping.{byte_order};
ghost use Rattle.info_group.specs.Tally.{by_name, grown};

use crate::tally::{Sums, add_row};
use info_read::RowText;
use std::alloc::{AllocError, Global};
use std::collections::BTreeMap;

/// Which key the rows have: the file of their tag, or their module.
#[derive(Clone, Copy, Debug)]
pub enum Key {
    File,
    Module,
}

/// Adds a row to the sums of its key.
pub(crate) fn add_by_key(
    alloc: Global,
    sums: &mut BTreeMap<Vec<u8>, Sums>,
    key: Key,
    row: RowText<'_>,
) -> Result<(), AllocError>
    ensures { OnOk result (by_name sums.new ≡ grown (key_of key (row_view row.entry)) (row_view row.entry) (by_name sums.old)) }
{
    match key {
        Key::File => add_row(alloc, sums, row.file, row),
        Key::Module => add_by_module(alloc, sums, row),
    }
}

// The key is `kernel`, the module's name, or the name with `:kept`.
fn add_by_module(
    alloc: Global,
    sums: &mut BTreeMap<Vec<u8>, Sums>,
    row: RowText<'_>,
) -> Result<(), AllocError>
    ensures { OnOk result (by_name sums.new ≡ grown (module_key (row_view row.entry)) (row_view row.entry) (by_name sums.old)) }
{
    match row.module {
        None => add_row(alloc, sums, b"kernel", row),
        Some(name) if row.kept => {
            let label = kept_label(alloc, name)?;
            add_row(alloc, sums, &label, row)
        }
        Some(name) => add_row(alloc, sums, name, row),
    }
}

fn kept_label(alloc: Global, name: &[u8]) -> Result<Vec<u8>, AllocError>
    ensures { IfOk result (λ label. label.items ≡ name.now ++ codes ":kept") }
{
    let mut label = Vec::from_slice(alloc, name)?;
    label.extend_from_slice(b":kept")?;
    Ok(label)
}
