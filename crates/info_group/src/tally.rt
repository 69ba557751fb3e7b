//! The sums of rows with the same key.

ghost use Rattle.std.specs.Prelude.{◌≡◌, false, map, None, IsTrue, IfOk, OnOk};
ghost use Rattle.std.specs.FinMap.{find};
ghost use Rattle.info_read.specs.Views.{row_view};
ghost use Rattle.info_group.specs.Keys.{key_of};
ghost use Rattle.info_group.specs.Grouping.{byte_order};
ghost use Rattle.info_group.specs.Tally.{by_name, grown, tallies};

use crate::key::{Key, add_by_key};
use info_read::RowText;
use std::alloc::{AllocError, Global};
use std::collections::BTreeMap;

/// The bytes and calls of rows, as words of 64 bits.
#[derive(Clone, Copy, Debug)]
pub(crate) struct Sums {
    pub(crate) bytes: u64,
    pub(crate) calls: u64,
}

// Adds a row to the sums of a name, where the name has some.
fn raise(sums: &mut BTreeMap<Vec<u8>, Sums>, name: &[u8], row: RowText<'_>) -> bool
    ensures raised { IsTrue result → by_name sums.new ≡ grown name.now (row_view row.entry) (by_name sums.old) }
    ensures none { result ≡ false → (find byte_order name.now (by_name sums.old) ≡ None) × (by_name sums.new ≡ by_name sums.old) }
{
    match sums.get_mut(name) {
        Some(sum) => {
            sum.bytes = sum.bytes.wrapping_add(row.bytes);
            sum.calls = sum.calls.wrapping_add(row.calls);
            true
        }
        None => false,
    }
}

/// Adds a row to the sums of a name. The name is copied where it is new.
pub(crate) fn add_row(
    alloc: Global,
    sums: &mut BTreeMap<Vec<u8>, Sums>,
    name: &[u8],
    row: RowText<'_>,
) -> Result<(), AllocError>
    ensures { OnOk result (by_name sums.new ≡ grown name.now (row_view row.entry) (by_name sums.old)) }
{
    if raise(sums, name, row) {
        return Ok(());
    }
    let key = Vec::from_slice(alloc, name)?;
    sums.insert(
        key,
        Sums {
            bytes: row.bytes,
            calls: row.calls,
        },
    )?;
    Ok(())
}

/// The sums of each key that some row has.
pub(crate) fn tally(
    alloc: Global,
    rows: &[RowText<'_>],
    key: Key,
) -> Result<BTreeMap<Vec<u8>, Sums>, AllocError>
    ensures { IfOk result (λ sums. by_name sums ≡ tallies (key_of key) (map row_view rows.now)) }
{
    let mut sums = BTreeMap::new(alloc);
    for row in rows {
        add_by_key(alloc, &mut sums, key, *row)?;
    }
    Ok(sums)
}
