//! The rows of a module list's tags.

ghost use Rattle.std.specs.Prelude.{◌≡◌, ◌<◌, ◌≤◌, All, IfOk, length};
ghost use Rattle.reclaim.specs.State.{IsLocked};
ghost use Rattle.run_text.specs.Rows.{quiet_row, quiet_rows};
ghost use Rattle.tag_iter.specs.Places.{fresh_iter};
ghost use Rattle.tag_rule.specs.Shown.{CpuShown};
ghost use Rattle.tag_section.specs.Section.{section_at};

use allocinfo::Row;
use percpu_words::quiet_total;
use reclaim::Locked;
use std::alloc::{AllocError, Global};
use tag_iter::{TagIter, TagPlace, next_locked};
use tag_rule::CpuSeat;

// The walk that shows kept ranges, or doesn't.
fn iter_for(kept: bool) -> TagIter
    ensures { result ≡ fresh_iter kept }
{
    if kept {
        TagIter::new_all()
    } else {
        TagIter::new()
    }
}

// The row of a place.
fn row_at(cpus: &mut [CpuSeat], place: TagPlace) -> Row
    requires { All (λ (c : CpuShown). place.number < c.board.shape.tags) cpus.old }
    ensures row { result ≡ quiet_row cpus.old place }
    ensures same { cpus.new ≡ cpus.old }
{
    let (bytes, calls) = quiet_total(cpus, place.number);
    Row {
        bytes,
        calls,
        section: place.section,
        index: place.index,
        kept: place.kept,
    }
}

// The row of each place of the walk, in its order.
pub(crate) fn rows_of(
    alloc: Global,
    locked: &Locked,
    cpus: &mut [CpuSeat],
    kept: bool,
) -> Result<Vec<Row>, AllocError>
    requires tables { All (λ (c : CpuShown). c.board ≡ locked.now.board) cpus.old }
    requires kernel { length (section_at locked.now.sections 0).tags ≤ locked.now.board.shape.tags }
    ensures holds { IsLocked locked.now }
    ensures rows { IfOk result (λ rows. rows.items ≡ quiet_rows kept locked.now cpus.old) }
    ensures same { cpus.new ≡ cpus.old }
{
    locked.tell();
    let mut rows = Vec::new(alloc);
    let mut iter = iter_for(kept);
    while let Some(place) = next_locked(&mut iter, locked) {
        rows.push(row_at(cpus, place))?;
    }
    Ok(rows)
}
