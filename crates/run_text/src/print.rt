//! The text of a `print`.

ghost use Rattle.std.specs.Prelude.{◌≡◌, ◌<◌, ◌≤◌, ◌++◌, All, OnOk, length};
ghost use Rattle.allocinfo.specs.Text.{AreRows};
ghost use Rattle.module_area.specs.declared.entry.Entry.{Entry};
ghost use Rattle.run_text.specs.Rows.{quiet_rows};
ghost use Rattle.tag_rule.specs.Shown.{CpuShown};
ghost use Rattle.tag_section.specs.Section.{section_at};
ghost use Rattle.trace_play.specs.Printed.{some_rows_text};

use crate::rows::rows_of;
use allocinfo::{Row, print_rows, print_top};
use reclaim::Locked;
use std::alloc::{AllocError, Global};
use tag_rule::CpuSeat;
use tag_section::Sections;

/// Appends the row of each tag of the kernel and of the loaded modules, and where kept ranges are shown of these too, or
/// so many rows with the greatest numbers. All CPUs are lent, so the sums are those of one moment.
pub fn print_locked(
    alloc: Global,
    locked: &Locked,
    cpus: &mut [CpuSeat],
    kept: bool,
    top: Option<u32>,
    out: &mut Vec<u8>,
) -> Result<(), AllocError>
    requires tables { All (λ (c : CpuShown). c.board ≡ locked.now.board) cpus.old }
    requires kernel { length (section_at locked.now.sections 0).tags ≤ locked.now.board.shape.tags }
    requires modules { All (λ (e : Entry). 0 < e.section) locked.now.area.entries }
    ensures text { OnOk result (out.new.items ≡ out.old.items ++ some_rows_text top locked.now.sections (quiet_rows kept locked.now cpus.old)) }
    ensures same { cpus.new ≡ cpus.old }
{
    let rows = rows_of(alloc, locked, cpus, kept)?;
    print_some(alloc, locked.sections(), rows.as_slice(), top, out)
}

// Appends the rows, or so many of them with the greatest numbers.
fn print_some(
    alloc: Global,
    sections: &Sections,
    rows: &[Row],
    top: Option<u32>,
    out: &mut Vec<u8>,
) -> Result<(), AllocError>
    requires { AreRows sections.now rows.now }
    ensures { OnOk result (out.new.items ≡ out.old.items ++ some_rows_text top sections.now rows.now) }
{
    match top {
        None => print_rows(sections, rows, out),
        Some(top) => print_top(alloc, sections, rows, top, out),
    }
}
