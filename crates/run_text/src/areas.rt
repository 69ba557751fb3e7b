//! The lines of `areas`.

ghost use Rattle.std.specs.Prelude.{◌≡◌, ◌<◌, ◌++◌, OnOk, length};
ghost use Rattle.std.specs.List.{flat_map};
ghost use Rattle.run_text.specs.Lines.{area_lines};
ghost use Rattle.trace_play.specs.Machine.{Machine};
ghost use Rattle.trace_play.specs.Printed.{area_text, areas_text, state_text};
ghost use Rattle.module_area.specs.Entries.{is_dead};

use codetag::write_number;
use module_area::{Entry, State};
use reclaim::Locked;
use std::alloc::AllocError;
use tag_section::Sections;

/// Appends how many ranges there are, and a line for each, by rising id.
pub fn write_areas(locked: &Locked, out: &mut Vec<u8>) -> Result<(), AllocError>
    ensures { OnOk result ((m : Machine) → m.area.entries ≡ locked.now.area.entries → out.new.items ≡ out.old.items ++ areas_text locked.now.sections m) }
{
    write_lines(locked, out)
}

// As `write_areas`, by the entries alone.
fn write_lines(locked: &Locked, out: &mut Vec<u8>) -> Result<(), AllocError>
    ensures { OnOk result (out.new.items ≡ out.old.items ++ area_lines locked.now.sections locked.now.area.entries) }
{
    out.extend_from_slice(b"areas: ")?;
    write_number(u64::from(locked.book().count()), out)?;
    out.extend_from_slice(b"\n")?;
    write_ranges(locked, out)
}

// Appends a line for each range.
fn write_ranges(locked: &Locked, out: &mut Vec<u8>) -> Result<(), AllocError>
    ensures { OnOk result (out.new.items ≡ out.old.items ++ flat_map (area_text locked.now.sections) locked.now.area.entries) }
{
    let book = locked.book();
    for place in 0..book.count() {
        write_area(locked.sections(), book.at(place), out)?;
    }
    Ok(())
}

// Appends the line of a range.
#[tactic(auto, unfolding(trace_play::specs::Printed::area_text))]
fn write_area(sections: &Sections, entry: Entry, out: &mut Vec<u8>) -> Result<(), AllocError>
    requires { entry.section < length sections.now }
    ensures { OnOk result (out.new.items ≡ out.old.items ++ area_text sections.now entry) }
{
    out.extend_from_slice(b"area ")?;
    out.extend_from_slice(sections.name(entry.section))?;
    out.extend_from_slice(b" ")?;
    write_number(u64::from(entry.start), out)?;
    out.extend_from_slice(b"+")?;
    write_number(u64::from(entry.length), out)?;
    out.extend_from_slice(b" ")?;
    out.extend_from_slice(state_text(entry.state))?;
    out.extend_from_slice(b"\n")
}

fn state_text(state: State) -> &'static [u8]
    ensures { result.now ≡ state_text (is_dead state) }
{
    match state {
        State::Loaded => b"loaded",
        State::Dead => b"kept",
    }
}
