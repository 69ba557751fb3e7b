//! What a schedule prints.

ghost use Rattle.std.specs.Prelude.{◌≡◌, ◌+◌, ◌<◌, ◌≤◌, ◌++◌, ℕ, List, All, OnOk, IfOk, length};
ghost use Rattle.std.specs.List.{flat_map};
ghost use Rattle.tag_section.specs.Section.{section_at};
ghost use Rattle.allocinfo.specs.Text.{IsRow};
ghost use Rattle.tag_model.specs.declared.limits.TheConstants.{MAX_TAGS};
ghost use Rattle.core_steps.specs.CoreState.{EntryFits};
ghost use Rattle.core_steps.specs.Told.{EventFits};
ghost use Rattle.step_play.specs.Printed.{Setting, cpu_text, words_text, section_rows, module_rows, all_rows, allocinfo_text, cause_text, kind_text, released_text, kept_text, event_text};
ghost use Rattle.step_play.specs.Schedule.{Played};
ghost use Rattle.step_play.specs.Playing.{Shows, own_setting};

use allocinfo::{Row, print_rows};
use codetag::write_number;
use core_steps::{Cause, Core, Event};
use module_area::{Entry, State};
use std::alloc::{AllocError, Global};
use tag_model::Kind;
use tag_section::Sections;

/// Appends the rows of a section's tags, which stand from a tag number on.
fn push_rows(
    core: &Core,
    section: u32,
    start: u32,
    count: u32,
    rows: &mut Vec<Row>,
) -> Result<(), AllocError>
    requires section { section < length core.now.sections }
    requires count { count ≤ length (section_at core.now.sections section).tags }
    requires tags { start + count ≤ core.now.shape.tags }
    requires small { core.now.shape.tags ≤ MAX_TAGS }
    ensures rows { (s : Setting) (text : List ℕ) (p : Played) → Shows s core.now text p → OnOk result (rows.new.items ≡ rows.old.items ++ section_rows s p.moves section start count) }
    ensures fit { All (IsRow core.now.sections) rows.old.items → OnOk result (All (IsRow core.now.sections) rows.new.items) }
{
    for index in 0..count {
        let (bytes, calls) = core.totals(start + index);
        rows.push(Row {
            bytes,
            calls,
            section,
            index,
            kept: false,
        })?;
    }
    Ok(())
}

/// Appends the rows of a module, where it is loaded.
fn push_module(core: &Core, entry: Entry, rows: &mut Vec<Row>) -> Result<(), AllocError>
    requires fits { EntryFits core.now.sections entry }
    requires tags { entry.start + entry.length ≤ core.now.shape.tags }
    requires small { core.now.shape.tags ≤ MAX_TAGS }
    ensures rows { (s : Setting) (text : List ℕ) (p : Played) → Shows s core.now text p → OnOk result (rows.new.items ≡ rows.old.items ++ module_rows s p.moves entry) }
    ensures fit { All (IsRow core.now.sections) rows.old.items → OnOk result (All (IsRow core.now.sections) rows.new.items) }
{
    match entry.state {
        State::Loaded => push_rows(core, entry.section, entry.start, entry.length, rows),
        State::Dead => Ok(()),
    }
}

/// Appends the rows of the modules that are loaded, by rising id.
fn push_modules(core: &Core, rows: &mut Vec<Row>) -> Result<(), AllocError>
    ensures rows { (s : Setting) (text : List ℕ) (p : Played) → Shows s core.now text p → OnOk result (rows.new.items ≡ rows.old.items ++ flat_map (module_rows s p.moves) core.now.modules.list.area.entries) }
    ensures fit { All (IsRow core.now.sections) rows.old.items → OnOk result (All (IsRow core.now.sections) rows.new.items) }
{
    let book = core.book();
    for place in 0..book.count() {
        push_module(core, book.at(place), rows)?;
    }
    Ok(())
}

/// The kernel's rows, and those of the loaded modules.
fn all_rows(alloc: Global, core: &Core) -> Result<Vec<Row>, AllocError>
    requires kernel { 0 < length core.now.sections }
    requires fits { length (section_at core.now.sections 0).tags ≤ core.now.shape.tags }
    ensures rows { (text : List ℕ) (p : Played) → Shows (own_setting core.now) core.now text p → IfOk result (λ rows. rows.items ≡ all_rows (own_setting core.now) core.now.modules.list.area.entries p.moves) }
    ensures fit { IfOk result (λ rows. All (IsRow core.now.sections) rows.items) }
{
    let mut rows = Vec::new(alloc);
    core.book();
    push_rows(core, 0, 0, core.sections().len_of(0), &mut rows)?;
    push_modules(core, &mut rows)?;
    Ok(rows)
}

/// Appends allocinfo of the sums.
pub(crate) fn write_allocinfo(
    alloc: Global,
    core: &Core,
    out: &mut Vec<u8>,
) -> Result<(), AllocError>
    requires kernel { 0 < length core.now.sections }
    requires fits { length (section_at core.now.sections 0).tags ≤ core.now.shape.tags }
    ensures { (p : Played) → Shows (own_setting core.now) core.now out.old.items p → OnOk result (out.new.items ≡ out.old.items ++ allocinfo_text (own_setting core.now) core.now.modules.list.area.entries p.moves) }
{
    let rows = all_rows(alloc, core)?;
    print_rows(core.sections(), rows.as_slice(), out)
}

fn write_cpu(cpu: u32, bytes: u64, calls: u64, out: &mut Vec<u8>) -> Result<(), AllocError>
    ensures { OnOk result (out.new.items ≡ out.old.items ++ cpu_text cpu bytes calls) }
{
    out.extend_from_slice(b"cpu ")?;
    write_number(u64::from(cpu), out)?;
    out.extend_from_slice(b" bytes ")?;
    write_number(bytes, out)?;
    out.extend_from_slice(b" calls ")?;
    write_number(calls, out)?;
    out.extend_from_slice(b"\n")
}

/// Appends each CPU's words of the tag.
pub(crate) fn write_words(
    core: &Core,
    cpus: u32,
    tag: u32,
    out: &mut Vec<u8>,
) -> Result<(), AllocError>
    requires cpus { cpus ≤ core.now.shape.cpus }
    requires tag { tag < core.now.shape.tags }
    ensures { (s : Setting) (p : Played) → Shows s core.now out.old.items p → OnOk result (out.new.items ≡ out.old.items ++ words_text cpus p.moves tag) }
{
    for cpu in 0..cpus {
        let (bytes, calls) = core.cpu_word(cpu, tag);
        write_cpu(cpu, bytes, calls, out)?;
    }
    Ok(())
}

fn cause_text(by: Cause) -> &'static [u8]
    ensures { result.now ≡ cause_text by }
{
    match by {
        Cause::Unload => b"unload ",
        Cause::Clean => b"clean ",
    }
}

fn kind_text(kind: Kind) -> &'static [u8]
    ensures { result.now ≡ kind_text kind }
{
    match kind {
        Kind::Bytes => b" bytes ",
        Kind::Calls => b" calls ",
    }
}

fn write_released(
    sections: &Sections,
    section: u32,
    by: Cause,
    out: &mut Vec<u8>,
) -> Result<(), AllocError>
    requires { section < length sections.now }
    ensures { OnOk result (out.new.items ≡ out.old.items ++ released_text sections.now section by) }
{
    out.extend_from_slice(cause_text(by))?;
    out.extend_from_slice(sections.name(section))?;
    out.extend_from_slice(b": released")?;
    out.extend_from_slice(b"\n")
}

fn write_kept(
    sections: &Sections,
    section: u32,
    index: u32,
    kind: Kind,
    sum: u64,
    by: Cause,
    out: &mut Vec<u8>,
) -> Result<(), AllocError>
    requires section { section < length sections.now }
    requires index { index < length (section_at sections.now section).tags }
    ensures { OnOk result (out.new.items ≡ out.old.items ++ kept_text sections.now section index kind sum by) }
{
    let tag = sections.tag(section, index);
    out.extend_from_slice(cause_text(by))?;
    out.extend_from_slice(sections.name(section))?;
    out.extend_from_slice(b": kept ")?;
    out.extend_from_slice(tag.file())?;
    out.extend_from_slice(b":")?;
    write_number(u64::from(tag.line()), out)?;
    out.extend_from_slice(kind_text(kind))?;
    write_number(sum, out)?;
    out.extend_from_slice(b"\n")
}

/// Appends what a step tells.
pub(crate) fn write_event(
    sections: &Sections,
    event: Event,
    out: &mut Vec<u8>,
) -> Result<(), AllocError>
    requires { EventFits sections.now event }
    ensures { OnOk result (out.new.items ≡ out.old.items ++ event_text sections.now event) }
{
    match event {
        Event::Stepped => Ok(()),
        Event::Released { section, by } => write_released(sections, section, by, out),
        Event::Kept {
            section,
            index,
            kind,
            sum,
            by,
        } => write_kept(sections, section, index, kind, sum, by, out),
    }
}
