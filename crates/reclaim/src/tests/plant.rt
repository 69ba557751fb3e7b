//! A new table with its module list, for the tests.

ghost use Rattle.std.specs.Prelude.{All, IfSome, IsTrue, ◌<◌, ◌≡◌, ◌≤◌, map};
ghost use Rattle.std.specs.List.{range_with_len};
ghost use Rattle.tag_model.specs.StepRules.{may_begin};
ghost use Rattle.tag_rule.specs.Shown.{CellShown, CpuShown};

use crate::{Locked, enter_locked};
use codetag::CodeTag;
use module_area::Book;
use std::alloc::Global;
use std::sync::Arc;
use std::test::Fail;
use tag_model::{Shape, Tag, page_cell};
use tag_rule::{CellSeat, CpuSeat, LoadPass, make, part, singles};
use tag_section::Sections;

/// The module list of a new table with its pass, all its CPUs, and cells of the first CPU's node.
#[derive(Drop)]
pub struct Plant {
    pub locked: Locked,
    pub loads: LoadPass,
    pub cpus: Vec<CpuSeat>,
    pub cells: Vec<CellSeat>,
    ghost loads_there: { loads.board ≡ locked.board },
    ghost cpus_there: { All (λ (c : CpuShown). c.board ≡ locked.board) cpus.items },
    ghost cpus_all: { map (λ (c : CpuShown). c.part.number) cpus.items ≡ range_with_len 0 locked.board.shape.cpus },
    ghost cells_there: { All (λ (c : CellShown). c.board ≡ locked.board) cells.items },
}

/// The kernel has a tag, and so has a module.
fn program(alloc: Global) -> Result<Sections, Fail> {
    let mut sections = Sections::new(alloc);
    let _kernel = sections.begin(b"kernel")?;
    sections.add_line(CodeTag::new(alloc, b"mm/a.c", 10, b"fa")?)?;
    let _ext = sections.begin(b"ext")?;
    sections.add_line(CodeTag::new(alloc, b"m/x.c", 5, b"fx")?)?;
    Ok(sections)
}

/// A new table's, with so many CPUs and cells. The kernel has a tag, and the area four.
pub fn new_plant(alloc: Global, cpus: u32, cells: u32) -> Result<Plant, Fail>
    requires cpus { (0 < cpus) × (cpus ≤ 64) }
    requires cells { (0 < cells) × (cells ≤ 512) }
{
    let shape = Shape {
        cpus,
        tags: 5,
        kernel_tags: 1,
        frames: 512,
        vectors: 0,
    };
    let mut seats = make(alloc, shape)?;
    let run = part(&mut seats.pages[0], page_cell(shape, 0, 0), cells);
    let cells = singles(alloc, &seats.cpus[0], run)?;
    let book = Book::new(alloc, 1, 4)?;
    let sections = Arc::new(alloc, program(alloc)?)?;
    let locked = Locked::new(book, seats.list, sections);
    Ok(Plant {
        locked,
        loads: seats.loads,
        cpus: seats.cpus,
        cells,
    })
}

/// The CPU goes into the module. The answer is the module's first tag, under which it may count then.
pub fn enter_first(locked: &mut Locked, cpu: &mut CpuSeat, id: u32) -> Option<Tag>
    requires { cpu.old.board ≡ locked.old.board }
    ensures list { locked.new.board ≡ locked.old.board }
    ensures cpu { (cpu.new.board ≡ cpu.old.board) × (cpu.new.part.number ≡ cpu.old.part.number) × (cpu.new.part.hand ≡ cpu.old.part.hand) }
    ensures allowed { IfSome result (λ tag. IsTrue (may_begin cpu.new.board.shape tag cpu.new.part.runs)) }
{
    let entry = locked.book().get(id)?;
    if id == 0 || cpu.is_inside(id) || cpu.inside_count() >= 64 {
        return None;
    }
    match enter_locked(locked, cpu, id) {
        Ok(()) => Some(Tag {
            number: entry.start,
            module: id,
        }),
        Err(_) => None,
    }
}
