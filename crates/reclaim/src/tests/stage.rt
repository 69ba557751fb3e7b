//! Two CPUs and two cells beside the module list of their table, for the tests.

ghost use Rattle.std.specs.Prelude.{◌<◌, ◌≡◌};

use super::plant::{Plant, enter_first, new_plant};
use super::race::unload_around;
use crate::{
    Locked, NotLoaded, Reclaim, UnloadError, clean_locked, enter_locked, leave_locked, load_locked,
    tag_of_locked, unload_locked,
};
use module_area::{AreaError, Entry, State};
use std::alloc::{AllocError, Global};
use std::test::Fail;
use tag_model::{Held, SIZE_END, Stop, Tag};
use tag_ref::{close_ref, open_ref};
use tag_rule::{CellSeat, CpuSeat, LoadPass};

/// A module list with its pass, CPU 1 and a cell, and CPU 0 and another cell.
#[derive(Drop)]
pub struct Stage {
    pub locked: Locked,
    pub loads: LoadPass,
    pub cpu: CpuSeat,
    pub cell: CellSeat,
    pub other: CpuSeat,
    pub spare: CellSeat,
    ghost loads_there: { loads.board ≡ locked.board },
    ghost cpu_there: { cpu.board ≡ locked.board },
    ghost cell_there: { cell.board ≡ locked.board },
    ghost other_there: { other.board ≡ locked.board },
    ghost spare_there: { spare.board ≡ locked.board },
}

/// A new table's.
pub fn new_stage(alloc: Global) -> Result<Option<Stage>, Fail> {
    let Plant {
        locked,
        loads,
        mut cpus,
        mut cells,
    } = new_plant(alloc, 2, 2)?;
    match (cpus.pop(), cpus.pop(), cells.pop(), cells.pop()) {
        (Some(cpu), Some(other), Some(spare), Some(cell)) => Ok(Some(Stage {
            locked,
            loads,
            cpu,
            cell,
            other,
            spare,
        })),
        _ => Ok(None),
    }
}

impl Stage {
    pub fn load(&mut self, section: u32) -> Result<u32, AreaError> {
        load_locked(&mut self.locked, &mut self.loads, section)
    }

    /// The CPU goes into the module, and counts so many bytes under its first tag in the cell.
    pub fn open(&mut self, id: u32, size: u64) -> Option<Tag>
        requires { (0 < size) × (size < SIZE_END) }
    {
        if self.cpu.hand().is_some() || !matches!(self.cell.held(), Held::None) {
            return None;
        }
        let tag = enter_first(&mut self.locked, &mut self.cpu, id)?;
        open_ref(&mut self.cpu, &mut self.cell, tag, size);
        Some(tag)
    }

    /// Counts 64 bytes under the kernel's first tag in the cell.
    pub fn open_kernel(&mut self) -> bool {
        if self.cpu.hand().is_some() || !matches!(self.cell.held(), Held::None) {
            return false;
        }
        if self.cpu.shape().kernel_tags == 0 {
            return false;
        }
        let tag = Tag {
            number: 0,
            module: 0,
        };
        open_ref(&mut self.cpu, &mut self.cell, tag, 64);
        true
    }

    /// The CPU goes into the module, and nothing else is done any more.
    pub fn enter(self, id: u32) -> Option<Result<(), NotLoaded>> {
        let Stage {
            mut locked,
            loads: _,
            mut cpu,
            cell: _,
            other: _,
            spare: _,
        } = self;
        if cpu.is_inside(id) || cpu.inside_count() >= 64 {
            return None;
        }
        Some(enter_locked(&mut locked, &mut cpu, id))
    }

    /// CPU 0 goes into the module.
    pub fn enter_other(&mut self, id: u32) -> bool {
        enter_first(&mut self.locked, &mut self.other, id).is_some()
    }

    pub fn leave(&mut self, id: u32) -> bool {
        if self.cpu.hand().is_some() || !self.cpu.is_inside(id) {
            return false;
        }
        leave_locked(&mut self.locked, &mut self.cpu, id);
        true
    }

    pub fn unload(&mut self, id: u32) -> Result<Reclaim, UnloadError> {
        unload_locked(&mut self.locked, id)
    }

    /// Unloads the module by single steps. Between the sweep's first read and the others CPU 0 splits the cell's reference,
    /// and CPU 1 frees the half in the other cell. The answer is what the sweep stopped at.
    pub fn unload_around(&mut self, id: u32) -> Option<Stop> {
        if self.cpu.hand().is_some() || self.other.hand().is_some() {
            return None;
        }
        match self.locked.book().get(id) {
            Some(
                Entry {
                    state: State::Loaded,
                    users: 0,
                    ..
                },
            ) => unload_around(
                &mut self.locked,
                id,
                &mut self.other,
                &mut self.cpu,
                &mut self.cell,
                &mut self.spare,
            ),
            _ => None,
        }
    }

    pub fn clean(&mut self) -> u32 {
        clean_locked(&mut self.locked)
    }

    /// The text of the tag under which the cell is counted.
    pub fn text(&mut self, alloc: Global) -> Result<Vec<u8>, AllocError> {
        let mut text = Vec::new(alloc);
        let _told = tag_of_locked(&mut self.locked, &mut self.cell, &mut text)?;
        Ok(text)
    }

    pub fn close(&mut self) -> bool {
        if self.cpu.hand().is_some() || matches!(self.cell.held(), Held::None) {
            return false;
        }
        close_ref(&mut self.cpu, &mut self.cell);
        true
    }
}
