//! What a run leaves beside its CPUs.

ghost use Rattle.std.specs.Prelude.{◌≡◌, ◌<◌, ◌≤◌, ◌++◌, All, OnOk, length};
ghost use Rattle.module_area.specs.declared.entry.Entry.{Entry};
ghost use Rattle.tag_model.specs.Shape.{IsChecked};
ghost use Rattle.tag_rule.specs.Shown.{Board, CpuShown};
ghost use Rattle.tag_section.specs.Section.{section_at};
ghost use Rattle.trace_play.specs.Left.{word_at};
ghost use Rattle.trace_play.specs.Printed.{some_rows_text};
ghost use Rattle.round_worker.specs.Parting.{AreKept};
ghost use Rattle.round_worker.specs.Shown.{WorkerShown};
ghost use Rattle.run_text.specs.Rows.{quiet_rows};
ghost use Rattle.plant.specs.Table.{cells_in, slab_cells_of};

use reclaim::Locked;
use round_keys::KeyStore;
use round_worker::Worker;
use run_text::print::print_locked;
use std::alloc::{AllocError, Global};
use tag_rule::CpuSeat;

/// The workers of a trace, what the keys are bound to, and the list of modules.
#[derive(Drop)]
pub struct Left {
    pub workers: Vec<Worker>,
    pub keys: KeyStore,
    pub locked: Locked,
}

impl Left {
    // The word of the cell with the index, if a key or a slab has it.
    pub(crate) fn word_at(&self, cell: usize) -> Option<u64>
        requires checked { IsChecked self.now.locked.board.shape }
        requires keys { AreKept self.now.locked.board self.now.keys }
        requires workers { All (λ (w : WorkerShown). w.board ≡ self.now.locked.board) self.now.workers.items }
        ensures { result ≡ word_at self.now.locked.board.shape cell (cells_in self.now) }
    {
        match self.keys.word_at(cell) {
            Some(word) => Some(word),
            None => slab_word_at(&self.workers, cell),
        }
    }

    // Appends the text of all tags, or of so many of them.
    pub(crate) fn print(
        &self,
        alloc: Global,
        cpus: &mut [CpuSeat],
        kept: bool,
        top: Option<u32>,
        out: &mut Vec<u8>,
    ) -> Result<(), AllocError>
        requires tables { All (λ (c : CpuShown). c.board ≡ self.now.locked.board) cpus.old }
        requires kernel { length (section_at self.now.locked.sections 0).tags ≤ self.now.locked.board.shape.tags }
        requires modules { All (λ (e : Entry). 0 < e.section) self.now.locked.area.entries }
        ensures text { OnOk result (out.new.items ≡ out.old.items ++ some_rows_text top self.now.locked.sections (quiet_rows kept self.now.locked cpus.old)) }
        ensures same { cpus.new ≡ cpus.old }
    {
        print_locked(alloc, &self.locked, cpus, kept, top, out)
    }
}

// The word of the cell with the index, if a slab has it.
fn slab_word_at(workers: &[Worker], cell: usize) -> Option<u64>
    requires checked { All (λ (w : WorkerShown). IsChecked w.board.shape) workers.now }
    ensures { (board : Board) → All (λ (w : WorkerShown). w.board ≡ board) workers.now → result ≡ word_at board.shape cell (slab_cells_of workers.now) }
{
    for worker in workers {
        let word = worker.word_at(cell);
        if word.is_some() {
            return word;
        }
    }
    None
}
