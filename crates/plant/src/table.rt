//! A table with all that stands on it.

ghost use Rattle.std.specs.Prelude.{◌≡◌, ◌<◌, ◌≤◌, ◌++◌, [], All, IfOk, IsTrue, None, OnOk, Some, false, length, slice_get, unwrap_or};
ghost use Rattle.std.specs.Arc.{arc_value};
ghost use Rattle.tag_model.specs.Index.{first_cell, word_count};
ghost use Rattle.tag_model.specs.Shape.{IsChecked};
ghost use Rattle.tag_rule.specs.Shown.{CpuShown};
ghost use Rattle.trace_play.specs.Left.{word_at};
ghost use Rattle.plant.specs.Fresh.{FitsShape, IsStarted};
ghost use Rattle.plant.specs.Table.{IsLeft, IsNew, cells_of, quiet_text, tag_words};

use crate::left::Left;
use crate::starting::{Started, deal};
use crate::words::words_at;
use allocinfo::write_header;
use std::alloc::{AllocError, Global};
use std::marker::Model;
use std::mem;
use std::sync::Arc;
use tag_model::Shape;
use tag_rule::{CellPool, CpuSeat, ListSeat, LoadPass, Seats, make};
use tag_section::Sections;
use trace::Trace;

/// The tokens of a table that no run has begun with, without those of the CPUs.
#[derive(Drop)]
pub(crate) struct Tokens {
    pages: Vec<CellPool>,
    objects: Vec<Vec<CellPool>>,
    list: ListSeat,
    loads: LoadPass,
}

/// A table with all that stands on it.
#[derive(Drop)]
pub struct Plant {
    alloc: Global,
    shape: Shape,
    cpus: Vec<CpuSeat>,
    // As long as no run has begun.
    fresh: Option<Tokens>,
    // Once a run has ended.
    left: Option<Left>,
}

impl Model for Plant {
    ghost use Rattle.std.specs.Prelude.{is_some};
    ghost use Rattle.plant.specs.Table.{IsPlant, PlantShown};

    ghost Value = { PlantShown };

    ghost view = { λ plant. record { shape = plant.shape; fresh = is_some plant.fresh; cpus = plant.cpus.items; left = plant.left } };

    ghost invariant = { λ plant. IsPlant plant.shape plant.cpus plant.fresh plant.left };
}

impl Plant {
    /// A fresh table of the shape: all words are 0, no cell holds anything, and nothing was loaded.
    pub fn new(alloc: Global, shape: Shape) -> Result<Plant, AllocError>
        requires { IsChecked shape }
        ensures { IfOk result (IsNew shape) }
    {
        let Seats {
            cpus,
            pages,
            objects,
            list,
            loads,
        } = make(alloc, shape)?;
        let tokens = Tokens {
            pages,
            objects,
            list,
            loads,
        };
        Ok(Plant {
            alloc,
            shape,
            cpus,
            fresh: Some(tokens),
            left: None,
        })
    }

    /// Whether no run has begun.
    pub fn is_fresh(&self) -> bool
        ensures { result ≡ self.now.fresh }
    {
        self.fresh.is_some()
    }

    /// The shape that it was made of.
    pub fn shape(&self) -> Shape
        ensures { result ≡ self.now.shape }
    {
        self.shape
    }

    /// A run begins: all tokens go to it.
    pub fn start(
        &mut self,
        trace: &Trace,
        sections: Arc<Sections, Global>,
    ) -> Result<Started, AllocError>
        requires fresh { IsTrue self.old.fresh }
        requires fits { FitsShape self.old.shape trace.now }
        ensures started { IfOk result (IsStarted self.old.shape trace.now (arc_value sections)) }
        ensures plant { self.new ≡ record self.old { fresh = false; cpus = []; left = None } }
    {
        self.left = None;
        let fresh = self.fresh.take();
        let cpus = mem::replace(&mut self.cpus, Vec::new(self.alloc));
        let Tokens {
            pages,
            objects,
            list,
            loads,
        } = fresh.unwrap();
        let seats = Seats {
            cpus,
            pages,
            objects,
            list,
            loads,
        };
        deal(self.alloc, self.shape, seats, trace, sections)
    }

    /// The CPUs come back, and the rest, as a run left them.
    pub fn settle(&mut self, cpus: Vec<CpuSeat>, left: Left)
        requires used { self.old.fresh ≡ false }
        requires left { IsLeft self.old.shape cpus.items left }
        ensures { self.new ≡ record self.old { cpus = cpus.items; left = Some left } }
    {
        self.cpus = cpus;
        self.left = Some(left);
    }

    /// The bytes and the calls of a tag in the words of a CPU.
    pub fn cpu_word(&mut self, cpu: u32, tag: u32) -> (u64, u64)
        requires cpu { cpu < length self.old.cpus }
        requires tag { All (λ (c : CpuShown). tag < c.board.shape.tags) self.old.cpus }
        ensures words { (c : CpuShown) → slice_get self.old.cpus cpu ≡ Some c → result ≡ tag_words tag c }
        ensures same { self.new ≡ self.old }
    {
        words_at(&mut self.cpus, cpu as usize, tag)
    }

    /// The word of the cell with the index: that of the reference that it holds, or 0.
    pub fn cell_word(&self, cell: usize) -> u64
        requires { (first_cell self.now.shape ≤ cell) × (cell < word_count self.now.shape) }
        ensures { result ≡ unwrap_or (word_at self.now.shape cell (cells_of self.now)) 0 }
    {
        match &self.left {
            Some(left) => left.word_at(cell).unwrap_or(0),
            None => 0,
        }
    }
}

/// Appends the text of all tags, or of so many with the greatest numbers, by the words that the CPUs have now. Kept ranges
/// are shown where `kept` is true.
pub fn print_quiet(
    plant: &mut Plant,
    top: Option<u32>,
    kept: bool,
    out: &mut Vec<u8>,
) -> Result<(), AllocError>
    ensures text { OnOk result (out.new.items ≡ out.old.items ++ quiet_text kept top plant.old) }
    ensures same { plant.new ≡ plant.old }
{
    match &plant.left {
        Some(left) => left.print(plant.alloc, plant.cpus.as_mut_slice(), kept, top, out),
        None => write_header(out),
    }
}
