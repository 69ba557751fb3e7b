ghost use Rattle.std.specs.Prelude.{ℕ, ◌≡◌, ◌<◌};
ghost use Rattle.std.specs.Borrow.{sem};
ghost use Rattle.page_ext.specs.Shown.{Fits, IsBlock, high_half, low_half};
ghost use Rattle.page_ext.specs.Lending.{LendsCell};

use std::marker::Model;
use tag_rule::{CellSeat, CpuSeat, divide};

/// Frames of a CPU's node, with the cells that hold their reference. A block that is dropped is a leaked allocation: its
/// frames stay taken and its reference stays live.
#[derive(Drop)]
pub struct Block {
    pub(crate) home: u32,
    pub(crate) frame: u32,
    pub(crate) order: u32,
    pub(crate) cell: CellSeat,
}

impl Model for Block {
    ghost use Rattle.page_ext.specs.Shown.{BlockShown, IsBlock};

    ghost Value = { BlockShown };

    ghost view = { λ block. record { home = block.home; frame = block.frame; order = block.order; cell = block.cell } };

    ghost invariant = { λ block. IsBlock block.frame block.order };
}

/// A block that was freed on another CPU than its home, on its way there. It holds no reference. Where it is dropped, its
/// frames stay taken.
#[derive(Drop)]
pub struct Returned {
    pub(crate) block: Block,
}

impl Model for Returned {
    ghost use Rattle.std.specs.Prelude.{◌≡◌};
    ghost use Rattle.tag_model.specs.declared.state.Held.TheVariants as held;
    ghost use Rattle.page_ext.specs.Shown.{BlockShown, Fits};

    ghost Value = { BlockShown };

    ghost view = { λ returned. returned.block };

    ghost invariant = { λ returned. Fits returned.block × (returned.block.cell.held ≡ held.None) };
}

impl Block {
    /// The CPU whose node the frames are of.
    pub fn home(&self) -> u32
        ensures { result ≡ self.now.home }
    {
        self.home
    }

    /// The first frame.
    pub fn frame(&self) -> u32
        ensures { result ≡ self.now.frame }
    {
        self.frame
    }

    /// It has 2^order frames.
    pub fn order(&self) -> u32
        ensures { result ≡ self.now.order }
    {
        self.order
    }

    /// The cells of its frames. The first holds its reference.
    pub fn cell(&self) -> &CellSeat
        ensures { result.now ≡ self.now.cell }
    {
        &self.cell
    }

    /// The same, to be changed. Another seat may be put in its place, and the block fits no more then.
    pub fn cell_mut(&mut self) -> &mut CellSeat
        ensures* lends { sem 𝓛 (LendsCell self.entry result) }
        ensures value { result.now ≡ self.old.cell }
    {
        &mut self.cell
    }

    /// Cuts a block in its two halves. The first keeps the whole reference, and the second holds nothing: this alone is
    /// no split of the reference.
    pub fn halve(self, cpu: &CpuSeat) -> (Block, Block)
        requires table { self.cell.board ≡ cpu.now.board }
        requires some { 0 < self.order }
        requires fits { Fits self }
        ensures first { result.0 ≡ low_half self }
        ensures second { result.1 ≡ high_half self }
        ensures fit { Fits result.0 × Fits result.1 }
    {
        let Block {
            home,
            frame,
            order,
            cell,
        } = self;
        let order = order - 1;
        let count = 1 << order;
        let (low, high) = divide(cpu, cell, count);
        let first = Block {
            home,
            frame,
            order,
            cell: low,
        };
        let second = Block {
            home,
            frame: frame + count,
            order,
            cell: high,
        };
        (first, second)
    }

    /// What holds of each block, for whoever sees its value alone.
    pub fn tell(&self)
        ensures { IsBlock self.now.frame self.now.order }
    {
        let _order = &self.order;
    }
}

impl Returned {
    /// The CPU whose node the frames are of.
    pub fn home(&self) -> u32
        ensures { result ≡ self.now.home }
    {
        self.block.home
    }
}
