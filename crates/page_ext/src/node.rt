ghost use Rattle.std.specs.Prelude.{ℕ, ◌≡◌, ◌<◌, ◌≤◌, IfOk, IsTrue, false, length, replicate};
ghost use Rattle.tag_model.specs.Index.{page_index};
ghost use Rattle.tag_rule.specs.Shown.{has};

use buddy::Zone;
use std::alloc::{AllocError, Global};
use std::marker::Model;
use tag_rule::CellPool;

/// A CPU's frames. Each that is free has its cell in the node's pool; a block takes its cells out and brings them back.
#[derive(Drop)]
pub struct Node {
    pub(crate) cpu: u32,
    pub(crate) zone: Zone,
    pub(crate) pool: CellPool,
}

impl Model for Node {
    ghost use Rattle.page_ext.specs.Shown.{NodeShown, IsNode};

    ghost Value = { NodeShown };

    ghost view = { λ node. record { board = node.pool.board; node = record { cpu = node.cpu; frames = node.zone } } };

    ghost invariant = { λ node. IsNode node.cpu node.zone node.pool };
}

impl Node {
    /// The node of a CPU with its first `frames` frames, all free. The pool has their cells.
    pub fn new(alloc: Global, cpu: u32, frames: u32, pool: CellPool) -> Result<Node, AllocError>
        requires few { frames ≤ 1024 }
        requires in_shape { frames ≤ pool.board.shape.frames }
        requires one { cpu < pool.board.shape.cpus }
        requires cells { (frame : ℕ) → frame < frames → IsTrue (has pool (page_index pool.board.shape cpu frame)) }
        ensures { IfOk result (λ node. node ≡ record { board = pool.board; node = record { cpu = cpu; frames = replicate frames false } }) }
    {
        Ok(Node {
            cpu,
            zone: Zone::new(alloc, frames)?,
            pool,
        })
    }

    /// How many frames there are.
    pub fn frames(&self) -> u32
        ensures { result ≡ length self.now.node.frames }
    {
        self.zone.frames()
    }
}
