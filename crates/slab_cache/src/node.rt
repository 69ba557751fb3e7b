ghost use Rattle.std.specs.Borrow.{sem};
ghost use Rattle.std.specs.Prelude.{ℕ, ◌≡◌, IfOk, None, Some, option_map, replicate, slice_get, slice_index_or, length};
ghost use Rattle.tag_rule.specs.Shown.{PoolShown};
ghost use Rattle.slab_cache.specs.NodeLending.{LendsNode};
ghost use Rattle.slab_cache.specs.Shown.{Stands, slab_block};
ghost use Rattle.slab_cache.specs.Tables.{AreSlabs};

use crate::table::SlabTable;
use page_ext::{Block, Node};
use slab_ext::VectorPool;
use std::alloc::{AllocError, Global};
use std::marker::Model;

/// A CPU's node with its slabs and the vectors that they take.
#[derive(Drop)]
pub struct SlabNode {
    pub(crate) node: Node,
    pub(crate) vectors: VectorPool,
    pub(crate) table: SlabTable,
}

impl Model for SlabNode {
    ghost use Rattle.slab_cache.specs.Shown.{SlabNodeShown};
    ghost use Rattle.slab_cache.specs.Tables.{AreSlabs};

    ghost Value = { SlabNodeShown };

    ghost view = { λ node. record { node = node.node; vectors = node.vectors; slabs = node.table } };

    ghost invariant = { λ node. AreSlabs node.vectors node.table };
}

impl SlabNode {
    /// A node with no slab yet: an entry for each frame.
    pub fn new(alloc: Global, node: Node, vectors: VectorPool) -> Result<SlabNode, AllocError>
        requires own { node.node.cpu ≡ vectors.cpu }
        requires table { (number : ℕ) (pool : PoolShown) → slice_get vectors.pools number ≡ Some (Some pool) → pool.board ≡ node.board }
        ensures made { IfOk result (λ made. made ≡ record { node = node; vectors = vectors; slabs = replicate (length node.node.frames) None }) }
        ensures stands { IfOk result Stands }
    {
        let table = SlabTable::new(alloc, node.frames())?;
        Ok(SlabNode {
            node,
            vectors,
            table,
        })
    }

    /// The node in it, for blocks of its frames. Another may be put in its place, and this one may not stand then.
    pub fn node_mut(&mut self) -> &mut Node
        ensures* lends { sem 𝓛 (LendsNode self.entry result) }
        ensures value { result.now ≡ self.old.node }
    {
        &mut self.node
    }

    /// The block of the slab that begins at a frame.
    pub fn slab(&self, frame: u32) -> Option<&Block>
        ensures { option_map (λ block. block.now) result ≡ option_map slab_block (slice_index_or self.now.slabs frame None) }
    {
        match self.table.slab(frame) {
            Some(slab) => Some(slab.block()),
            None => None,
        }
    }

    /// What holds of all slabs, for whoever sees their value alone.
    pub fn tell(&self)
        ensures { AreSlabs self.now.vectors self.now.slabs }
    {
        let _node = &self.node;
    }
}
