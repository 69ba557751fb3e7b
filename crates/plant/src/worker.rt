//! The worker of a CPU, of the CPU's pools.

ghost use Rattle.std.specs.Prelude.{◌≡◌, ◌<◌, ◌≤◌, IfOk};
ghost use Rattle.tag_rule.specs.Made.{fresh_vectors, pages_of};
ghost use Rattle.plant.specs.Fresh.{fresh_worker};

use page_ext::Node;
use round_worker::Worker;
use slab_cache::SlabNode;
use slab_ext::VectorPool;
use std::alloc::{AllocError, Global};
use tag_rule::CellPool;

/// The worker of a CPU with the first frames and vectors of it.
pub(crate) fn make_worker(
    alloc: Global,
    cpu: u32,
    frames: u32,
    vectors: u32,
    pages: CellPool,
    pools: Vec<CellPool>,
) -> Result<Worker, AllocError>
    requires few { (frames ≤ 1024) × (vectors ≤ 64) }
    requires one { cpu < pages.board.shape.cpus }
    requires frames { frames ≤ pages.board.shape.frames }
    requires vectors { vectors ≤ pages.board.shape.vectors }
    requires pages { pages ≡ pages_of pages.board cpu }
    requires pools { pools.items ≡ fresh_vectors pages.board cpu }
    ensures { IfOk result (λ worker. worker ≡ fresh_worker pages.board frames vectors cpu) }
{
    let node = Node::new(alloc, cpu, frames, pages)?;
    let vectors = VectorPool::new(alloc, cpu, vectors, pools)?;
    Worker::new(alloc, SlabNode::new(alloc, node, vectors)?)
}
