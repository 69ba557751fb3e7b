//! What a worker counted, and how many slabs its node has.

ghost use Rattle.std.specs.Prelude.{◌≡◌, count_by, is_some, length};
ghost use Rattle.trace_play.specs.Machine.{slab_cells};

use crate::worker::Worker;
use slab_cache::SlabNode;

impl Worker {
    /// How many of its allocations found no frames.
    pub fn failed(&self) -> u64
        ensures { result ≡ self.now.failed }
    {
        self.failed
    }

    /// How many of its objects had no cell.
    pub fn uncounted(&self) -> u64
        ensures { result ≡ self.now.uncounted }
    {
        self.uncounted
    }

    /// How many slabs its node has.
    pub fn slabs(&self) -> u64
        ensures { result ≡ length (slab_cells self.now.seat.node) }
    {
        slabs_in(&self.node, self.frames)
    }
}

// How many slabs begin at the frames of a node, so many.
fn slabs_in(node: &SlabNode, frames: u32) -> u64
    requires { length node.now.slabs ≡ frames }
    ensures { result ≡ count_by is_some node.now.slabs }
{
    let mut count = 0;
    for frame in 0..frames {
        if node.slab(frame).is_some() {
            count += 1;
        }
    }
    count
}
