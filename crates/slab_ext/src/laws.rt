//! What a table's own pools of cells are to vectors. The function does nothing.

ghost use Rattle.std.specs.Prelude.{ℕ, ◌≡◌, ◌<◌, Some, slice_get};
ghost use Rattle.tag_rule.specs.Made.{fresh_vectors};
ghost use Rattle.tag_rule.specs.Shown.{Board, PoolShown};
ghost use Rattle.slab_ext.specs.Vectors.{IsWhole};

/// Each pool that is made for a CPU's vector has all cells of the vector of its number.
pub fn made_pools_are_whole()
    ensures { (b : Board) (cpu number : ℕ) (pool : PoolShown) → cpu < b.shape.cpus → slice_get (fresh_vectors b cpu) number ≡ Some pool → IsWhole cpu number pool }
{}
