ghost use Rattle.std.specs.Prelude.{ℕ, ◌≡◌, ◌<◌, ◌≤◌, ◌↔◌, IfOk, IfSome, IsNone, None, Some, is_some, length, map, position, slice_get, take, vec_len};
ghost use Rattle.std.specs.Borrow.{sem};
ghost use Rattle.tag_rule.specs.Shown.{PoolShown};
ghost use Rattle.slab_ext.specs.Vectors.{AreVectors, IsWhole, Takes, lowest, with_vector};
ghost use Rattle.slab_ext.specs.Lending.{LendsPool};

use std::alloc::{AllocError, Global};
use std::marker::Model;
use tag_rule::CellPool;

/// A vector that was taken: 64 cells of its CPU, with a number. Those that aren't in use are in its pool.
#[derive(Drop)]
pub struct Vector {
    number: u32,
    pool: CellPool,
}

impl Model for Vector {
    ghost use Rattle.slab_ext.specs.Vectors.{VectorShown};

    ghost Value = { VectorShown };

    ghost view = { λ vector. record { number = vector.number; pool = vector.pool } };
}

/// A CPU's vectors by number. Each that is in has its pool of cells here.
#[derive(Drop)]
pub struct VectorPool {
    cpu: u32,
    pools: Vec<Option<CellPool>>,
}

impl Model for VectorPool {
    ghost use Rattle.slab_ext.specs.Vectors.{AreVectors, VectorsShown};

    ghost Value = { VectorsShown };

    ghost view = { λ vectors. record { cpu = vectors.cpu; pools = vectors.pools.items } };

    ghost invariant = { λ vectors. AreVectors (record { cpu = vectors.cpu; pools = vectors.pools.items }) };
}

impl Vector {
    /// Its place among the vectors of its CPU.
    pub fn number(&self) -> u32
        ensures { result ≡ self.now.number }
    {
        self.number
    }

    /// The cells of it that aren't in use, to be taken out and put back. Another pool may be put in its place.
    pub fn pool_mut(&mut self) -> &mut CellPool
        ensures* lends { sem 𝓛 (LendsPool self.entry result) }
        ensures value { result.now ≡ self.old.pool }
    {
        &mut self.pool
    }
}

impl VectorPool {
    /// The first `vectors` vectors of a CPU, all in. The pools are those of the CPU's vectors, by rising number.
    pub fn new(
        alloc: Global,
        cpu: u32,
        vectors: u32,
        pools: Vec<CellPool>,
    ) -> Result<VectorPool, AllocError>
        requires few { vectors ≤ 64 }
        requires enough { vectors ≤ vec_len pools }
        requires whole { (number : ℕ) (pool : PoolShown) → number < vectors → slice_get pools.items number ≡ Some pool → IsWhole cpu number pool }
        ensures { IfOk result (λ made. made ≡ record { cpu = cpu; pools = map Some (take vectors pools.items) }) }
    {
        Ok(VectorPool {
            cpu,
            pools: first_in(alloc, vectors as usize, pools)?,
        })
    }

    /// Takes the lowest vector that is in.
    pub fn take_vector(&mut self) -> Option<Vector>
        ensures none { IsNone result ↔ (lowest self.old ≡ None) }
        ensures takes { IfSome result (Takes self.old self.new) }
        ensures same { IsNone result → self.new ≡ self.old }
    {
        match lowest_in(&self.pools) {
            None => None,
            Some(number) => Some(Vector {
                number: number as u32,
                pool: self.pools[number].take().unwrap(),
            }),
        }
    }

    /// Takes a vector back.
    pub fn give_vector(&mut self, vector: Vector)
        requires number { vector.number < length self.old.pools }
        requires whole { IsWhole self.old.cpu vector.number vector.pool }
        ensures { self.new ≡ with_vector vector.number (Some vector.pool) self.old }
    {
        let Vector { number, pool } = vector;
        self.pools[number as usize] = Some(pool);
    }

    /// What holds of all vectors, for whoever sees their value alone.
    pub fn tell(&self)
        ensures { AreVectors self.now }
    {
        let _cpu = &self.cpu;
    }
}

// The first pools, so many.
fn first_in(
    alloc: Global,
    count: usize,
    pools: Vec<CellPool>,
) -> Result<Vec<Option<CellPool>>, AllocError>
    ensures { IfOk result (λ made. made.items ≡ map Some (take count pools.items)) }
{
    pools.into_iter().take(count).map(Some).collect(alloc)
}

// The first that is in.
fn lowest_in(pools: &[Option<CellPool>]) -> Option<usize>
    ensures { result ≡ position is_some pools.now }
{
    pools.iter().position(|pool| pool.is_some())
}
