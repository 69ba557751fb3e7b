ghost use Rattle.std.specs.Prelude.{◌≡◌, ◌<◌, ◌≤◌, IfOk, length};

use crate::VectorPool;
use std::alloc::{AllocError, Global};
use std::test::Fail;
use tag_model::Shape;
use tag_rule::{Seats, make};

// Threads may be handed the value.
fn moves<T: Send>(_value: &T) {}

// The first two of the three vectors of a CPU.
fn two_vectors(alloc: Global) -> Result<VectorPool, AllocError>
    ensures { IfOk result (λ made. length made.pools ≡ 2) }
{
    let shape = Shape {
        cpus: 1,
        tags: 1,
        kernel_tags: 1,
        frames: 1,
        vectors: 3,
    };
    let Seats {
        cpus: _,
        pages: _,
        mut objects,
        list: _,
        loads: _,
    } = make(alloc, shape)?;
    let pools = objects.pop().unwrap();
    VectorPool::new(alloc, 0, 2, pools)
}

// The lowest that is in goes out, until all are out.
#[test]
fn lowest_first(rt: HostRuntime) -> Result<(), Fail> {
    let mut vectors = two_vectors(rt.alloc())?;
    moves(&vectors);
    let first = vectors.take_vector().expect(&rt, "all are in");
    moves(&first);
    let second = vectors.take_vector().expect(&rt, "one is in");
    assert_eq!(rt; (first.number(), second.number()), (0, 1));
    assert!(rt; vectors.take_vector().is_none());
    vectors.give_vector(first);
    let again = vectors.take_vector().expect(&rt, "the first came in");
    assert_eq!(rt; again.number(), 0);
    Ok(())
}
