mod desk;
mod mixed;
mod script;

use self::desk::new_desks;
use self::script::{Step, play};
use crate::{ObjError, is_counted};
use std::test::Fail;

const fn give(count: u8, size: u64, tag: u32, first: (u32, u8, Option<u32>)) -> Step {
    Step::Give {
        count,
        size,
        tag,
        first,
        apart: 1,
    }
}

const fn refuse(size: u64, error: ObjError) -> Step {
    Step::Refuse { size, error }
}

const fn free(count: u8, first: u8) -> Step {
    Step::Free { count, first }
}

const fn slab(frame: u32, there: bool) -> Step {
    Step::Slab { frame, there }
}

// Nothing is given above all frames of the largest node, and all of them are given at once.
#[test]
fn kmalloc_bounds(rt: HostRuntime) -> Result<(), Fail> {
    let (mut desk, _other) = new_desks(rt.alloc(), 1024, 0)?;
    play(
        &rt,
        &mut desk,
        &[
            refuse(0, ObjError::ZeroSize),
            refuse(4_194_305, ObjError::TooBig),
            Step::Words([(0, 0), (0, 0), (0, 0)]),
            give(1, 4_194_304, 1, (0, 10, None)),
            refuse(1, ObjError::NoFrames),
            Step::Words([(0, 0), (4_194_304, 1), (0, 0)]),
        ],
    )
}

// The 33rd object of a class with 32 in a slab opens a second slab, which goes with it.
#[test]
fn thirty_three_objects(rt: HostRuntime) -> Result<(), Fail> {
    let (mut desk, _other) = new_desks(rt.alloc(), 2, 2)?;
    play(
        &rt,
        &mut desk,
        &[
            give(32, 100, 1, (0, 0, Some(0))),
            slab(1, false),
            give(1, 100, 1, (1, 0, Some(1))),
            slab(1, true),
            Step::Words([(8192, 2), (4224, 33), (0, 0)]),
            free(1, 32),
            slab(1, false),
            Step::Words([(4096, 1), (4096, 32), (0, 0)]),
            give(1, 8, 2, (1, 0, Some(1))),
        ],
    )
}

// An object above 8,192 bytes is a block of its own, at a start of its order.
#[test]
fn large_object(rt: HostRuntime) -> Result<(), Fail> {
    let (mut desk, _other) = new_desks(rt.alloc(), 16, 1)?;
    play(
        &rt,
        &mut desk,
        &[
            give(1, 9_000, 1, (0, 2, None)),
            Step::Words([(0, 0), (16384, 1), (0, 0)]),
            give(1, 8_192, 1, (8, 0, Some(0))),
            Step::Words([(32768, 1), (24576, 2), (0, 0)]),
        ],
    )?;
    let large = desk.take(0).expect(&rt, "the block");
    assert!(rt; large.into_block().is_ok());
    let small = desk.take(1).expect(&rt, "the other");
    assert!(rt; small.into_block().is_err());
    Ok(())
}

// With no vector in, an object has no cell and isn't counted, nor is a later one in its slab when one came in.
#[test]
fn object_without_cell(rt: HostRuntime) -> Result<(), Fail> {
    let (mut desk, _other) = new_desks(rt.alloc(), 4, 1)?;
    play(
        &rt,
        &mut desk,
        &[
            give(1, 8, 1, (0, 0, Some(0))),
            give(1, 100, 1, (1, 0, None)),
            Step::Words([(8192, 2), (8, 1), (0, 0)]),
            free(1, 0),
            give(1, 100, 1, (1, 1, None)),
            give(1, 8, 2, (0, 0, Some(0))),
            Step::Words([(8192, 2), (0, 0), (8, 1)]),
            free(1, 1),
            slab(1, true),
        ],
    )?;
    let bare = desk.take(2).expect(&rt, "at place 1");
    assert!(rt; !is_counted(&bare));
    assert!(rt; bare.cell().is_none());
    assert!(rt; desk.free(bare).is_ok());
    play(
        &rt,
        &mut desk,
        &[slab(1, false), Step::Words([(4096, 1), (0, 0), (8, 1)])],
    )
}

// Where no tag is current an object has a cell with the empty mark, which counts nothing.
#[test]
fn unhooked_object(rt: HostRuntime) -> Result<(), Fail> {
    let (mut desk, _other) = new_desks(rt.alloc(), 1, 1)?;
    let mut unhooked = desk.ask(None, 8).expect(&rt, "a frame");
    assert!(rt; !is_counted(&unhooked));
    assert!(rt; unhooked.cell_mut().is_some());
    let hooked = desk.ask(Some(1), 8).expect(&rt, "the next place");
    assert!(rt; is_counted(&hooked));
    play(&rt, &mut desk, &[Step::Words([(4096, 1), (8, 1), (0, 0)])])
}

// CPU 1 frees the one object of a slab of CPU 0. The slab is there until the place comes home.
#[test]
fn place_comes_home(rt: HostRuntime) -> Result<(), Fail> {
    let (mut near, mut far) = new_desks(rt.alloc(), 1, 1)?;
    play(&rt, &mut near, &[give(1, 4, 1, (0, 0, Some(0)))])?;
    let back = near.free_at(&mut far, 0).expect(&rt, "of CPU 0");
    assert_eq!(rt; back.home(), 0);
    play(
        &rt,
        &mut far,
        &[Step::Words([(0, 0), (u64::MAX - 7, u64::MAX), (0, 0)])],
    )?;
    play(
        &rt,
        &mut near,
        &[
            Step::Words([(4096, 1), (8, 1), (0, 0)]),
            refuse(9, ObjError::NoFrames),
        ],
    )?;
    assert!(rt; near.take_home(back));
    play(
        &rt,
        &mut near,
        &[
            slab(0, false),
            Step::Words([(0, 0), (8, 1), (0, 0)]),
            give(1, 9, 2, (0, 0, Some(0))),
        ],
    )
}
