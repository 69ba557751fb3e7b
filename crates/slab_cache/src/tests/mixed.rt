//! A script of a block and 199 objects of ten classes, freed in another order. Its numbers were worked out by hand.

use super::desk::new_desks;
use super::script::{Step, play};
use super::{free, give, refuse, slab};
use crate::ObjError;
use std::test::Fail;

// Objects at each third place.
const fn fill(count: u8, size: u64, tag: u32, first: (u32, u8, Option<u32>)) -> Step {
    Step::Give {
        count,
        size,
        tag,
        first,
        apart: 3,
    }
}

// 200 objects of mixed classes, freed in another order than they were given in.
#[test]
fn two_hundred_objects(rt: HostRuntime) -> Result<(), Fail> {
    let (mut desk, _other) = new_desks(rt.alloc(), 64, 5)?;
    // The first 150. From the sixth slab on all vectors are out, and only what goes into frame 0 is counted.
    play(
        &rt,
        &mut desk,
        &[
            give(40, 8, 1, (0, 0, Some(0))),
            give(24, 100, 2, (1, 0, Some(1))),
            give(12, 1_000, 1, (8, 0, Some(2))),
            give(1, 9_000, 2, (4, 2, None)),
            give(1, 4_096, 1, (16, 0, Some(3))),
            give(9, 96, 1, (2, 0, Some(4))),
            Step::Words([(77_824, 5), (17_568, 62), (19_456, 25)]),
            give(8, 500, 2, (3, 0, None)),
            give(2, 500, 2, (24, 0, None)),
            give(4, 8_192, 1, (32, 0, None)),
            give(1, 8_192, 1, (40, 0, None)),
            give(24, 5, 2, (0, 40, Some(0))),
            give(2, 5, 2, (25, 0, None)),
            give(21, 170, 1, (26, 0, None)),
            give(1, 170, 1, (27, 0, None)),
            Step::Words([(163_840, 12), (17_568, 62), (19_648, 49)]),
        ],
    )?;
    // Frees 149, 146 and so on to 2, with the slabs at 16, 27 and 40. The next 50 take their places and vector 3.
    play(
        &rt,
        &mut desk,
        &[
            free(50, 149),
            slab(40, false),
            Step::Words([(94_208, 9), (8_984, 41), (18_560, 33)]),
            fill(13, 8, 2, (0, 2, Some(0))),
            fill(8, 3, 1, (0, 42, Some(0))),
            give(1, 3, 1, (25, 2, None)),
            fill(8, 128, 1, (1, 1, Some(1))),
            fill(4, 513, 2, (8, 1, Some(2))),
            give(4, 2_000, 1, (16, 0, Some(3))),
            give(5, 16, 2, (27, 0, None)),
            fill(3, 65, 2, (2, 2, Some(4))),
            fill(4, 129, 2, (26, 0, None)),
            Step::Words([(131_072, 11), (18_264, 61), (23_048, 53)]),
        ],
    )?;
    // Frees 199 to 22, 19 to 42 and 39 to 152. The block goes first, and no slab; then all frames are free.
    play(
        &rt,
        &mut desk,
        &[
            free(60, 199),
            slab(32, true),
            Step::Words([(131_072, 11), (9_328, 40), (4_424, 30)]),
            free(60, 19),
            slab(32, false),
            slab(1, true),
            Step::Words([(86_016, 7), (2_568, 21), (1_152, 6)]),
            refuse(131_073, ObjError::NoFrames),
            free(30, 39),
            slab(0, false),
            Step::Words([(0, 0), (0, 0), (0, 0)]),
            give(1, 131_073, 1, (0, 6, None)),
        ],
    )
}
