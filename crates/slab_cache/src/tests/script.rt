//! Scripts of objects that are given and freed, each step with what it must come to.

ghost use Rattle.std.specs.Prelude.{◌≡◌};

use super::desk::Desk;
use crate::ObjError;
use std::process::Abort;
use std::test::Fail;

/// Objects are numbered in the order in which they are given.
#[derive(Clone, Copy)]
pub enum Step {
    /// So many objects of the size under a tag of the kernel's, the first at a place and each further one so many places on.
    Give {
        count: u8,
        size: u64,
        tag: u32,
        first: (u32, u8, Option<u32>),
        apart: u8,
    },
    Refuse {
        size: u64,
        error: ObjError,
    },
    /// So many objects, the first with its number, and each further one three numbers below, from 0 round by 199.
    Free {
        count: u8,
        first: u8,
    },
    /// The bytes and calls of each tag.
    Words([(u64, u64); 3]),
    /// Whether a slab begins at a frame.
    Slab {
        frame: u32,
        there: bool,
    },
}

/// Numbers are counted round at this many objects.
const ROUND: u32 = 200;

pub fn play(rt: &impl Abort, desk: &mut Desk, steps: &[Step]) -> Result<(), Fail>
    ensures { desk.new ≡ desk.old }
{
    for step in steps {
        match step {
            Step::Give {
                count,
                size,
                tag,
                first,
                apart,
            } => give_all(rt, desk, *count, *size, *tag, *first, *apart)?,
            Step::Refuse { size, error } => {
                assert_eq!(rt; desk.ask(Some(1), *size).err(), Some(*error));
            }
            Step::Free { count, first } => free_all(rt, desk, *count, *first),
            Step::Words(words) => assert_eq!(rt; desk.words(), Some(*words)),
            Step::Slab { frame, there } => {
                assert_eq!(rt; desk.slab(*frame).is_some(), *there, "at {frame}");
            }
        }
    }
    Ok(())
}

fn give_all(
    rt: &impl Abort,
    desk: &mut Desk,
    count: u8,
    size: u64,
    tag: u32,
    first: (u32, u8, Option<u32>),
    apart: u8,
) -> Result<(), Fail>
    ensures { desk.new ≡ desk.old }
{
    let (frame, place, vector) = first;
    for index in 0..count {
        let place = u32::from(place) + u32::from(index) * u32::from(apart);
        assert_eq!(rt;
            desk.give(Some(tag), size)?,
            (frame, place, vector),
            "of {size}, {index}"
        );
    }
    Ok(())
}

fn free_all(rt: &impl Abort, desk: &mut Desk, count: u8, first: u8)
    ensures { desk.new ≡ desk.old }
{
    for index in 0..count {
        let number = (u32::from(first) + u32::from(index) * (ROUND - 3)) % ROUND;
        assert!(rt; desk.free_number(number as usize), "number {number}");
    }
}
