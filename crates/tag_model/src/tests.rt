use crate::index::{byte_word, call_word, obj_cell, page_cell};
use crate::ref_word::{Ref, RefWord};
use crate::shape::{Shape, ShapeError};

fn shape(cpus: u32, tags: u32, kernel_tags: u32, frames: u32, vectors: u32) -> Shape {
    Shape {
        cpus,
        tags,
        kernel_tags,
        frames,
        vectors,
    }
}

#[test]
fn shapes_at_their_limits(rt: HostRuntime) {
    for least in [shape(1, 1, 1, 0, 0), shape(64, 1_024, 128, 1_024, 64)] {
        assert_eq!(rt; least.check(), Ok(least));
    }
}

// The first check that fails is the answer, even where a later one would fail too.
#[test]
fn shapes_that_are_refused(rt: HostRuntime) {
    for (refused, why) in [
        (shape(0, 0, 0, 1_025, 65), ShapeError::NoCpu),
        (shape(65, 0, 0, 0, 0), ShapeError::TooManyCpus),
        (shape(1, 1_025, 0, 0, 0), ShapeError::NoKernelTag),
        (shape(1, 1_025, 1, 0, 0), ShapeError::TooManyTags),
        (shape(1, 1, 2, 0, 0), ShapeError::TooManyTags),
        (shape(1, 1, 1, 1_025, 65), ShapeError::TooManyFrames),
        (shape(1, 1, 1, 0, 65), ShapeError::TooManyVectors),
    ] {
        assert_eq!(rt; refused.check(), Err(why));
    }
}

#[test]
fn words_of_references(rt: HostRuntime) {
    let packed = RefWord::pack(128, 4_096).word();
    assert_eq!(rt; packed, 4_294_967_426);
    assert_eq!(rt; packed.to_be_bytes(), [0, 0, 0, 1, 0, 0, 0, 0x82]);
    for (word, says) in [
        (0, Some(Ref::None)),
        (1, Some(Ref::Empty)),
        (2, None),
        (
            4_294_967_426,
            Some(Ref::Counted {
                number: 128,
                size: 4_096,
            }),
        ),
    ] {
        assert_eq!(rt; RefWord::from_word(word).map(|found| found.read()), says);
    }
    assert_eq!(rt; RefWord::none().word(), 0);
    assert_eq!(rt; RefWord::empty().word(), 1);
}

#[test]
fn words_of_a_shape(rt: HostRuntime) {
    let program = Shape::program();
    assert_eq!(rt; program.words(), 458_753);
    assert_eq!(rt; byte_word(program, 1, 0), 2_049);
    assert_eq!(rt; call_word(program, 63, 1_023), 131_072);
    assert_eq!(rt; page_cell(program, 63, 1_023), 196_608);
    assert_eq!(rt; obj_cell(program, 63, 63, 63), 458_752);
}
