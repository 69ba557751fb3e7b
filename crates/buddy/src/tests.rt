ghost use Rattle.std.specs.Prelude.{ℕ, ◌≡◌, ◌+◌, ◌%◌, ◌^◌, ◌<◌, ◌≤◌, true, Some, slice_get};
ghost use Rattle.buddy.specs.Frames.{AllAre};

use crate::Zone;
use std::alloc::Global;
use std::process::Abort;
use std::test::Fail;

// Threads may move and share the value.
fn crosses<T: Send + Sync>(_value: &T) {}

#[derive(Clone, Copy)]
enum Step {
    Take { order: u32, start: Option<u32> },
    Give { frame: u32, order: u32 },
}

fn give(rt: &impl Abort, zone: &mut Zone, frame: u32, order: u32) {
    assert!(rt; order <= 10);
    assert!(rt; frame <= 1024);
    let count = 1u32 << order;
    assert!(rt; frame % count == 0);
    assert_taken(rt, zone, frame, count);
    zone.give(frame, order);
}

fn assert_taken(rt: &impl Abort, zone: &Zone, start: u32, count: u32)
    requires { start + count < 2 ^ 32 }
    ensures { (frame : ℕ) → start ≤ frame → frame < start + count → slice_get zone.now frame ≡ Some true }
{
    for frame in start..start + count {
        assert!(rt; zone.is_taken(frame));
    }
}

// Takes and gives, each take with the start that it has to give.
fn walk(rt: &impl Abort, zone: &mut Zone, steps: &[Step]) {
    for step in steps {
        match step {
            Step::Take { order, start } => {
                assert!(rt; *order <= 10);
                assert_eq!(rt; zone.take(*order), *start);
            }
            Step::Give { frame, order } => give(rt, zone, *frame, *order),
        }
    }
}

const fn took(order: u32, start: u32) -> Step {
    Step::Take {
        order,
        start: Some(start),
    }
}

const fn none(order: u32) -> Step {
    Step::Take { order, start: None }
}

const fn gave(frame: u32, order: u32) -> Step {
    Step::Give { frame, order }
}

#[test]
fn zone_of_eight(rt: HostRuntime) -> Result<(), Fail> {
    let mut zone = Zone::new(rt.alloc(), 8)?;
    crosses(&zone);
    walk(
        &rt,
        &mut zone,
        &[took(1, 0), took(0, 2), took(2, 4), none(1)],
    );
    assert_eq!(rt; zone.free_frames(), 1);
    walk(&rt, &mut zone, &[gave(0, 1), took(1, 0)]);
    Ok(())
}

// Steps, and the frames after them: `x` is taken, `.` is free.
fn assert_frames(
    rt: &impl Abort,
    alloc: Global,
    frames: u32,
    steps: &[Step],
    after: &str,
) -> Result<(), Fail>
    requires { frames ≤ 1024 }
{
    let mut zone = Zone::new(alloc, frames)?;
    walk(rt, &mut zone, steps);
    for frame in 0..frames {
        let shown = after.as_bytes().get(frame as usize).copied();
        assert_eq!(rt;
            zone.is_taken(frame),
            shown == Some(b'x'),
            "frame {frame} of {after}"
        );
    }
    Ok(())
}

// Steps, and how many frames are free after them.
fn assert_free(
    rt: &impl Abort,
    alloc: Global,
    frames: u32,
    steps: &[Step],
    free: u32,
) -> Result<(), Fail>
    requires { frames ≤ 1024 }
{
    let mut zone = Zone::new(alloc, frames)?;
    walk(rt, &mut zone, steps);
    assert_eq!(rt; zone.free_frames(), free, "of {frames}");
    Ok(())
}

#[test]
fn no_frame_or_one(rt: HostRuntime) -> Result<(), Fail> {
    assert_frames(&rt, rt.alloc(), 0, &[none(0)], "")?;
    assert_frames(&rt, rt.alloc(), 1, &[none(1), took(0, 0), none(0)], "x")
}

#[test]
fn frames_past_the_last_block(rt: HostRuntime) -> Result<(), Fail> {
    let six = [took(2, 0), none(2), took(1, 4), none(0)];
    let seven = [
        took(0, 0),
        took(1, 2),
        took(0, 1),
        took(0, 4),
        none(2),
        none(1),
    ];
    assert_frames(&rt, rt.alloc(), 6, &six, "xxxxxx")?;
    assert_frames(&rt, rt.alloc(), 7, &seven, "xxxxx..")
}

#[test]
fn gaps_are_filled_where_a_block_fits(rt: HostRuntime) -> Result<(), Fail> {
    let eight = [
        took(0, 0),
        took(2, 4),
        took(1, 2),
        gave(4, 1),
        took(0, 1),
        took(1, 4),
    ];
    let sixteen = [
        took(0, 0),
        took(3, 8),
        took(2, 4),
        none(2),
        gave(12, 2),
        took(2, 12),
        took(1, 2),
    ];
    assert_frames(&rt, rt.alloc(), 8, &eight, "xxxxxxxx")?;
    assert_frames(&rt, rt.alloc(), 16, &sixteen, "x.xxxxxxxxxxxxxx")
}

#[test]
fn free_frames_of_two_blocks_are_none(rt: HostRuntime) -> Result<(), Fail> {
    let given_in_parts = [
        took(3, 0),
        gave(2, 1),
        gave(6, 0),
        none(2),
        took(1, 2),
        gave(0, 0),
    ];
    let taken_in_parts = [
        took(1, 0),
        took(1, 2),
        took(1, 4),
        gave(2, 1),
        took(0, 2),
        gave(0, 1),
        none(2),
    ];
    assert_frames(&rt, rt.alloc(), 8, &given_in_parts, ".xxxxx.x")?;
    assert_frames(&rt, rt.alloc(), 8, &taken_in_parts, "..x.xx..")
}

#[test]
fn runs_of_a_word(rt: HostRuntime) -> Result<(), Fail> {
    let whole = [took(6, 0), none(0), gave(32, 5), took(5, 32)];
    let and_a_part = [took(6, 0), none(6), took(5, 64), took(2, 96), none(0)];
    let behind_a_part = [
        took(0, 0),
        took(6, 64),
        none(6),
        took(0, 1),
        took(5, 32),
        took(1, 2),
        took(1, 4),
    ];
    assert_free(&rt, rt.alloc(), 64, &whole, 0)?;
    assert_free(&rt, rt.alloc(), 100, &and_a_part, 0)?;
    assert_free(&rt, rt.alloc(), 130, &behind_a_part, 28)
}

#[test]
fn runs_of_several_words(rt: HostRuntime) -> Result<(), Fail> {
    let one_given_between = [
        took(6, 0),
        took(6, 64),
        took(6, 128),
        none(6),
        took(3, 192),
        none(0),
        gave(64, 6),
        none(7),
    ];
    let two_given = [
        took(0, 0),
        took(7, 128),
        took(6, 64),
        took(6, 256),
        gave(128, 7),
        took(6, 128),
        took(6, 192),
    ];
    assert_free(&rt, rt.alloc(), 200, &one_given_between, 64)?;
    assert_free(&rt, rt.alloc(), 320, &two_given, 63)
}

#[test]
fn the_largest_runs(rt: HostRuntime) -> Result<(), Fail> {
    let all_frames = [
        took(10, 0),
        none(0),
        gave(512, 9),
        took(9, 512),
        gave(0, 10),
        took(8, 0),
        took(9, 512),
    ];
    let one_frame_less = [
        none(10),
        took(9, 0),
        took(8, 512),
        none(9),
        none(8),
        took(7, 768),
        took(6, 896),
        took(0, 960),
    ];
    assert_free(&rt, rt.alloc(), 1024, &all_frames, 256)?;
    assert_free(&rt, rt.alloc(), 1023, &one_frame_less, 62)
}
