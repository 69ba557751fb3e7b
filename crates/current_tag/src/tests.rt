ghost use Rattle.std.specs.Prelude.{◌≡◌};
ghost use Rattle.current_tag.specs.Hooks.{hooked, kept_of};

use crate::Task;
use std::test::Fail;
use tag_model::Tag;

// Threads may move and share the value.
fn crosses<T: Send + Sync>(_value: &T) {}

const fn kernel(number: u32) -> Tag
    ensures { result ≡ record { number = number; «module» = 0 } }
{
    Tag { number, module: 0 }
}

// Two hooks, one in the other.
#[test]
fn save_and_restore(rt: HostRuntime) {
    let mut task = Task::new();
    crosses(&task);
    assert_eq!(rt; (task.current(), task.depth()), (None, 0));
    let outer = task.save(kernel(1));
    crosses(&outer);
    let inner = task.save(kernel(2));
    assert_eq!(rt; (task.current(), task.depth()), (Some(kernel(2)), 2));
    assert_eq!(rt; (outer.depth(), inner.depth()), (1, 2));
    task.restore(inner);
    assert_eq!(rt; (task.current(), task.depth()), (Some(kernel(1)), 1));
    task.restore(outer);
    assert_eq!(rt; (task.current(), task.depth()), (None, 0));
}

// What a function answers is told of the tags under which it ran.
#[test]
fn nested_with_tag(rt: HostRuntime) {
    let mut task = Task::new();
    let seen = task.with_tag(kernel(1), |outer| {
        let inside = outer.with_tag(kernel(2), |inner| (inner.current(), inner.depth()));
        (inside, outer.current(), outer.depth())
    });
    assert_eq!(rt; seen, ((Some(kernel(2)), 2), Some(kernel(1)), 1));
    assert_eq!(rt; (task.current(), task.depth()), (None, 0));
}
