//! Modules that are loaded, unloaded and swept.

ghost use Rattle.std.specs.Prelude.{◌≡◌, ◌+◌, ◌≤◌, IsTrue, Some};
ghost use Rattle.module_area.specs.Entries.{entry_of};
ghost use Rattle.module_area.specs.declared.entry.State.TheVariants as state;
ghost use Rattle.core_list.specs.ListState.{records_of};
ghost use Rattle.tag_model.specs.Laws.{sweep_fits};
ghost use Rattle.tag_model.specs.Shape.{IsChecked};

use crate::list::{CoreList, Next};
use module_area::{AreaError, Entry, State};
use std::process::Abort;
use std::test::Fail;
use tag_model::{Kind, Reader, Shape, Stop};

const FIRST: u32 = 128;

const TAGS: u32 = 20;

// Threads may move and share the value.
fn crosses<T: Send + Sync>(_value: &T) {}

// Two CPUs, and the area's tags behind those of the kernel.
fn shape() -> Shape
    ensures checked { IsChecked result }
    ensures kernel { result.kernel_tags ≡ FIRST }
    ensures tags { result.tags ≡ FIRST + TAGS }
{
    Shape {
        cpus: 2,
        tags: FIRST + TAGS,
        kernel_tags: FIRST,
        frames: 0,
        vectors: 0,
    }
}

fn load(rt: &impl Abort, list: &mut CoreList, section: u32, length: u32) -> Result<(), AreaError>
    ensures first { list.new.area.first ≡ list.old.area.first }
    ensures tags { list.new.area.tags ≡ list.old.area.tags }
{
    assert!(rt; 1 <= length);
    list.load(section, length)
}

// The entry of the id, which is loaded.
fn loaded(rt: &impl Abort, list: &CoreList, id: u32) -> Entry
    ensures entry { entry_of list.now.area.entries id ≡ Some result }
    ensures state { result.state ≡ state.Loaded }
{
    match list.book().get(id) {
        Some(entry) if entry.state == State::Loaded => entry,
        _ => panic!(rt; "not loaded"),
    }
}

// A CPU comes into the module and goes out of it again.
fn visit(rt: &impl Abort, list: &mut CoreList, id: u32)
    ensures first { list.new.area.first ≡ list.old.area.first }
    ensures tags { list.new.area.tags ≡ list.old.area.tags }
{
    let entry = loaded(rt, list, id);
    assert!(rt; entry.users < 64);
    list.enter(id);
    match list.book().get(id) {
        Some(Entry { users: 1.., .. }) => list.leave(id),
        _ => panic!(rt; "no users"),
    }
}

fn unload(rt: &impl Abort, list: &mut CoreList, id: u32)
    ensures first { list.new.area.first ≡ list.old.area.first }
    ensures tags { list.new.area.tags ≡ list.old.area.tags }
{
    let entry = loaded(rt, list, id);
    assert!(rt; entry.users == 0);
    list.mark_dead(id);
}

// All dead modules are swept: words that are read, with the stop that each gives, and what is next. Where that is a
// release, it comes as well.
fn sweep(rt: &impl Abort, list: &mut CoreList, reads: &[(u64, Option<Stop>, Next)])
    requires first { list.old.area.first ≡ FIRST }
    requires tags { list.old.area.tags ≡ TAGS }
{
    let shape = shape();
    assert!(rt; list.book().count() != 0);
    list.sweep();
    for (word, stop, next) in reads {
        assert_eq!(rt; list.scan(shape, *word), *stop);
        assert_eq!(rt; list.next(), *next);
    }
    list.release();
}

fn at(pass: Kind, id: u32, tag: u32, cpu: u32, sum: u64) -> Next {
    Next::Read(Reader {
        pass,
        id,
        tag,
        cpu,
        sum,
    })
}

// Both words of both tags of a module are read on both CPUs, and then it is released: its range is free, its id isn't
// given again.
#[test]
fn a_dead_module_is_read_twice_and_released(rt: HostRuntime) -> Result<(), Fail> {
    let mut list = CoreList::new(rt.alloc(), FIRST, TAGS)?;
    crosses(&list);
    assert_eq!(rt; load(&rt, &mut list, 7, 2), Ok(()));
    assert_eq!(rt; load(&rt, &mut list, 8, 18), Ok(()));
    assert_eq!(rt; load(&rt, &mut list, 7, 1), Err(AreaError::SameName));
    visit(&rt, &mut list, 1);
    unload(&rt, &mut list, 1);
    assert_eq!(rt; list.next(), at(Kind::Bytes, 1, 128, 0, 0));
    assert_eq!(rt; load(&rt, &mut list, 7, 1), Err(AreaError::NoRoom));
    sweep(
        &rt,
        &mut list,
        &[
            (0, None, at(Kind::Bytes, 1, 128, 1, 0)),
            (0, None, at(Kind::Bytes, 1, 129, 0, 0)),
            (0, None, at(Kind::Bytes, 1, 129, 1, 0)),
            (0, None, at(Kind::Calls, 1, 128, 0, 0)),
            (0, None, at(Kind::Calls, 1, 128, 1, 0)),
            (0, None, at(Kind::Calls, 1, 129, 0, 0)),
            (0, None, at(Kind::Calls, 1, 129, 1, 0)),
            (0, None, Next::Release(1)),
        ],
    );
    assert_eq!(rt; list.next(), Next::Nothing);
    assert_eq!(rt; list.book().get(1), None);
    assert_eq!(rt; load(&rt, &mut list, 9, 2), Ok(()));
    assert_eq!(rt; list.book().covering(128), Some(3));
    Ok(())
}

// Words that make up 2 to the 64 are no stop. A module with a stop is kept, and isn't read again.
#[test]
fn a_module_that_is_counted_is_kept(rt: HostRuntime) -> Result<(), Fail> {
    let mut list = CoreList::new(rt.alloc(), FIRST, TAGS)?;
    assert_eq!(rt; load(&rt, &mut list, 7, 1), Ok(()));
    assert_eq!(rt; load(&rt, &mut list, 8, 2), Ok(()));
    unload(&rt, &mut list, 2);
    unload(&rt, &mut list, 1);
    let stop = Stop {
        id: 2,
        tag: 129,
        kind: Kind::Bytes,
        sum: 5,
    };
    sweep(
        &rt,
        &mut list,
        &[
            (u64::MAX, None, at(Kind::Bytes, 1, 128, 1, u64::MAX)),
            (1, None, at(Kind::Bytes, 2, 129, 0, 0)),
            (5, None, at(Kind::Bytes, 2, 129, 1, 5)),
            (0, Some(stop), at(Kind::Calls, 1, 128, 0, 0)),
            (0, None, at(Kind::Calls, 1, 128, 1, 0)),
            (0, None, Next::Release(1)),
        ],
    );
    assert_eq!(rt; list.next(), Next::Nothing);
    assert_eq!(rt; list.book().count(), 1);
    assert_eq!(rt; list.book().loaded(8), None);
    Ok(())
}
