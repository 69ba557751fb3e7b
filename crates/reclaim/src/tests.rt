mod plant;
mod race;
mod splits;
mod stage;
mod tie;
mod yard;

use self::stage::new_stage;
use self::tie::tie;
use self::yard::{finish, new_yard, work_beside};
use crate::{NotLoaded, Reclaim, UnloadError};
use module_area::{AreaError, Entry, State};
use std::test::Fail;
use tag_model::{Kind, Stop};

// A module is kept while a reference names its tag, and goes once the reference is freed.
#[test]
fn module_script(rt: HostRuntime) -> Result<(), Fail> {
    let mut stage = new_stage(rt.alloc())?.expect(&rt, "CPUs and cells");
    let id = stage.load(1)?;
    let tag = stage.open(id, 64).expect(&rt, "a loaded module");
    assert_eq!(rt; stage.unload(id), Err(UnloadError::Busy(1)));
    assert!(rt; stage.leave(id));
    let kept = Reclaim::Kept {
        tag: tag.number,
        kind: Kind::Bytes,
        sum: 64,
    };
    assert_eq!(rt; stage.unload(id), Ok(kept));
    assert_eq!(rt; stage.clean(), 0);
    assert_eq!(rt;
        stage.text(rt.alloc())?.as_slice(),
        b"m/x.c:5 [ext] func:fx".as_slice()
    );
    assert!(rt; stage.close());
    assert_eq!(rt; stage.clean(), 1);
    assert_eq!(rt; stage.load(0), Err(AreaError::NoSection));
    assert_eq!(rt; stage.enter(id), Some(Err(NotLoaded)));
    Ok(())
}

// A cell tells the text of the kernel's tag under which it was counted.
#[test]
fn tag_text_of_cell(rt: HostRuntime) -> Result<(), Fail> {
    let mut stage = new_stage(rt.alloc())?.expect(&rt, "CPUs and cells");
    assert_eq!(rt; stage.text(rt.alloc())?.as_slice(), b"".as_slice());
    assert!(rt; stage.open_kernel());
    assert_eq!(rt;
        stage.text(rt.alloc())?.as_slice(),
        b"mm/a.c:10 func:fa".as_slice()
    );
    Ok(())
}

// Between two reads of an unload's sweep a split adds a call on the CPU that was read, and a free takes one on the other.
// The calls read so would add up to 0; the bytes don't, and the range is kept as long as the other half lives.
#[test]
fn split_race_by_calls(rt: HostRuntime) -> Result<(), Fail> {
    let mut stage = new_stage(rt.alloc())?.expect(&rt, "CPUs and cells");
    let id = stage.load(1)?;
    let tag = stage.open(id, 8_192).expect(&rt, "a loaded module");
    assert!(rt; stage.leave(id));
    let stop = Stop {
        id,
        tag: tag.number,
        kind: Kind::Bytes,
        sum: 4_096,
    };
    assert_eq!(rt; stage.unload_around(id), Some(stop));
    assert_eq!(rt; stage.clean(), 0);
    assert!(rt; stage.close());
    assert_eq!(rt; stage.clean(), 1);
    Ok(())
}

// Under the lock anything may have been done to the list. The CPU that is inside the module tells that it is still loaded.
#[test]
fn tie_after_the_lock(rt: HostRuntime) -> Result<(), Fail> {
    let mut stage = new_stage(rt.alloc())?.expect(&rt, "CPUs and cells");
    let id = stage.load(1)?;
    assert!(rt; stage.enter_other(id));
    let entry = Entry {
        id: 1,
        section: 1,
        start: 1,
        length: 1,
        state: State::Loaded,
        users: 1,
    };
    assert_eq!(rt; tie(&rt, stage, id), Some((entry, 0)));
    Ok(())
}

// Two threads split and free what is counted under a dead module, while this one cleans. No cleaning releases the module as
// long as its last reference lives; then one does, by the words of all CPUs.
#[test]
fn cleaned_beside_frees(rt: HostRuntime) -> Result<(), Fail> {
    let (yard, answer) = new_yard(rt.alloc())?.expect(&rt, "CPUs and cells");
    let kept = Reclaim::Kept {
        tag: 1,
        kind: Kind::Bytes,
        sum: 403 * 8_192,
    };
    assert_eq!(rt; answer, kept);
    let (yard, gone) = work_beside(&rt, yard);
    assert_eq!(rt; gone, 0);
    assert_eq!(rt; finish(yard), Some(1));
    Ok(())
}
