//! Two modules, one of which is unloaded and swept.

use crate::list::RecordList;
use std::process::Abort;
use std::test::Fail;
use tag_model::{Kind, Reader, Record};

// Threads may move and share the value.
fn crosses<T: Send + Sync>(_value: &T) {}

fn assert_marked(rt: &impl Abort, list: &mut RecordList, id: u32) {
    match list.get(id) {
        Some(_record) => list.mark_dead(id),
        None => panic!(rt; "no record"),
    }
}

// What a sweep reads first, and what is kept of the records.
#[test]
fn lists(rt: HostRuntime) -> Result<(), Fail> {
    let mut list = RecordList::new(rt.alloc())?;
    crosses(&list);
    assert_eq!(rt; list.reader(), None);
    list.sweep();
    assert_eq!(rt; list.reader(), None);
    list.load(3, 7, 128, 4);
    assert_eq!(rt;
        list.get(3),
        Some(Record {
            id: 3,
            section: 7,
            start: 128,
            length: 4,
            dead: false,
            users: 0,
        })
    );
    assert_eq!(rt; list.get(4), None);
    assert_marked(&rt, &mut list, 3);
    assert_eq!(rt;
        list.reader(),
        Some(Reader {
            pass: Kind::Bytes,
            id: 3,
            tag: 128,
            cpu: 0,
            sum: 0,
        })
    );
    assert_eq!(rt; list.releasable(), None);
    assert_eq!(rt; list.stops().len(), 0);
    assert_eq!(rt; list.records().len(), 1);
    Ok(())
}
