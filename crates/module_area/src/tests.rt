ghost use Rattle.std.specs.Prelude.{◌<◌, ◌≤◌, All};

use crate::{AreaError, Book, Entry, State};
use std::process::Abort;
use std::test::Fail;

// Threads may move and share the value.
fn crosses<T: Send + Sync>(_value: &T) {}

// Each id of the book is below this one.
fn assert_above(rt: &impl Abort, book: &Book, id: u32)
    ensures { All (λ entry. entry.id < id) book.now.entries }
{
    for place in 0..book.count() {
        let entry = book.at(place);
        assert!(rt; entry.id < id);
    }
}

fn reserve(
    rt: &impl Abort,
    book: &mut Book,
    id: u32,
    section: u32,
    length: u32,
) -> Result<u32, AreaError> {
    assert!(rt; 0 < id);
    assert!(rt; 1 <= length);
    assert_above(rt, book, id);
    book.reserve(id, section, length)
}

fn enter(rt: &impl Abort, book: &mut Book, id: u32) {
    match book.get(id) {
        Some(
            Entry {
                state: State::Loaded,
                users,
                ..
            },
        ) if users < 64 => book.enter(id),
        _ => panic!(rt; "not loaded"),
    }
}

fn leave(rt: &impl Abort, book: &mut Book, id: u32) {
    match book.get(id) {
        Some(Entry { users: 1.., .. }) => book.leave(id),
        _ => panic!(rt; "no users"),
    }
}

fn set_dead(rt: &impl Abort, book: &mut Book, id: u32) {
    match book.get(id) {
        Some(
            Entry {
                state: State::Loaded,
                users: 0,
                ..
            },
        ) => book.set_dead(id),
        _ => panic!(rt; "not idle"),
    }
}

fn release(rt: &impl Abort, book: &mut Book, id: u32) {
    match book.get(id) {
        Some(
            Entry {
                state: State::Dead,
                ..
            },
        ) => book.release(id),
        _ => panic!(rt; "not dead"),
    }
}

// Two modules are loaded; the first is entered, left, unloaded and released, and its range is given again.
#[test]
fn reuses_the_lowest_start(rt: HostRuntime) -> Result<(), Fail> {
    let mut book = Book::new(rt.alloc(), 128, 20)?;
    crosses(&book);
    assert_eq!(rt; reserve(&rt, &mut book, 1, 7, 6)?, 128);
    assert_eq!(rt; reserve(&rt, &mut book, 2, 8, 6)?, 134);
    assert_eq!(rt; reserve(&rt, &mut book, 3, 7, 1), Err(AreaError::SameName));
    assert_eq!(rt; book.covering(127), None);
    assert_eq!(rt; book.covering(133), Some(1));
    assert_eq!(rt; book.covering(134), Some(2));
    assert_eq!(rt; book.covering(140), None);

    enter(&rt, &mut book, 1);
    assert_eq!(rt; book.get(1).map(|entry| entry.users), Some(1));
    leave(&rt, &mut book, 1);
    set_dead(&rt, &mut book, 1);
    assert_eq!(rt; book.loaded(7), None);
    assert_eq!(rt; book.loaded(8), Some(2));

    // The kept range bars a load, but its section may be loaded anew.
    assert_eq!(rt; reserve(&rt, &mut book, 3, 9, 9), Err(AreaError::NoRoom));
    assert_eq!(rt; reserve(&rt, &mut book, 3, 7, 4)?, 140);
    release(&rt, &mut book, 1);
    assert_eq!(rt; book.get(1), None);
    assert_eq!(rt; reserve(&rt, &mut book, 4, 9, 7), Err(AreaError::NoRoom));
    assert_eq!(rt; reserve(&rt, &mut book, 4, 9, 5)?, 128);
    assert_eq!(rt; reserve(&rt, &mut book, 5, 10, 1)?, 133);
    assert_eq!(rt; book.count(), 4);
    assert_eq!(rt;
        book.get(5),
        Some(Entry {
            id: 5,
            section: 10,
            start: 133,
            length: 1,
            state: State::Loaded,
            users: 0,
        })
    );
    Ok(())
}

// The area grows where it is set to; the book takes 64 entries.
#[test]
fn takes_64_entries(rt: HostRuntime) -> Result<(), Fail> {
    let mut book = Book::new(rt.alloc(), 128, 0)?;
    book.resize(64);
    for id in 1..=64u32 {
        assert_eq!(rt; reserve(&rt, &mut book, id, id, 1)?, 127 + id);
    }
    assert_eq!(rt; reserve(&rt, &mut book, 65, 1, 1), Err(AreaError::SameName));
    assert_eq!(rt;
        reserve(&rt, &mut book, 65, 65, 1),
        Err(AreaError::BookFull)
    );
    set_dead(&rt, &mut book, 64);
    assert_eq!(rt;
        reserve(&rt, &mut book, 65, 64, 1),
        Err(AreaError::BookFull)
    );
    release(&rt, &mut book, 64);
    assert_eq!(rt; reserve(&rt, &mut book, 65, 65, 2), Err(AreaError::NoRoom));
    assert_eq!(rt; reserve(&rt, &mut book, 65, 65, 1)?, 191);
    Ok(())
}
