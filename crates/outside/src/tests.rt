use super::*;
use std::alloc::Global;
use std::io;
use std::io::{ErrorKind, Read, Write};
use std::process::Abort;
use std::test::Fail;

const TEXT: &[u8] = b"abcdefghij";

fn is_text(bytes: &[u8], text: &[u8]) -> bool {
    bytes == text
}

fn source(alloc: Global, failing: &[u64]) -> Result<MemSource, Fail> {
    let bytes = TEXT.to_vec(alloc)?;
    let calls = failing.to_vec(alloc)?;
    Ok(MemSource::new(bytes, calls, 3))
}

#[test]
fn reads_whole(rt: HostRuntime) -> Result<(), Fail> {
    let mut all = source(rt.alloc(), &[])?;
    let bytes = read_all(rt.alloc(), &mut all, 10).expect(&rt, "ten bytes fit");
    assert!(rt; is_text(&bytes, TEXT));
    Ok(())
}

// The source has ten bytes, of which each call gives three: so call 4 tells the end, and there is no
// call 5. What was taken before the fault stays taken.
#[test]
fn each_read_fails(rt: HostRuntime) -> Result<(), Fail> {
    for (call, rest) in [
        (0, "abcdefghij"),
        (1, "defghij"),
        (2, "ghij"),
        (3, "j"),
        (4, ""),
    ] {
        let mut broken = source(rt.alloc(), &[call])?;
        let first = read_all(rt.alloc(), &mut broken, 10);
        assert!(rt; matches!(first, Err(ReadError::Failed)), "call {call}");
        let bytes = read_all(rt.alloc(), &mut broken, 10).expect(&rt, "the next calls succeed");
        assert!(rt; is_text(&bytes, rest.as_bytes()), "call {call}");
    }
    let mut spared = source(rt.alloc(), &[5])?;
    assert!(rt; read_all(rt.alloc(), &mut spared, 10).is_ok());
    Ok(())
}

#[test]
fn one_byte_too_many(rt: HostRuntime) -> Result<(), Fail> {
    let mut long = source(rt.alloc(), &[])?;
    let refused = read_all(rt.alloc(), &mut long, 6);
    assert!(rt; matches!(refused, Err(ReadError::TooLong)));
    let bytes = read_all(rt.alloc(), &mut long, 3).expect(&rt, "seven were taken");
    assert!(rt; is_text(&bytes, b"hij"));
    let at_end = read_all(rt.alloc(), &mut long, 0).expect(&rt, "none are left");
    assert!(rt; at_end.is_empty());
    Ok(())
}

fn sent(
    rt: &impl Abort,
    alloc: Global,
    room: usize,
    failing: &[u64],
) -> Result<(bool, usize), Fail> {
    let calls = failing.to_vec(alloc)?;
    let mut sink = MemSink::new(alloc, room, calls, 3)?;
    let whole = write_all(&mut sink, TEXT).is_ok();
    let taken = sink.taken();
    assert!(rt; TEXT.starts_with(taken));
    Ok((whole, taken.len()))
}

#[test]
fn writes_a_prefix(rt: HostRuntime) -> Result<(), Fail> {
    for (call, count) in [(0, 0), (1, 3), (2, 6), (3, 9)] {
        assert_eq!(rt; sent(&rt, rt.alloc(), 20, &[call])?, (false, count));
    }
    assert_eq!(rt; sent(&rt, rt.alloc(), 20, &[4])?, (true, 10));
    assert_eq!(rt; sent(&rt, rt.alloc(), 10, &[])?, (true, 10));
    assert_eq!(rt; sent(&rt, rt.alloc(), 5, &[])?, (false, 5));
    assert_eq!(rt; sent(&rt, rt.alloc(), 0, &[])?, (false, 0));
    Ok(())
}

// Fails at its first call, and reads and writes at those after it.
#[derive(Drop)]
struct Startled {
    calls: u32,
}

impl Startled {
    fn is_first_call(&mut self) -> bool {
        self.calls = self.calls.saturating_add(1);
        self.calls == 1
    }
}

impl Read for Startled {
    fn read(&mut self, buf: &mut [u8]) -> io::Result<usize> {
        if self.is_first_call() {
            return Err(io::Error::from(ErrorKind::Interrupted));
        }
        match (self.calls, buf) {
            (2, [first, ..]) => {
                *first = b'a';
                Ok(1)
            }
            _ => Ok(0),
        }
    }
}

impl Write for Startled {
    fn write(&mut self, buf: &[u8]) -> io::Result<usize> {
        if self.is_first_call() {
            return Err(io::Error::from(ErrorKind::Interrupted));
        }
        Ok(buf.len())
    }

    fn flush(&mut self) -> io::Result<()> {
        Ok(())
    }
}

// A fault is handed on, though the same call would succeed if it were made again.
#[test]
fn no_call_is_made_again(rt: HostRuntime) -> Result<(), Fail> {
    let mut source = StdSource::new(Startled { calls: 0 });
    let first = read_all(rt.alloc(), &mut source, 10);
    assert!(rt; matches!(first, Err(ReadError::Failed)));
    let bytes = read_all(rt.alloc(), &mut source, 10).expect(&rt, "the next calls succeed");
    assert!(rt; is_text(&bytes, b"a"));

    let mut sink = StdSink::new(Startled { calls: 0 });
    assert!(rt; write_all(&mut sink, TEXT).is_err());
    assert!(rt; write_all(&mut sink, TEXT).is_ok());
    Ok(())
}

#[test]
fn reads_from_std(rt: HostRuntime) -> Result<(), Fail> {
    let mut whole = StdSource::new(TEXT);
    let bytes = read_all(rt.alloc(), &mut whole, 10).expect(&rt, "ten bytes fit");
    assert!(rt; is_text(&bytes, TEXT));
    Ok(())
}

#[test]
fn writes_to_std(rt: HostRuntime) -> Result<(), Fail> {
    let mut taken = [0u8; 12];
    let mut whole = StdSink::new(&mut taken[..]);
    assert!(rt; write_all(&mut whole, TEXT).is_ok());
    // Two bytes fit into what is left, and then the writer takes none.
    assert!(rt; write_all(&mut whole, b"klm").is_err());
    drop(whole);
    assert!(rt; is_text(&taken, b"abcdefghijkl"));
    Ok(())
}
