use super::*;
use outside::{MemSink, MemSource};
use std::test::Fail;

fn served<R: Threads + Wait + Sync>(
    rt: &R,
    alloc: Global,
    arguments: Result<Vec<String>, Unread>,
) -> Result<(u8, Vec<u8>), Fail> {
    let mut plant = Plant::new(alloc, Shape::program())?;
    let input = b"memprof-steps 1.0\nkernel\ntag mm/a.c 10 fa\n".to_vec(alloc)?;
    let mut source = MemSource::new(input, Vec::new(alloc), 64);
    let mut sink = MemSink::new(alloc, 100, Vec::new(alloc), 64)?;
    let status = serve(
        rt,
        alloc,
        &mut plant,
        &OpenGate,
        arguments,
        &mut source,
        &mut sink,
    );
    Ok((status, sink.taken().to_vec(alloc)?))
}

#[test]
fn answers(rt: HostRuntime) -> Result<(), Fail> {
    let alloc = rt.alloc();
    let mut checks = Vec::new(alloc);
    for word in ["memprof", "check"] {
        checks.push(String::from_str(alloc, word)?)?;
    }
    let (status, text) = served(&rt, alloc, Ok(checks))?;
    assert!(rt; status == 0 && text.as_slice() == b"ok lines 3\n".as_slice());
    for (arguments, wanted) in [
        (Ok(Vec::new(alloc)), 2),
        (Err(Unread::Failed), 2),
        (Err(Unread::Memory(AllocError)), 3),
    ] {
        let (status, text) = served(&rt, alloc, arguments)?;
        assert!(rt; status == wanted && text.is_empty(), "{wanted}");
    }
    Ok(())
}

#[test]
fn complaints(rt: HostRuntime) -> Result<(), Fail> {
    for (status, said) in [
        (0, None),
        (1, None),
        (2, Some("memprof: usage")),
        (3, Some("memprof: out of memory")),
        (4, Some("memprof: read fault")),
        (5, Some("memprof: write fault")),
        (6, None),
    ] {
        assert!(rt; complaint(status) == said, "{status}");
    }
    Ok(())
}
