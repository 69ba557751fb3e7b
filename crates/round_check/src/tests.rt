use super::*;
use std::alloc::Global;
use std::process::Abort;
use std::test::Fail;
use trace::{Code, TextError, read_trace};

// The body begins at line 7.
const HEAD: &[u8] =
    b"memprof-trace 1.0\nkernel\ntag mm/slub.c 1 slab\nmodule ext\ntag m/x.c 5 fx\nload ext\n";

// Why a trace is refused, by the reader or the check.
fn refusal(rt: &impl Abort, alloc: Global, text: &[u8]) -> Option<TextError> {
    assert!(rt; text.len() <= 4_194_304);
    match read_trace(alloc, text) {
        Ok(trace) => check_rounds(alloc, &trace).err(),
        Err(error) => Some(error),
    }
}

// Each body is refused at its line, with its code.
fn are_refused(rt: &impl Abort, alloc: Global, cases: &[(&[u8], u32, Code)]) -> Result<(), Fail> {
    for &(body, line, code) in cases {
        let mut text = Vec::from_slice(alloc, HEAD)?;
        text.extend_from_slice(body)?;
        let wanted = TextError::Refused { line, code };
        assert_eq!(rt; refusal(rt, alloc, &text), Some(wanted));
    }
    Ok(())
}

#[test]
fn refused_by_the_reader(rt: HostRuntime) -> Result<(), Fail> {
    let cases: [(&[u8], u32, Code); 8] = [
        (b"on 9\n", 7, Code::NoRound),
        (b"round\non 9 free\n", 8, Code::Word),
        (b"round\nprint\non 0 free 1\n", 9, Code::NoRound),
        (b"round\non 4 swap 2 2\n", 8, Code::Cpu),
        (b"round\non 3 swap 2 2\n", 8, Code::Same),
        (b"load kernel\n", 7, Code::Module),
        (b"round\non 0 page 1 11\n", 8, Code::Number),
        (b"round\ntag mm/slub.c 2 slab\n", 8, Code::Order),
    ];
    are_refused(&rt, rt.alloc(), &cases)
}

#[test]
fn refused_keys(rt: HostRuntime) -> Result<(), Fail> {
    let cases: [(&[u8], u32, Code); 7] = [
        (
            b"round\non 0 page 1 0\non 1 free 1\n",
            9,
            Code::SharedKey(1),
        ),
        (b"round\non 0 free 9\n", 8, Code::NoKey(9)),
        (b"round\non 0 page 1 0\non 0 split 1 0 2\n", 9, Code::Orders),
        (
            b"round\non 0 page 1 2\non 0 split 1 0 1\n",
            9,
            Code::Bound(1),
        ),
        (
            b"round\non 0 page 1 2\non 0 split 1 0 65534\n",
            9,
            Code::Keys,
        ),
        (
            b"round\non 0 page 1 2\non 0 trim 1 3\non 0 split 1 0 2\n",
            10,
            Code::Trimmed(1),
        ),
        (
            b"round\non 0 kmalloc 1 9000\non 0 trim 1 1\n",
            9,
            Code::Kind(1),
        ),
    ];
    are_refused(&rt, rt.alloc(), &cases)
}

#[test]
fn refused_modules_and_hooks(rt: HostRuntime) -> Result<(), Fail> {
    let cases: [(&[u8], u32, Code); 5] = [
        (
            b"round\non 0 enter ext\non 0 hook ext:0\nround\non 0 unload ext\n",
            11,
            Code::Busy(1),
        ),
        (
            b"round\non 0 enter ext\non 0 hook ext:0\non 0 leave ext\n",
            10,
            Code::Hooked(1),
        ),
        (
            b"round\non 0 enter ext\non 0 leave ext\non 0 unload ext\n",
            10,
            Code::UnloadShared(1),
        ),
        (b"load ext\n", 7, Code::AlreadyLoaded(1)),
        (
            b"round\non 0 hook kernel:0\non 0 unhook\non 0 unhook\n",
            10,
            Code::NoHook,
        ),
    ];
    are_refused(&rt, rt.alloc(), &cases)
}

// As many rounds as an input may have lines, behind rounds in which every line passes.
#[test]
fn the_most_rounds(rt: HostRuntime) -> Result<(), Fail> {
    let mut text = Vec::from_slice(rt.alloc(), HEAD)?;
    text.extend_from_slice(
        b"round\non 0 page 65535 10\non 0 split 65535 1 1\non 0 free 511\nprint\n\
        round\non 0 enter ext\non 1 page 511 0\nround\non 0 leave ext\non 2 free 511\nround\non 3 unload ext\nprint\n",
    )?;
    for _ in 20..131_072 {
        text.extend_from_slice(b"round\n")?;
    }
    assert!(rt; text.len() <= 4_194_304);
    let trace = read_trace(rt.alloc(), &text)?;
    check_rounds(rt.alloc(), &trace)?;
    Ok(())
}
