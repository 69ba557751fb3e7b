use super::*;
use crate::bench::{owned, sink_of, source_of};
use std::alloc::Global;
use std::test::Fail;

const ONE: &[u8] =
    b"memprof-steps 1.0\nkernel\ntag mm/a.c 10 fa\ndo 0 open 1 kernel:0 4096\ngo 0 3\nprint\n";

const HALF: &[u8] =
    b"memprof-steps 1.0\nkernel\ntag mm/a.c 10 fa\ndo 0 open 1 kernel:0 4096\ngo 0 1\nprint\n";

const EMPTY: &[u8] = b"memprof-steps 1.0\nkernel\ntag mm/a.c 10 fa\nprint\n";

const HEAD: &[u8] = b"memprof-steps 1.0\nkernel\ntag mm/a.c 10 fa\n";

const UNEVEN: &[u8] = b"memprof-steps 1.0\nkernel\ntag mm/a.c 10 fa\n\
    do 0 open 1 kernel:0 8\ngo 0 all\ndo 0 split 1 3 2\ngo 0 1\n";

const SHARED: &[u8] = b"memprof-trace 1.0\nkernel\ntag mm/slub.c 1 slab\n\
    round\non 0 page 1 0\non 1 free 1\n";

const MODULES: &[u8] = b"memprof-steps 1.0\ncpus 2\nkernel\ntag mm/a.c 10 fa\n\
    module ext\ntag m/x.c 5 fx\ndo m load ext\ngo m 1\ndo 0 enter ext\ndo 0 open 1 ext:0 64\n\
    do 0 leave ext\ngo 0 5\ndo 1 close 1\ngo 1 2\ndo m unload ext\ngo m all\n\
    go 1 1\ndo m clean\ngo m all\n";

const UNLOADED: &[u8] = b"memprof-steps 1.0\nkernel\ntag mm/a.c 10 fa\nmodule ext\n\
    tag m/x.c 5 fx\nwords ext:0\n";

const INFO: &[u8] =
    b"allocinfo - version: 1.0\n#     <size>  <calls> <tag info>\n        4096        1 mm/slub.c:1 func:slab \n        -128        2 m/x.c:10 [ext] func:fa\n           0        0 m/x.c:20 [ext:kept] func:fb \n";

#[derive(Drop)]
struct Outcome {
    status: u8,
    text: Vec<u8>,
}

fn serve(
    alloc: Global,
    words: &[&str],
    input: &[u8],
    failing_read: &[u64],
    failing_write: &[u64],
) -> Result<Outcome, Fail> {
    let words = owned(alloc, words)?;
    let mut source = source_of(alloc, input, failing_read)?;
    let mut sink = sink_of(alloc, failing_write)?;
    let status = memprof_still(alloc, words.as_slice(), &mut source, &mut sink);
    let text = sink.taken().to_vec(alloc)?;
    Ok(Outcome { status, text })
}

fn is_outcome(outcome: &Outcome, status: u8, text: &[u8]) -> bool {
    outcome.status == status && outcome.text.as_slice() == text
}

#[test]
fn inputs(rt: HostRuntime) -> Result<(), Fail> {
    let header = b"allocinfo - version: 1.0\n#     <size>  <calls> <tag info>\n";
    let rows: [(&str, &[u8], u8, &[u8]); 8] = [
        (
            "step",
            EMPTY,
            0,
            b"           0        0 mm/a.c:10 func:fa \n",
        ),
        (
            "step",
            ONE,
            0,
            b"        4096        1 mm/a.c:10 func:fa \n",
        ),
        (
            "step",
            HALF,
            0,
            b"           0        1 mm/a.c:10 func:fa \n",
        ),
        ("step", UNEVEN, 1, b"line 7: uneven\n"),
        ("step", b"", 1, b"line 1: header\n"),
        ("check", HEAD, 0, b"ok lines 3\n"),
        ("check", SHARED, 1, b"line 6: shared-key 1\n"),
        (
            "check",
            b"memprof-steps 1.0\nkernel\n",
            1,
            b"line 3: empty\n",
        ),
    ];
    for (word, input, status, text) in rows {
        let seen = serve(rt.alloc(), &[word], input, &[], &[])?;
        let mut wanted = Vec::new(rt.alloc());
        if text.starts_with(b" ") {
            wanted.extend_from_slice(header)?;
        }
        wanted.extend_from_slice(text)?;
        assert!(rt; is_outcome(&seen, status, wanted.as_slice()), "{word}");
    }
    Ok(())
}

#[test]
fn modules_and_groups(rt: HostRuntime) -> Result<(), Fail> {
    let rows: [(&str, &[u8], u8, &[u8]); 6] = [
        (
            "step",
            MODULES,
            0,
            b"unload ext: kept m/x.c:5 calls 1\nclean ext: released\n",
        ),
        ("step", UNLOADED, 1, b"line 6: not-loaded ext\n"),
        (
            "files",
            INFO,
            0,
            b"        -128        2 m/x.c\n        4096        1 mm/slub.c\n",
        ),
        (
            "modules",
            INFO,
            0,
            b"        -128        2 ext\n           0        0 ext:kept\n        4096        1 kernel\n",
        ),
        ("files", b"", 1, b"line 1: info\n"),
        ("modules", ONE, 1, b"line 1: info\n"),
    ];
    for (word, input, status, text) in rows {
        let seen = serve(rt.alloc(), &[word], input, &[], &[])?;
        assert!(rt; is_outcome(&seen, status, text), "{word}");
    }
    Ok(())
}

#[test]
fn words(rt: HostRuntime) -> Result<(), Fail> {
    let lines: [&[&str]; 5] = [&[], &["files", "3"], &["run"], &["Step"], &[""]];
    for words in lines {
        let seen = serve(rt.alloc(), words, ONE, &[0], &[0])?;
        assert!(rt; is_outcome(&seen, 2, b""));
    }
    Ok(())
}

// The source gives 64 bytes a call, and the sink takes 8.
#[test]
fn faults(rt: HostRuntime) -> Result<(), Fail> {
    for call in [0u64, 1] {
        let seen = serve(rt.alloc(), &["step"], ONE, &[call], &[])?;
        assert!(rt; is_outcome(&seen, 4, b""), "read {call}");
    }
    for (call, taken) in [
        (0u64, b"".as_slice()),
        (1, b"allocinf"),
        (2, b"allocinfo - vers"),
    ] {
        let seen = serve(rt.alloc(), &["step"], ONE, &[], &[call])?;
        assert!(rt; is_outcome(&seen, 5, taken), "write {call}");
    }
    Ok(())
}
