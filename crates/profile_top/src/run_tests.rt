use super::*;
use crate::bench::{owned, sink_of, source_of};
use plant::Plant;
use round_worker::OpenGate;
use std::alloc::Global;
use std::process::Abort;
use std::sync::Wait;
use std::test::Fail;
use std::thread::Threads;
use tag_model::Shape;

const HEADER: &[u8] = b"allocinfo - version: 1.0\n#     <size>  <calls> <tag info>\n";

const TAGS: &[u8] = b"kernel\ntag mm/slub.c 1 slab\ntag mm/a.c 10 fa\ntag mm/b.c 20 fb\n";

const SLAB_AND_OBJECT: &[u8] = b"round\non 0 hook kernel:1\non 0 kmalloc 1 100\nprint\n";

const SHARED: &[u8] = b"round\non 0 page 1 0\non 1 free 1\n";

const ZEROS: &[u8] =
    b"           0        0 mm/slub.c:1 func:slab \n           0        0 mm/a.c:10 func:fa \n           0        0 mm/b.c:20 func:fb \n";

const KEPT: &[u8] = b"cpus 1\narea 1\nkernel\ntag mm/slub.c 1 slab\nmodule ext\ntag m/x.c 5 fx\n\
    module two\ntag m/y.c 7 fy\nload ext\nround\non 0 enter ext\non 0 hook ext:0\non 0 page 1 0\n\
    on 0 unhook\non 0 leave ext\nround\non 0 unload ext\n";

const HOME: &[u8] = b"cpus 2\nframes 4\nkernel\ntag mm/slub.c 1 slab\ntag mm/a.c 10 fa\nround\n\
    on 0 hook kernel:1\non 0 page 1 2\nround\non 1 free 1\non 0 page 2 2\nround\non 0 page 3 2\nprint\n";

fn joined(alloc: Global, parts: &[&[u8]]) -> Result<Vec<u8>, Fail> {
    let mut whole = Vec::new(alloc);
    for part in parts {
        whole.extend_from_slice(part)?;
    }
    Ok(whole)
}

// What a word and a trace give on a fresh plant: the status, what is written, and whether no run began. The lines
// stand behind the first one.
fn serves<R: Threads + Wait + Sync + Abort>(
    rt: &R,
    alloc: Global,
    word: &str,
    lines: &[&[u8]],
    status: u8,
    text: &[&[u8]],
    is_fresh: bool,
) -> Result<(), Fail> {
    let mut input = joined(alloc, &[b"memprof-trace 1.0\n"])?;
    input.extend_from_slice(joined(alloc, lines)?.as_slice())?;
    let words = owned(alloc, &[word])?;
    let mut plant = Plant::new(alloc, Shape::program())?;
    let mut source = source_of(alloc, input.as_slice(), &[])?;
    let mut sink = sink_of(alloc, &[])?;
    let seen = memprof(
        rt,
        alloc,
        &mut plant,
        &OpenGate,
        words.as_slice(),
        &mut source,
        &mut sink,
    );
    assert_eq!(rt; seen, status);
    assert!(rt; sink.taken() == joined(alloc, text)?.as_slice());
    assert_eq!(rt; plant.is_fresh(), is_fresh);
    Ok(())
}

// A trace of these lines is run to its end, and this is printed.
fn prints<R: Threads + Wait + Sync + Abort>(
    rt: &R,
    alloc: Global,
    lines: &[&[u8]],
    text: &[&[u8]],
) -> Result<(), Fail> {
    serves(rt, alloc, "run", lines, 0, text, false)
}

// A trace of these lines is refused before anything is run.
fn refuses<R: Threads + Wait + Sync + Abort>(
    rt: &R,
    alloc: Global,
    word: &str,
    lines: &[&[u8]],
    text: &[u8],
) -> Result<(), Fail> {
    serves(rt, alloc, word, lines, 1, &[text], true)
}

#[test]
fn object_and_its_slab(rt: HostRuntime) -> Result<(), Fail> {
    let text: &[&[u8]] = &[
        HEADER,
        b"        4096        1 mm/slub.c:1 func:slab \n",
        b"         128        1 mm/a.c:10 func:fa \n",
        b"           0        0 mm/b.c:20 func:fb \n",
        b"done: rounds 1 ops 2 failed 0 uncounted 0 live 2 kept 0\n",
    ];
    prints(&rt, rt.alloc(), &[TAGS, SLAB_AND_OBJECT], text)
}

#[test]
fn object_without_vectors(rt: HostRuntime) -> Result<(), Fail> {
    let lines: &[&[u8]] = &[
        b"vectors 0\n",
        TAGS,
        SLAB_AND_OBJECT,
        b"round\non 0 free 1\nprint\n",
    ];
    let text: &[&[u8]] = &[
        HEADER,
        b"        4096        1 mm/slub.c:1 func:slab \n",
        b"           0        0 mm/a.c:10 func:fa \n",
        b"           0        0 mm/b.c:20 func:fb \n",
        HEADER,
        ZEROS,
        b"done: rounds 2 ops 3 failed 0 uncounted 1 live 0 kept 0\n",
    ];
    prints(&rt, rt.alloc(), lines, text)
}

// CPU 1 frees all frames of CPU 0. They are there again in the next round.
#[test]
fn frames_come_home(rt: HostRuntime) -> Result<(), Fail> {
    let text: &[&[u8]] = &[
        HEADER,
        b"           0        0 mm/slub.c:1 func:slab \n",
        b"       16384        1 mm/a.c:10 func:fa \n",
        b"done: rounds 3 ops 5 failed 1 uncounted 0 live 1 kept 0\n",
    ];
    prints(&rt, rt.alloc(), &[HOME], text)
}

// A module that is kept leaves no room for another until its last page is freed.
#[test]
fn room_of_a_kept_module(rt: HostRuntime) -> Result<(), Fail> {
    let alloc = rt.alloc();
    let kept: &[&[u8]] = &[KEPT, b"load two\n"];
    serves(&rt, alloc, "run", kept, 1, &[b"line 19: no-room\n"], false)?;
    let freed: &[&[u8]] = &[KEPT, b"on 0 free 1\nload two\nareas\n"];
    let text: &[&[u8]] = &[
        b"areas: 1\narea two 128+1 loaded\n",
        b"done: rounds 2 ops 7 failed 0 uncounted 0 live 0 kept 0\n",
    ];
    prints(&rt, alloc, freed, text)
}

#[test]
fn page_without_a_hook(rt: HostRuntime) -> Result<(), Fail> {
    let lines: &[&[u8]] = &[TAGS, b"round\non 0 page 1 0\nprint\nround\non 0 free 1\n"];
    let text: &[&[u8]] = &[
        HEADER,
        ZEROS,
        b"done: rounds 2 ops 2 failed 0 uncounted 0 live 0 kept 0\n",
    ];
    prints(&rt, rt.alloc(), lines, text)
}

#[test]
fn pages_of_two_hooks(rt: HostRuntime) -> Result<(), Fail> {
    let lines: &[&[u8]] = &[
        TAGS,
        b"round\non 0 hook kernel:1\non 0 hook kernel:2\non 0 page 1 0\non 0 unhook\n",
        b"on 0 page 2 1\nprint\n",
    ];
    let text: &[&[u8]] = &[
        HEADER,
        b"           0        0 mm/slub.c:1 func:slab \n",
        b"        8192        1 mm/a.c:10 func:fa \n",
        b"        4096        1 mm/b.c:20 func:fb \n",
        b"done: rounds 1 ops 5 failed 0 uncounted 0 live 2 kept 0\n",
    ];
    prints(&rt, rt.alloc(), lines, text)
}

#[test]
fn page_where_no_frame_is_left(rt: HostRuntime) -> Result<(), Fail> {
    let lines: &[&[u8]] = &[
        TAGS,
        b"round\non 0 hook kernel:1\non 0 page 1 10\non 0 page 2 0\nprint\n",
    ];
    let text: &[&[u8]] = &[
        HEADER,
        b"           0        0 mm/slub.c:1 func:slab \n",
        b"     4194304        1 mm/a.c:10 func:fa \n",
        b"           0        0 mm/b.c:20 func:fb \n",
        b"done: rounds 1 ops 3 failed 1 uncounted 0 live 1 kept 0\n",
    ];
    prints(&rt, rt.alloc(), lines, text)
}

#[test]
fn pages_that_are_swapped(rt: HostRuntime) -> Result<(), Fail> {
    let lines: &[&[u8]] = &[
        TAGS,
        b"round\non 0 hook kernel:1\non 0 page 1 1\non 0 hook kernel:2\non 0 page 2 1\n",
        b"on 0 swap 1 2\non 0 free 1\nprint\n",
    ];
    let text: &[&[u8]] = &[
        HEADER,
        b"           0        0 mm/slub.c:1 func:slab \n",
        b"        8192        1 mm/a.c:10 func:fa \n",
        b"           0        0 mm/b.c:20 func:fb \n",
        b"done: rounds 1 ops 6 failed 0 uncounted 0 live 1 kept 0\n",
    ];
    prints(&rt, rt.alloc(), lines, text)
}

#[test]
fn lines_that_are_refused(rt: HostRuntime) -> Result<(), Fail> {
    let alloc = rt.alloc();
    let no_key: &[&[u8]] = &[
        TAGS,
        b"round\non 0 page 1 0\nprint\nround\non 0 free 1\non 0 free 1\n",
    ];
    let orders: &[&[u8]] = &[
        TAGS,
        b"round\non 0 hook kernel:1\non 0 page 1 1\non 0 page 2 0\non 0 swap 1 2\n",
    ];
    let shared: &[&[u8]] = &[TAGS, SHARED];
    refuses(&rt, alloc, "run", no_key, b"line 11: no-key 1\n")?;
    refuses(&rt, alloc, "run", orders, b"line 10: orders\n")?;
    refuses(&rt, alloc, "run", shared, b"line 8: shared-key 1\n")?;
    refuses(&rt, alloc, "check", shared, b"line 8: shared-key 1\n")?;
    refuses(&rt, alloc, "run", &[b"cpus 65\n"], b"line 2: number\n")
}
