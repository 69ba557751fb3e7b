use super::*;
use std::alloc::Global;
use std::process::Abort;
use std::test::Fail;

// Why the text is refused. None where it is read.
fn refusal(rt: &impl Abort, alloc: Global, text: &[u8]) -> Option<TextError> {
    assert!(rt; text.len() <= 4_194_304);
    read_trace(alloc, text).err()
}

#[test]
fn a_trace(rt: HostRuntime) -> Result<(), Fail> {
    let text =
        b"memprof-trace 1.1\nframes 8\nkernel\ntag mm/slub.c 1 slab\nmodule ext4\ntag fs/a.c 1 a\n\
        load ext4\nround\non 3 kmalloc 1 1100\non 0 unhook\nprint\n";
    let trace = read_trace(rt.alloc(), text)?;
    assert!(rt; trace.shows_kept);
    assert_eq!(rt; trace.cpus, 4);
    assert_eq!(rt; trace.frames, 8);
    assert_eq!(rt; trace.vectors, 64);
    let body = trace.body.as_slice();
    assert_eq!(rt; body.len(), 3);
    assert!(rt;
        matches!(
            body[0],
            Item::Load {
                line: 7,
                section: 1
            }
        )
    );
    match &body[1] {
        Item::Round { ops } => {
            let ops = ops.as_slice();
            assert_eq!(rt; ops.len(), 2);
            let op = TraceOp::Kmalloc { key: 1, size: 1100 };
            assert_eq!(rt;
                ops[0],
                OnOp {
                    line: 9,
                    cpu: 3,
                    op
                }
            );
        }
        _ => return Err("no round".into()),
    }
    assert!(rt; matches!(body[2], Item::Print));
    Ok(())
}

#[test]
fn refused_heads(rt: HostRuntime) {
    let cases: [(&[u8], u32, Code); 2] = [
        (b"memprof-trace 1.2\n", 1, Code::Header),
        (b"memprof-trace 1.0\nmemprof-trace 1.0\n", 2, Code::Word),
    ];
    for (text, line, code) in cases {
        let wanted = TextError::Refused { line, code };
        assert_eq!(rt; refusal(&rt, rt.alloc(), text), Some(wanted));
    }
}

// The body begins at line 4.
const HEAD: &[u8] = b"memprof-trace 1.0\nkernel\ntag mm/slub.c 1 slab\n";

// Of the lines that print, of either kind, an input has 64 at most.
#[test]
fn the_most_prints(rt: HostRuntime) -> Result<(), Fail> {
    let mut text = Vec::from_slice(rt.alloc(), HEAD)?;
    text.extend_from_slice(b"round\n\non 0 page 65535 10\n")?;
    for _ in 0..32 {
        text.extend_from_slice(b"print\nareas\n")?;
    }
    assert!(rt; text.len() <= 4_194_304);
    let trace = read_trace(rt.alloc(), &text)?;
    assert_eq!(rt; trace.body.as_slice().len(), 65);
    text.extend_from_slice(b"areas\n")?;
    let prints = TextError::Refused {
        line: 71,
        code: Code::Prints,
    };
    assert_eq!(rt; refusal(&rt, rt.alloc(), &text), Some(prints));
    Ok(())
}
