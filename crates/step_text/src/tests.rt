use super::*;
use input_form::{Code, TextError};
use std::alloc::Global;
use std::process::Abort;
use std::test::Fail;

// Why the text is refused. None where it is read.
fn refusal(rt: &impl Abort, alloc: Global, text: &[u8]) -> Option<TextError> {
    assert!(rt; text.len() <= 4_194_304);
    read_steps(alloc, text).err()
}

// Each body behind the head is refused at its line, with its code.
fn are_refused(
    rt: &impl Abort,
    alloc: Global,
    head: &[u8],
    cases: &[(&[u8], u32, Code)],
) -> Result<(), Fail> {
    for &(body, line, code) in cases {
        let mut text = Vec::from_slice(alloc, head)?;
        text.extend_from_slice(body)?;
        let wanted = TextError::Refused { line, code };
        assert_eq!(rt; refusal(rt, alloc, &text), Some(wanted));
    }
    Ok(())
}

#[test]
fn a_schedule(rt: HostRuntime) -> Result<(), Fail> {
    let text =
        b"memprof-steps 1.0\n# two\ncpus 2\n\nkernel\ntag mm/a.c 10 fa\nmodule ext\ntag m/x.c 5 fx\n\
        do 1 open 7 ext:0 64\ndo m load ext\ngo 1 all\nprint\nwords kernel:0\n";
    let steps = read_steps(rt.alloc(), text)?;
    assert_eq!(rt; steps.cpus, 2);
    assert_eq!(rt; steps.area, 896);
    assert_eq!(rt; steps.sections.count(), 2);
    let body = steps.body.as_slice();
    assert_eq!(rt; body.len(), 5);
    let op = StepOp::Open {
        key: 7,
        section: 1,
        index: 0,
        size: 64,
    };
    let actor = StepActor::Cpu(1);
    assert_eq!(rt;
        body[0],
        StepLine {
            line: 9,
            act: StepAct::Do { actor, op }
        }
    );
    let op = StepOp::Load { section: 1 };
    assert_eq!(rt;
        body[1].act,
        StepAct::Do {
            actor: StepActor::Manager,
            op
        }
    );
    assert_eq!(rt; body[2].act, StepAct::Go { actor, count: None });
    assert_eq!(rt; body[3].act, StepAct::Print);
    assert_eq!(rt;
        body[4],
        StepLine {
            line: 13,
            act: StepAct::Words {
                section: 0,
                index: 0
            }
        }
    );
    Ok(())
}

#[test]
fn refused_heads(rt: HostRuntime) -> Result<(), Fail> {
    let cases: [(&[u8], u32, Code); 9] = [
        (b"", 1, Code::Header),
        (b"memprof-steps 1.0", 1, Code::Cut),
        (b"memprof-trace 1.1\n", 1, Code::Header),
        (b"memprof-steps 1.0\n", 2, Code::Order),
        (b"memprof-steps 1.0\nkernel\n", 3, Code::Empty),
        (b"memprof-steps 1.0\ncpus 65\n", 2, Code::Number),
        (b"memprof-steps 1.0\nframes 8\n", 2, Code::Word),
        (b"memprof-steps 1.0\nkernel\nkernel\n", 3, Code::Order),
        (b"memprof-steps 1.0\ncpus 1\ncpus\n", 3, Code::Repeat),
    ];
    are_refused(&rt, rt.alloc(), b"", &cases)
}

// The body begins at line 4.
const HEAD: &[u8] = b"memprof-steps 1.0\nkernel\ntag mm/a.c 10 fa\n";

#[test]
fn bodies(rt: HostRuntime) -> Result<(), Fail> {
    let cases: [(&[u8], u32, Code); 12] = [
        (b"do 9 load zzz\n", 4, Code::Cpu),
        (b"do 0 load zzz\n", 4, Code::Word),
        (b"do m load kernel\n", 4, Code::Module),
        (b"do 0 split 3 4 1\n", 4, Code::Keys),
        (b"do 0 swap 3 3\n", 4, Code::Same),
        (b"do 0 open 1 kernel:1 8\n", 4, Code::Tag),
        (b"go 0 1048577\n", 4, Code::Number),
        (b"go 0  1\n", 4, Code::Word),
        (b"go 0 1 \n", 4, Code::Word),
        (b"go 0 1 2 3 4 5 6\n", 4, Code::Word),
        (b"cpus 1 2 3 4 5 6 7\n", 4, Code::Order),
        (b"# one\n\nprint\ntag mm/a.c 11 fa\n", 7, Code::Order),
    ];
    are_refused(&rt, rt.alloc(), HEAD, &cases)
}

// As many lines as an input may have, and one more. Of these, 64 print.
#[test]
fn the_most_lines(rt: HostRuntime) -> Result<(), Fail> {
    let mut text = Vec::from_slice(rt.alloc(), HEAD)?;
    text.extend_from_slice(b"tag mm/a.c 11 fa\n")?;
    for number in 4..131_072 {
        text.extend_from_slice(if number < 68 {
            b"print\n"
        } else {
            b"go m all\n"
        })?;
    }
    assert!(rt; text.len() <= 4_194_304);
    let steps = read_steps(rt.alloc(), &text)?;
    assert_eq!(rt; steps.body.as_slice().len(), 131_068);
    text.extend_from_slice(b"print")?;
    let lines = TextError::Refused {
        line: 131_073,
        code: Code::Lines,
    };
    assert_eq!(rt; refusal(&rt, rt.alloc(), &text), Some(lines));
    Ok(())
}

#[test]
fn one_print_too_many(rt: HostRuntime) -> Result<(), Fail> {
    let mut text = Vec::from_slice(rt.alloc(), HEAD)?;
    for _ in 0..65 {
        text.extend_from_slice(b"print\n")?;
    }
    let prints = TextError::Refused {
        line: 68,
        code: Code::Prints,
    };
    assert_eq!(rt; refusal(&rt, rt.alloc(), &text), Some(prints));
    Ok(())
}
