//! What is written for an input, and the status.

ghost use Rattle.std.specs.Prelude.{◌≡◌, ◌++◌, IfOk, OnOk};
ghost use Rattle.tag_section.specs.Section.{names_of};
ghost use Rattle.profile_top.specs.Answers.{Gives, refused};
ghost use Rattle.trace_play.specs.Answer.{refusal_text};

use codetag::write_number;
use std::alloc::{AllocError, Global};
use tag_section::Sections;
use trace::Code;

/// A status, and the bytes that are written for it.
#[derive(Debug, Drop)]
pub(crate) struct Answer {
    pub(crate) status: u8,
    pub(crate) text: Vec<u8>,
}

fn write_refusal(
    sections: &Sections,
    line: u32,
    code: Code,
    out: &mut Vec<u8>,
) -> Result<(), AllocError>
    ensures { OnOk result (out.new.items ≡ out.old.items ++ refusal_text (names_of sections.now) line code) }
{
    out.extend_from_slice(b"line ")?;
    write_number(u64::from(line), out)?;
    out.extend_from_slice(b": ")?;
    code.to_text(sections, out)?;
    out.extend_from_slice(b"\n")
}

/// The line is refused.
pub(crate) fn refusal(
    alloc: Global,
    sections: &Sections,
    line: u32,
    code: Code,
) -> Result<Answer, AllocError>
    ensures { IfOk result (λ answer. Gives answer (refused (names_of sections.now) (line, code))) }
{
    let mut text = Vec::new(alloc);
    write_refusal(sections, line, code, &mut text)?;
    Ok(Answer { status: 1, text })
}
