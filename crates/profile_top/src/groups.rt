//! The commands `files` and `modules`: the rows of allocinfo in groups.

ghost use Rattle.std.specs.Prelude.{◌≡◌, ◌++◌, ◌≤◌, length, IfOk, OnOk};
ghost use Rattle.info_read.specs.Reading.{rows_of};
ghost use Rattle.info_group.specs.Keys.{key_of};
ghost use Rattle.profile_top.specs.Answers.{Gives, info_refusal_text, info_refused, listed, grouped};

use crate::answer::Answer;
use codetag::write_number;
use info_group::{Group, Key, group_rows, print_groups};
use info_read::{InfoError, read_rows};
use std::alloc::{AllocError, Global};

fn write_info_refusal(line: u32, out: &mut Vec<u8>) -> Result<(), AllocError>
    ensures { OnOk result (out.new.items ≡ out.old.items ++ info_refusal_text line) }
{
    out.extend_from_slice(b"line ")?;
    write_number(u64::from(line), out)?;
    out.extend_from_slice(b": info\n")
}

/// The line isn't of the form of allocinfo.
fn info_refusal(alloc: Global, line: u32) -> Result<Answer, AllocError>
    ensures { IfOk result (λ answer. Gives answer (info_refused line)) }
{
    let mut text = Vec::new(alloc);
    write_info_refusal(line, &mut text)?;
    Ok(Answer { status: 1, text })
}

// The lines of the groups.
fn listed(alloc: Global, groups: &[Group]) -> Result<Answer, AllocError>
    ensures { IfOk result (λ answer. Gives answer (listed groups.now)) }
{
    let mut text = Vec::new(alloc);
    print_groups(groups, &mut text)?;
    Ok(Answer { status: 0, text })
}

/// The groups of allocinfo by a key.
pub(crate) fn groups_answer(alloc: Global, input: &[u8], key: Key) -> Result<Answer, AllocError>
    requires { length input.now ≤ 4194304 }
    ensures { IfOk result (λ answer. Gives answer (grouped (key_of key) (rows_of input.now))) }
{
    match read_rows(alloc, input) {
        Ok(rows) => listed(alloc, &group_rows(alloc, &rows, key)?),
        Err(InfoError::Refused { line }) => info_refusal(alloc, line),
        Err(InfoError::Memory(error)) => Err(error),
    }
}
