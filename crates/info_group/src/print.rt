//! The text of groups.

ghost use Rattle.std.specs.Prelude.{◌≡◌, ◌++◌, OnOk, OnErr};
ghost use Rattle.codetag.specs.Prefix.{IsPrefix};
ghost use Rattle.info_group.specs.Text.{group_text, groups_text};

use crate::group::Group;
use allocinfo::{write_bytes, write_calls};
use std::alloc::AllocError;

/// Appends a line for each group: its bytes, its calls and its name.
pub fn print_groups(groups: &[Group], out: &mut Vec<u8>) -> Result<(), AllocError>
    ensures ok { OnOk result (out.new.items ≡ out.old.items ++ groups_text groups.now) }
    ensures err { OnErr result (IsPrefix out.old.items out.new.items) }
{
    for group in groups {
        write_group(group, out)?;
    }
    Ok(())
}

// Appends the line of a group.
#[tactic(auto, unfolding(crate::specs::Text::group_text))]
fn write_group(group: &Group, out: &mut Vec<u8>) -> Result<(), AllocError>
    ensures ok { OnOk result (out.new.items ≡ out.old.items ++ group_text group.now) }
    ensures err { OnErr result (IsPrefix out.old.items out.new.items) }
{
    write_bytes(group.bytes, out)?;
    out.push(b' ')?;
    write_calls(group.calls, out)?;
    out.push(b' ')?;
    out.extend_from_slice(group.name.bytes())?;
    out.extend_from_slice(b"\n")
}
