//! The last line of a run.

ghost use Rattle.std.specs.Prelude.{◌≡◌, ◌++◌, OnOk, decimal};
ghost use Rattle.run_text.specs.Lines.{done_line};

use codetag::write_number;
use std::alloc::AllocError;

/// What a run came to: rounds and ops, allocations that found no frames, objects without a cell, references that are live,
/// and ranges that are kept.
#[derive(Clone, Copy, Debug, PartialEq, Eq)]
pub struct Done {
    pub rounds: u64,
    pub ops: u64,
    pub failed: u64,
    pub uncounted: u64,
    pub live: u64,
    pub kept: u64,
}

/// Appends the last line.
pub fn write_done(done: Done, out: &mut Vec<u8>) -> Result<(), AllocError>
    ensures { OnOk result (out.new.items ≡ out.old.items ++ done_line done) }
{
    write_count(b"done: rounds ", done.rounds, out)?;
    write_count(b" ops ", done.ops, out)?;
    write_count(b" failed ", done.failed, out)?;
    write_count(b" uncounted ", done.uncounted, out)?;
    write_count(b" live ", done.live, out)?;
    write_count(b" kept ", done.kept, out)?;
    out.extend_from_slice(b"\n")
}

// Appends a word and a number.
fn write_count(word: &[u8], count: u64, out: &mut Vec<u8>) -> Result<(), AllocError>
    ensures { OnOk result (out.new.items ≡ out.old.items ++ word.now ++ decimal count) }
{
    out.extend_from_slice(word)?;
    write_number(count, out)
}
