//! All items of a trace.

ghost use Rattle.std.specs.Prelude.{◌≡◌, IfOk, []};
ghost use Rattle.trace_play.specs.Play.{trace_played};
ghost use Rattle.trace_run.specs.Items.{Begins, IsPlayed};

use crate::item::play_item;
use crate::outcome::Outcome;
use round_worker::Gate;
use rounds::Desk;
use std::alloc::AllocError;
use std::sync::Wait;
use std::thread::Threads;
use trace::Item;

/// Plays the items of a checked trace, up to the first `load` that is refused. Kept ranges are shown where `kept` says so,
/// and of each print so many rows as `top` says.
pub fn play_items<R: Threads + Wait + Sync, G: Gate + Sync>(
    rt: &R,
    gate: &G,
    desk: Desk,
    items: &[Item],
    kept: bool,
    top: Option<u32>,
    out: &mut Vec<u8>,
) -> Result<Outcome, AllocError>
    requires { Begins items.now kept desk }
    ensures { (s : Begins items.now kept desk) → IfOk result (IsPlayed s.board s.trace (trace_played s.trace top) out.old.items [] out.new.items) }
{
    let mut desk = desk;
    for item in items {
        let after = play_item(rt, gate, desk, item, kept, top, out)?;
        if after.refused.is_some() {
            return Ok(after);
        }
        desk = after.desk;
    }
    Ok(Outcome {
        desk,
        refused: None,
    })
}
