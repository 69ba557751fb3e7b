//! One item of a trace.

ghost use Rattle.std.specs.Prelude.{ℕ, ◌≡◌, IfOk, List};
ghost use Rattle.round_modules.specs.Meant.{code_of};
ghost use Rattle.trace.specs.declared.traces.Item.TheVariants as item;
ghost use Rattle.rounds.specs.Places.{IsThere, Place};
ghost use Rattle.trace_run.specs.Items.{IsNext, IsPlayed, PlaysNext, next_played, played_at};

use crate::outcome::{Outcome, Refusal};
use round_modules::LoadRefusal;
use round_worker::Gate;
use rounds::Desk;
use std::alloc::AllocError;
use std::sync::Wait;
use std::thread::Threads;
use trace::{Code, Item, OnOp};

/// Plays the next item: what it prints goes to the text. A `load` may be refused.
pub(crate) fn play_item<R: Threads + Wait + Sync, G: Gate + Sync>(
    rt: &R,
    gate: &G,
    desk: Desk,
    item: &Item,
    kept: bool,
    top: Option<u32>,
    out: &mut Vec<u8>,
) -> Result<Outcome, AllocError>
    requires { PlaysNext item.now desk }
    ensures { (p : Place) → IsThere p desk → IsNext item.now p → p.top ≡ top → p.trace.shows_kept ≡ kept → IfOk result (IsPlayed p.board p.trace (next_played item.now p) out.old.items (played_at p).text out.new.items) }
{
    match item {
        Item::Round { ops } => play_round(rt, gate, desk, ops.as_slice()),
        Item::Load { line, section } => Ok(play_load(desk, *line, *section)),
        Item::Print => play_print(desk, kept, top, out),
        Item::Areas => play_areas(desk, out),
    }
}

fn play_round<R: Threads + Wait + Sync, G: Gate + Sync>(
    rt: &R,
    gate: &G,
    desk: Desk,
    ops: &[OnOp],
) -> Result<Outcome, AllocError>
    requires { PlaysNext (item.Round ops.now) desk }
    ensures { (p : Place) (text : List ℕ) → IsThere p desk → IsNext (item.Round ops.now) p → IfOk result (IsPlayed p.board p.trace (next_played (item.Round ops.now) p) text (played_at p).text text) }
{
    let desk = desk.round(rt, gate, ops)?;
    Ok(Outcome {
        desk,
        refused: None,
    })
}

fn play_load(desk: Desk, line: u32, section: u32) -> Outcome
    requires { PlaysNext (item.Load line section) desk }
    ensures { (p : Place) (text : List ℕ) → IsThere p desk → IsNext (item.Load line section) p → IsPlayed p.board p.trace (next_played (item.Load line section) p) text (played_at p).text text result }
{
    let mut desk = desk;
    match desk.load(section) {
        Ok(()) => Outcome {
            desk,
            refused: None,
        },
        Err(why) => Outcome {
            desk,
            refused: Some(Refusal {
                line,
                code: code_of(why),
            }),
        },
    }
}

fn code_of(why: LoadRefusal) -> Code
    ensures { result ≡ code_of why }
{
    match why {
        LoadRefusal::Full => Code::Full,
        LoadRefusal::NoRoom => Code::NoRoom,
    }
}

fn play_print(
    desk: Desk,
    kept: bool,
    top: Option<u32>,
    out: &mut Vec<u8>,
) -> Result<Outcome, AllocError>
    requires { PlaysNext item.Print desk }
    ensures { (p : Place) → IsThere p desk → IsNext item.Print p → p.top ≡ top → p.trace.shows_kept ≡ kept → IfOk result (IsPlayed p.board p.trace (next_played item.Print p) out.old.items (played_at p).text out.new.items) }
{
    let mut desk = desk;
    desk.print(kept, top, out)?;
    Ok(Outcome {
        desk,
        refused: None,
    })
}

fn play_areas(desk: Desk, out: &mut Vec<u8>) -> Result<Outcome, AllocError>
    requires { PlaysNext item.Areas desk }
    ensures { (p : Place) → IsThere p desk → IsNext item.Areas p → IfOk result (IsPlayed p.board p.trace (next_played item.Areas p) out.old.items (played_at p).text out.new.items) }
{
    desk.print_areas(out)?;
    Ok(Outcome {
        desk,
        refused: None,
    })
}
