//! Plays the lines of a schedule on a core.

ghost use Rattle.std.specs.Prelude.{◌≡◌, ℕ, ◌+◌, ◌<◌, ◌≤◌, ◌↔◌, Some, None, Ok, Err, Result, Option, List, IfOk, OnOk, IfSome, All, length};
ghost use Rattle.tag_section.specs.Section.{section_at};
ghost use Rattle.core_steps.specs.StepsLeft.{steps_left};
ghost use Rattle.core_steps.specs.CoreState.{IsActor, IsOpOf};
ghost use Rattle.core_list.specs.ListState.{loaded_entry};
ghost use Rattle.input_form.specs.Judging.{at};
ghost use Rattle.step_play.specs.Printed.{Setting};
ghost use Rattle.step_play.specs.Schedule.{Played, one_step, steps_taken, steps_on, queues_on, act_on, play, module_number, words_of, number_of};
ghost use Rattle.step_play.specs.Playing.{Shows, Follows, SameSizes, StepsOn, IsAct, IsLine, own_setting, Plays};

use crate::acts::{actor_of, code_of, op_of};
use crate::print::{write_allocinfo, write_event, write_words};
use core_steps::{Actor, Core, Op, QueueError};
use std::alloc::Global;
use trace::{Code, LineError, StepAct, StepLine, TextError, error_at};

/// Queues the op.
fn play_do(core: &mut Core, actor: Actor, op: Op) -> Result<(), LineError>
    requires actor { IsActor core.old actor }
    requires op { IsOpOf core.old.sections actor op }
    ensures meaning { (text : List ℕ) (p : Played) → Shows (own_setting core.old) core.old text p → Follows (own_setting core.old) result core.new text (queues_on (own_setting core.old) actor op p) }
    ensures sizes { SameSizes core.old core.new }
{
    match core.queue(actor, op) {
        Ok(()) => Ok(()),
        Err(QueueError::QueueFull) => Err(LineError::Refused(Code::Queue)),
        Err(QueueError::Memory(want)) => Err(LineError::Memory(want)),
    }
}

/// Takes one step, and writes what it tells.
fn play_step(core: &mut Core, actor: Actor, out: &mut Vec<u8>) -> Result<(), LineError>
    ensures meaning { (p : Played) → Shows (own_setting core.old) core.old out.old.items p → Follows (own_setting core.old) result core.new out.new.items (one_step (own_setting core.old) actor p) }
    ensures left { IfOk result (λ _. steps_left core.new actor < steps_left core.old actor) }
    ensures sizes { SameSizes core.old core.new }
{
    match core.go(actor) {
        Ok(event) => {
            write_event(core.sections(), event, out)?;
            Ok(())
        }
        Err(why) => Err(LineError::Refused(code_of(why))),
    }
}

/// Takes steps that read for a sweep and tell nothing: so many at most. The answer is how many.
fn play_reads(core: &mut Core, actor: Actor, most: u32) -> u32
    ensures within { result ≤ most }
    ensures meaning { (text : List ℕ) (p : Played) → Shows (own_setting core.old) core.old text p → StepsOn (own_setting core.old) actor result core.new text p }
    ensures left { steps_left core.new actor + result ≤ steps_left core.old actor }
    ensures sizes { SameSizes core.old core.new }
{
    match actor {
        Actor::Cpu(_cpu) => 0,
        Actor::Manager => core.read_on(most),
    }
}

/// Takes so many steps, up to the first that is refused.
fn play_steps(core: &mut Core, actor: Actor, count: u32, out: &mut Vec<u8>) -> Result<(), LineError>
    ensures meaning { (p : Played) → Shows (own_setting core.old) core.old out.old.items p → Follows (own_setting core.old) result core.new out.new.items (steps_taken (own_setting core.old) actor count p) }
    ensures sizes { SameSizes core.old core.new }
{
    let mut left = count;
    while left > 0 {
        left -= play_reads(core, actor, left - 1);
        if let Err(error) = play_step(core, actor, out) {
            return Err(error);
        }
        left -= 1;
    }
    Ok(())
}

/// Takes steps until the actor is idle, up to the first that is refused.
fn play_all(core: &mut Core, actor: Actor, out: &mut Vec<u8>) -> Result<(), LineError>
    ensures meaning { (p : Played) → Shows (own_setting core.old) core.old out.old.items p → Follows (own_setting core.old) result core.new out.new.items (steps_on (own_setting core.old) actor None p) }
    ensures sizes { SameSizes core.old core.new }
{
    play_reads(core, actor, u32::MAX);
    while !core.idle(actor) {
        if let Err(error) = play_step(core, actor, out) {
            return Err(error);
        }
        play_reads(core, actor, u32::MAX);
    }
    Ok(())
}

fn play_go(
    core: &mut Core,
    actor: Actor,
    count: Option<u32>,
    out: &mut Vec<u8>,
) -> Result<(), LineError>
    ensures meaning { (p : Played) → Shows (own_setting core.old) core.old out.old.items p → Follows (own_setting core.old) result core.new out.new.items (steps_on (own_setting core.old) actor count p) }
    ensures sizes { SameSizes core.old core.new }
{
    match count {
        Some(count) => play_steps(core, actor, count, out),
        None => play_all(core, actor, out),
    }
}

/// The number of a tag of a module: None where the module isn't loaded.
fn module_number(core: &Core, section: u32, index: u32) -> Option<u32>
    requires section { section < length core.now.sections }
    requires index { index < length (section_at core.now.sections section).tags }
    ensures number { result ≡ module_number index (loaded_entry section core.now.modules.list) }
    ensures within { IfSome result (λ number. number < core.now.shape.tags) }
{
    let book = core.book();
    let id = book.loaded(section)?;
    let entry = book.get(id)?;
    Some(entry.start + index)
}

/// The number of a tag.
fn tag_number(core: &Core, section: u32, index: u32) -> Option<u32>
    requires kernel { length (section_at core.now.sections 0).tags ≤ core.now.shape.tags }
    requires section { section < length core.now.sections }
    requires index { index < length (section_at core.now.sections section).tags }
    ensures number { (s : Setting) (text : List ℕ) (p : Played) → Shows s core.now text p → result ≡ number_of section index p }
    ensures within { IfSome result (λ number. number < core.now.shape.tags) }
{
    if section == 0 {
        return Some(index);
    }
    module_number(core, section, index)
}

/// Writes each CPU's words of the tag.
fn play_words(core: &Core, section: u32, index: u32, out: &mut Vec<u8>) -> Result<(), LineError>
    requires kernel { length (section_at core.now.sections 0).tags ≤ core.now.shape.tags }
    requires section { section < length core.now.sections }
    requires index { index < length (section_at core.now.sections section).tags }
    ensures { (p : Played) → Shows (own_setting core.now) core.now out.old.items p → Follows (own_setting core.now) result core.now out.new.items (words_of (own_setting core.now) section (number_of section index p) p) }
{
    match tag_number(core, section, index) {
        None => Err(LineError::Refused(Code::NotLoaded(section))),
        Some(number) => {
            write_words(core, core.cpus(), number, out)?;
            Ok(())
        }
    }
}

/// Does what a line asks for.
fn play_act(
    alloc: Global,
    core: &mut Core,
    act: StepAct,
    out: &mut Vec<u8>,
) -> Result<(), LineError>
    requires kernel { 0 < length core.old.sections }
    requires fits { length (section_at core.old.sections 0).tags ≤ core.old.shape.tags }
    requires act { IsAct core.old act }
    ensures meaning { (p : Played) → Shows (own_setting core.old) core.old out.old.items p → Follows (own_setting core.old) result core.new out.new.items (act_on (own_setting core.old) act p) }
    ensures sizes { SameSizes core.old core.new }
{
    match act {
        StepAct::Do { actor, op } => play_do(core, actor_of(actor), op_of(op)),
        StepAct::Go { actor, count } => play_go(core, actor_of(actor), count, out),
        StepAct::Print => {
            write_allocinfo(alloc, core, out)?;
            Ok(())
        }
        StepAct::Words { section, index } => play_words(core, section, index, out),
    }
}

/// Plays a line.
fn play_line(
    alloc: Global,
    core: &mut Core,
    line: StepLine,
    out: &mut Vec<u8>,
) -> Result<(), TextError>
    requires kernel { 0 < length core.old.sections }
    requires fits { length (section_at core.old.sections 0).tags ≤ core.old.shape.tags }
    requires line { IsLine core.old line }
    ensures meaning { (p : Played) → Shows (own_setting core.old) core.old out.old.items p → Plays (own_setting core.old) result core.new out.new.items (at line.line (act_on (own_setting core.old) line.act p)) }
    ensures sizes { SameSizes core.old core.new }
{
    match play_act(alloc, core, line.act, out) {
        Ok(()) => Ok(()),
        Err(error) => Err(error_at(line.line, error)),
    }
}

/// Plays the lines in their order, up to the first that is refused.
pub(crate) fn play(
    alloc: Global,
    core: &mut Core,
    lines: &[StepLine],
    out: &mut Vec<u8>,
) -> Result<(), TextError>
    requires kernel { 0 < length core.old.sections }
    requires fits { length (section_at core.old.sections 0).tags ≤ core.old.shape.tags }
    requires lines { All (IsLine core.old) lines.now }
    ensures meaning { (p : Played) → Shows (own_setting core.old) core.old out.old.items p → Plays (own_setting core.old) result core.new out.new.items (play (own_setting core.old) lines.now p) }
    ensures sizes { SameSizes core.old core.new }
{
    for line in lines {
        if let Err(error) = play_line(alloc, core, *line, out) {
            return Err(error);
        }
    }
    Ok(())
}
