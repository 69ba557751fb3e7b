//! Schedules whose words and events are known, played step by step.

ghost use Rattle.std.specs.Prelude.{◌≡◌, ◌<◌, ◌≤◌, ◌&&◌, ℕ, nat_lt, length, IsTrue, IfOk};
ghost use Rattle.core_steps.specs.CoreState.{IsOpOf};
ghost use Rattle.cpu_ops.specs.MayQueue.{IsModule, IsSplit};
ghost use Rattle.tag_section.specs.Section.{tags_in};

use crate::machine::Core;
use crate::op::{Actor, Cause, Event, KEY_END, MAX_PARTS, Op, QueueError, StepRefused};
use crate::run::run_steps;
use codetag::{CodeTag, TagError};
use std::alloc::Global;
use std::process::Abort;
use std::test::Fail;
use tag_model::{Kind, SIZE_END, Shape};
use tag_section::Sections;

const KERNEL_TAGS: u32 = 128;

/// The tags whose words are looked at: the kernel's, and the first of the module area.
const TAGS: u32 = 129;

const EXT: u32 = 1;

const TWO: u32 = 2;

/// What is done to a core, and what it must then tell.
#[derive(Clone, Copy)]
enum Play {
    /// The actor's op is queued.
    Do(Actor, Op),
    /// The actor takes so many steps, which tell nothing.
    Go(Actor, u32),
    /// The manager takes so many steps that tell nothing, and then one that tells this.
    Tells(u32, Event),
    /// The actor's next step is refused.
    Refused(Actor, StepRefused),
    /// The tag's words, added over the CPUs.
    Total(u32, u64, u64),
    /// A CPU's own words of the tag.
    Words(u32, u32, u64, u64),
    /// Whether the actor's queue is empty.
    Idle(Actor, bool),
}

fn is_key(key: u32) -> bool
    ensures { result ≡ (nat_lt 0 key && nat_lt key KEY_END) }
{
    0 < key && key < KEY_END
}

fn split_fits(key: u32, parts: u32, first: u32) -> bool
    ensures { IsTrue result → IsSplit key parts first }
{
    is_key(key)
        && 2 <= parts
        && parts <= MAX_PARTS
        && is_key(first)
        && first + parts - 2 < KEY_END
        && (key < first || first + parts <= key + 1)
}

fn is_module(sections: &Sections, section: u32) -> bool
    ensures { IsTrue result → IsModule sections.now section }
{
    0 < section && section < sections.count()
}

/// Whether the op may be queued on a CPU.
fn fits(sections: &Sections, op: Op) -> bool
    ensures { IsTrue result → IsOpOf sections.now (Actor.Cpu 0) op }
{
    match op {
        Op::Open {
            key,
            section,
            index,
            size,
        } => {
            is_key(key)
                && section < sections.count()
                && index < sections.len_of(section)
                && 0 < size
                && size < SIZE_END
        }
        Op::Close { key } => is_key(key),
        Op::Split { key, parts, first } => split_fits(key, parts, first),
        Op::Swap { one, two } => is_key(one) && is_key(two) && one != two,
        Op::Trim { key, bytes } => is_key(key) && 0 < bytes && bytes < SIZE_END,
        Op::Enter { section } | Op::Leave { section } => is_module(sections, section),
        Op::Load { .. } | Op::Unload { .. } | Op::Clean => false,
    }
}

/// Whether the op may be queued for the manager.
fn manager_fits(sections: &Sections, op: Op) -> bool
    ensures { IsTrue result → IsOpOf sections.now Actor.Manager op }
{
    match op {
        Op::Load { section } | Op::Unload { section } => is_module(sections, section),
        Op::Clean => true,
        Op::Open { .. }
        | Op::Close { .. }
        | Op::Split { .. }
        | Op::Swap { .. }
        | Op::Trim { .. }
        | Op::Enter { .. }
        | Op::Leave { .. } => false,
    }
}

fn queue(core: &mut Core, actor: Actor, op: Op) -> Result<bool, QueueError>
    ensures { core.new.shape ≡ core.old.shape }
{
    match actor {
        Actor::Cpu(cpu) => {
            if cpu >= core.cpus() || !fits(core.sections(), op) {
                return Ok(false);
            }
            core.queue(Actor::Cpu(cpu), op)?;
        }
        Actor::Manager => {
            if !manager_fits(core.sections(), op) {
                return Ok(false);
            }
            core.queue(Actor::Manager, op)?;
        }
    }
    Ok(true)
}

#[tactic(auto, using(crate::proofs::Runs::stepped_shape))]
fn step(core: &mut Core, actor: Actor) -> Result<Event, StepRefused>
    ensures { core.new.shape ≡ core.old.shape }
{
    core.go(actor)
}

/// Whether so many steps tell nothing.
fn are_quiet(core: &mut Core, actor: Actor, steps: u32) -> bool
    ensures { core.new.shape ≡ core.old.shape }
{
    for _step in 0..steps {
        if step(core, actor) != Ok(Event::Stepped) {
            return false;
        }
    }
    true
}

fn tells(core: &mut Core, quiet: u32, event: Event) -> bool
    ensures { core.new.shape ≡ core.old.shape }
{
    if !are_quiet(core, Actor::Manager, quiet) {
        return false;
    }
    step(core, Actor::Manager) == Ok(event)
}

/// Whether the core does and tells this.
fn act(core: &mut Core, play: Play) -> Result<bool, QueueError>
    requires { TAGS ≤ core.old.shape.tags }
    ensures { core.new.shape ≡ core.old.shape }
{
    match play {
        Play::Do(actor, op) => queue(core, actor, op),
        Play::Go(actor, steps) => Ok(are_quiet(core, actor, steps)),
        Play::Tells(quiet, event) => Ok(tells(core, quiet, event)),
        Play::Refused(actor, refused) => Ok(step(core, actor) == Err(refused)),
        Play::Total(tag, bytes, calls) => Ok(tag < TAGS && core.totals(tag) == (bytes, calls)),
        Play::Words(cpu, tag, bytes, calls) => {
            Ok(cpu < core.cpus() && tag < TAGS && core.cpu_word(cpu, tag) == (bytes, calls))
        }
        Play::Idle(actor, idle) => Ok(core.idle(actor) == idle),
    }
}

fn tag(alloc: Global, file: &[u8], line: u64, function: &[u8]) -> Result<CodeTag, TagError> {
    CodeTag::new(alloc, file, line, function)
}

/// The kernel has two tags, and each of two modules has one.
fn program(alloc: Global) -> Result<Sections, Fail> {
    let mut sections = Sections::new(alloc);
    let _kernel = sections.begin(b"kernel")?;
    sections.add_line(tag(alloc, b"mm/a.c", 10, b"fa")?)?;
    sections.add_line(tag(alloc, b"mm/b.c", 20, b"fb")?)?;
    let _ext = sections.begin(b"ext")?;
    sections.add_line(tag(alloc, b"m/x.c", 5, b"fx")?)?;
    let _two = sections.begin(b"two")?;
    sections.add_line(tag(alloc, b"m/y.c", 7, b"fy")?)?;
    Ok(sections)
}

fn assert_tags(rt: &impl Abort, sections: &Sections)
    ensures kernel { 0 < length sections.now }
    ensures kernel_fits { tags_in sections.now 0 ≤ KERNEL_TAGS }
    ensures some_tag { (section : ℕ) → section < length sections.now → 1 ≤ tags_in sections.now section }
{
    assert!(rt; 0 < sections.count());
    assert!(rt; sections.len_of(0) <= KERNEL_TAGS);
    for section in 0..sections.count() {
        assert!(rt; 1 <= sections.len_of(section));
    }
}

/// A core of so many CPUs, with so many tags of the module area.
fn start(rt: &impl Abort, alloc: Global, cpus: u32, area: u32) -> Result<Core, Fail>
    ensures { IfOk result (λ core. TAGS ≤ core.shape.tags) }
{
    assert!(rt; 1 <= area && area <= 896);
    let shape = Shape {
        cpus,
        tags: KERNEL_TAGS + area,
        kernel_tags: KERNEL_TAGS,
        frames: 0,
        vectors: 0,
    };
    let shape = shape.check()?;
    assert!(rt; shape.kernel_tags == KERNEL_TAGS && TAGS <= shape.tags);
    let sections = program(alloc)?;
    assert_tags(rt, &sections);
    Ok(Core::new(alloc, shape, sections)?)
}

fn play_all(
    rt: &impl Abort,
    alloc: Global,
    cpus: u32,
    area: u32,
    plays: &[Play],
) -> Result<(), Fail> {
    let mut core = start(rt, alloc, cpus, area)?;
    for (place, play) in plays.iter().enumerate() {
        assert!(rt; act(&mut core, *play)?, "{place}");
    }
    Ok(())
}

fn open(key: u32, section: u32, index: u32, size: u64) -> Op {
    Op::Open {
        key,
        section,
        index,
        size,
    }
}

fn close(key: u32) -> Op {
    Op::Close { key }
}

fn split(key: u32, parts: u32, first: u32) -> Op {
    Op::Split { key, parts, first }
}

fn trim(key: u32, bytes: u64) -> Op {
    Op::Trim { key, bytes }
}

fn enter(section: u32) -> Op {
    Op::Enter { section }
}

fn leave(section: u32) -> Op {
    Op::Leave { section }
}

fn load(section: u32) -> Op {
    Op::Load { section }
}

fn unload(section: u32) -> Op {
    Op::Unload { section }
}

/// The range of a section of one tag is kept.
fn kept(section: u32, kind: Kind, sum: u64, by: Cause) -> Event {
    Event::Kept {
        section,
        index: 0,
        kind,
        sum,
        by,
    }
}

fn released(section: u32, by: Cause) -> Event {
    Event::Released { section, by }
}

const ZERO: Actor = Actor::Cpu(0);

const ONE: Actor = Actor::Cpu(1);

const MANAGER: Actor = Actor::Manager;

#[test]
fn a_free_on_another_cpu_wraps_its_words(rt: HostRuntime) -> Result<(), Fail> {
    play_all(
        &rt,
        rt.alloc(),
        4,
        896,
        &[
            Play::Do(ZERO, open(1, 0, 0, 4096)),
            Play::Go(ZERO, 3),
            Play::Do(ONE, close(1)),
            Play::Idle(ONE, false),
            Play::Go(ONE, 3),
            Play::Idle(ONE, true),
            Play::Idle(Actor::Cpu(4), true),
            Play::Total(0, 0, 0),
            Play::Words(0, 0, 4096, 1),
            Play::Words(1, 0, 18_446_744_073_709_547_520, 18_446_744_073_709_551_615),
            Play::Words(2, 0, 0, 0),
            Play::Refused(ONE, StepRefused::NoStep),
            Play::Refused(Actor::Cpu(4), StepRefused::NoStep),
        ],
    )
}

#[test]
fn an_uneven_split_is_refused(rt: HostRuntime) -> Result<(), Fail> {
    play_all(
        &rt,
        rt.alloc(),
        4,
        896,
        &[
            Play::Do(ZERO, open(1, 0, 0, 10)),
            Play::Do(ZERO, split(1, 3, 2)),
            Play::Go(ZERO, 3),
            Play::Refused(ZERO, StepRefused::Uneven),
        ],
    )
}

#[test]
fn a_trim_leaves_some_bytes(rt: HostRuntime) -> Result<(), Fail> {
    play_all(
        &rt,
        rt.alloc(),
        4,
        896,
        &[
            Play::Do(ZERO, open(1, 0, 0, 12_288)),
            Play::Do(ZERO, trim(1, 4096)),
            Play::Go(ZERO, 6),
            Play::Total(0, 8192, 1),
            Play::Do(ZERO, trim(1, 8192)),
            Play::Refused(ZERO, StepRefused::TooSmall),
        ],
    )
}

#[test]
fn a_key_of_a_swap_under_way_is_not_freed(rt: HostRuntime) -> Result<(), Fail> {
    play_all(
        &rt,
        rt.alloc(),
        4,
        896,
        &[
            Play::Do(ZERO, open(1, 0, 0, 100)),
            Play::Do(ZERO, open(2, 0, 1, 200)),
            Play::Go(ZERO, 6),
            Play::Do(ONE, Op::Swap { one: 1, two: 2 }),
            Play::Go(ONE, 1),
            Play::Total(0, 100, 1),
            Play::Total(1, 200, 1),
            Play::Do(ZERO, close(1)),
            Play::Refused(ZERO, StepRefused::NotLive(1)),
            Play::Go(ONE, 2),
            Play::Go(ZERO, 3),
            Play::Total(0, 100, 1),
            Play::Total(1, 0, 0),
        ],
    )
}

// A call is seen by the second pass alone.
#[test]
fn a_clean_follows_a_kept_range(rt: HostRuntime) -> Result<(), Fail> {
    play_all(
        &rt,
        rt.alloc(),
        2,
        896,
        &[
            Play::Do(MANAGER, load(EXT)),
            Play::Go(MANAGER, 1),
            Play::Do(ZERO, enter(EXT)),
            Play::Do(ZERO, open(1, EXT, 0, 64)),
            Play::Do(ZERO, leave(EXT)),
            Play::Go(ZERO, 5),
            Play::Do(ONE, close(1)),
            Play::Go(ONE, 2),
            Play::Do(MANAGER, unload(EXT)),
            Play::Tells(4, kept(EXT, Kind::Calls, 1, Cause::Unload)),
            Play::Idle(MANAGER, true),
            Play::Go(ONE, 1),
            Play::Do(MANAGER, Op::Clean),
            Play::Tells(5, released(EXT, Cause::Clean)),
            Play::Idle(MANAGER, true),
        ],
    )
}

#[test]
fn a_module_with_a_cpu_inside_is_busy(rt: HostRuntime) -> Result<(), Fail> {
    play_all(
        &rt,
        rt.alloc(),
        2,
        896,
        &[
            Play::Do(MANAGER, load(EXT)),
            Play::Go(MANAGER, 1),
            Play::Do(ZERO, enter(EXT)),
            Play::Go(ZERO, 1),
            Play::Do(MANAGER, unload(EXT)),
            Play::Refused(MANAGER, StepRefused::Busy(1)),
        ],
    )
}

#[test]
fn the_manager_holds_the_list(rt: HostRuntime) -> Result<(), Fail> {
    play_all(
        &rt,
        rt.alloc(),
        2,
        896,
        &[
            Play::Do(MANAGER, load(EXT)),
            Play::Go(MANAGER, 1),
            Play::Do(MANAGER, unload(EXT)),
            Play::Go(MANAGER, 2),
            Play::Do(ZERO, enter(EXT)),
            Play::Refused(ZERO, StepRefused::ListHeld),
        ],
    )
}

// All bytes are read before any call word.
#[test]
fn a_sweep_reads_bytes_before_calls(rt: HostRuntime) -> Result<(), Fail> {
    play_all(
        &rt,
        rt.alloc(),
        2,
        896,
        &[
            Play::Do(MANAGER, load(EXT)),
            Play::Do(MANAGER, load(TWO)),
            Play::Go(MANAGER, 2),
            Play::Do(ZERO, enter(EXT)),
            Play::Do(ZERO, open(1, EXT, 0, 64)),
            Play::Do(ZERO, leave(EXT)),
            Play::Do(ZERO, enter(TWO)),
            Play::Do(ZERO, open(2, TWO, 0, 32)),
            Play::Do(ZERO, leave(TWO)),
            Play::Go(ZERO, 10),
            Play::Do(MANAGER, unload(EXT)),
            Play::Do(MANAGER, unload(TWO)),
            Play::Tells(2, kept(EXT, Kind::Bytes, 64, Cause::Unload)),
            Play::Tells(2, kept(TWO, Kind::Bytes, 32, Cause::Unload)),
            Play::Idle(MANAGER, true),
            Play::Do(ONE, close(1)),
            Play::Go(ONE, 2),
            Play::Do(MANAGER, Op::Clean),
            Play::Tells(4, kept(TWO, Kind::Bytes, 32, Cause::Clean)),
            Play::Tells(1, kept(EXT, Kind::Calls, 1, Cause::Clean)),
            Play::Idle(MANAGER, true),
        ],
    )
}

#[test]
fn steps_run_until_one_is_refused(rt: HostRuntime) -> Result<(), Fail> {
    let mut core = start(&rt, rt.alloc(), 4, 896)?;
    assert!(rt; act(&mut core, Play::Do(ZERO, open(1, 0, 0, 4096)))?);
    assert!(rt; act(&mut core, Play::Do(ONE, open(1, 0, 0, 64)))?);
    assert_eq!(rt; run_steps(&mut core, &[ZERO, ZERO, ONE, ZERO]), 2);
    assert_eq!(rt; run_steps(&mut core, &[ZERO]), 1);
    Ok(())
}

// With two CPUs a sweep reads on over one word of a tag, and the last CPU's word is a step of its own.
#[test]
fn a_sweep_reads_on(rt: HostRuntime) -> Result<(), Fail> {
    let mut core = start(&rt, rt.alloc(), 2, 896)?;
    assert_eq!(rt; core.read_on(5), 0);
    assert!(rt; act(&mut core, Play::Do(MANAGER, load(EXT)))?);
    assert!(rt; act(&mut core, Play::Do(MANAGER, unload(EXT)))?);
    assert!(rt; act(&mut core, Play::Go(MANAGER, 2))?);
    assert_eq!(rt; core.read_on(0), 0);
    assert_eq!(rt; core.read_on(5), 1);
    assert_eq!(rt; core.read_on(5), 0);
    assert!(rt; act(&mut core, Play::Go(MANAGER, 1))?);
    assert_eq!(rt; core.read_on(5), 1);
    assert!(rt; act(&mut core, Play::Go(MANAGER, 1))?);
    assert!(rt; act(&mut core, Play::Tells(0, released(EXT, Cause::Unload)))?);
    Ok(())
}
