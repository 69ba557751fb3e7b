//! The core: every CPU's words, hand and ops, every place, and the modules, on plain vectors.

ghost use Rattle.std.specs.Prelude.{All, [], ◌≡◌, ℕ, ◌*◌, ◌+◌, ◌<◌, ◌≤◌, ◌↔◌, length, min, replicate, MatchOption, IfOk, IsOkAnd, OnOk, OnErr, Some, None, List, IsTrue};
ghost use Rattle.tag_model.specs.Shape.{IsChecked};
ghost use Rattle.tag_model.specs.StepRules.{StepsWith};
ghost use Rattle.tag_model.specs.Laws.{Safe};
ghost use Rattle.cpu_ops.specs.declared.op.TheConstants.{MAX_QUEUED};
ghost use Rattle.cpu_ops.specs.Machine.{waiting_at, queued_on};
ghost use Rattle.cpu_ops.specs.MayQueue.{IsOp};
ghost use Rattle.module_ops.specs.Modules.{IsManagerOp, with_managed, words_ahead, words_at};
ghost use Rattle.core_steps.specs.CoreState.{total_of};

use crate::op::{Actor, Event, MAX_QUEUED, Op, QueueError, StepRefused};
use cpu_ops::{CpuOp, CpuWords, Machine};
use module_area::Book;
use module_ops::{ManagerOp, ModuleTable};
use std::alloc::{AllocError, Global};
use std::marker::Model;
use tag_model::{Kind, Shape};
use tag_section::Sections;

/// The word machine.
#[derive(Drop)]
pub struct Core {
    shape: Shape,
    sections: Sections,
    machine: Machine,
    words: Vec<CpuWords>,
    modules: ModuleTable,
}

impl Model for Core {
    ghost use Rattle.core_steps.specs.CoreState.{CoreState, IsCore};

    ghost Value = { CoreState };

    ghost view = { λ c. record { shape = c.shape; sections = c.sections; machine = c.machine; words = c.words.items; modules = c.modules } };

    ghost invariant = { λ c. IsCore (record { shape = c.shape; sections = c.sections; machine = c.machine; words = c.words.items; modules = c.modules }) };
}

fn no_words(alloc: Global, cpus: u32, tags: u32) -> Result<Vec<CpuWords>, AllocError>
    ensures { IfOk result (λ v. v.items ≡ replicate cpus (replicate (2 * tags) 0)) }
{
    let mut words = Vec::with_capacity(alloc, cpus as usize)?;
    for _cpu in 0..cpus {
        words.push(CpuWords::new(alloc, tags)?)?;
    }
    Ok(words)
}

/// The words of a kind of a tag, added over the CPUs. They wrap.
fn total(words: &[CpuWords], kind: Kind, tag: u32) -> u64
    requires { (cpu : ℕ) → cpu < length words.now → 2 * tag + 1 < length (words_at words.now cpu) }
    ensures { result ≡ total_of words.now kind tag }
{
    let mut total = 0u64;
    for own in words {
        total = total.wrapping_add(own.read(kind, tag));
    }
    total
}

impl Core {
    ghost use Rattle.module_area.specs.Area.{IsBook};
    ghost use Rattle.core_steps.specs.CoreState.{CoreState, IsCore, IsActor, IsOpOf, EntryFits, SectionsFitShape, fresh, queued, ops_of, refused, stepped, event_of, reads_of, state_after, word_state, word_at};
    ghost use Rattle.cpu_ops.specs.MayQueue.{IsOp};
    ghost use Rattle.module_ops.specs.Modules.{IsManagerOp};
    ghost use Rattle.core_steps.specs.ReadOn.{TellsNothing, after_manager};
    ghost use Rattle.core_steps.specs.Laws.{IsIdle};
    ghost use Rattle.core_steps.specs.Release.{IfKept, IfReleases, IsKept, TellsRelease};
    ghost use Rattle.module_area.specs.Entries.{entry_of};
    ghost use Rattle.module_area.specs.declared.entry.Entry.{Entry};
    ghost use Rattle.module_ops.specs.Modules.{cause_of};
    ghost use Rattle.tag_model.specs.Laws.{live_of};
    ghost use Rattle.tag_model.specs.Reference.{live_total};
    ghost use Rattle.tag_model.specs.declared.state.Kind.{Kind};
    ghost use Rattle.core_steps.specs.Told.{EventFits};
    ghost use Rattle.core_steps.specs.StepsLeft.{steps_left, cpu_steps_left, manager_steps_left};
    ghost use Rattle.core_steps.specs.Moved.{HasMoved, moved_on};
    ghost use Rattle.tag_model.specs.Moves.{Move};
    ghost use Rattle.std.specs.Prelude.{sum_by};
    ghost use Rattle.tag_model.specs.Wrap.{wrap};
    ghost use Rattle.tag_model.specs.WordState.{counted};
    ghost use Rattle.tag_model.specs.declared.state.Kind.TheVariants.{Bytes, Calls};

    /// All words are 0, no key holds anything, no module is loaded, and nothing is queued.
    pub fn new(alloc: Global, shape: Shape, sections: Sections) -> Result<Core, AllocError>
        requires shape { IsChecked shape }
        requires sections { SectionsFitShape shape sections }
        ensures value { IfOk result (λ core. core ≡ fresh shape sections) }
        ensures safe { IfOk result (λ core. Safe shape (word_state core)) }
        // It has moved nothing.
        ensures moved { IfOk result (λ core. HasMoved core []) }
    {
        Ok(Core {
            shape,
            machine: Machine::new(alloc, shape.cpus)?,
            words: no_words(alloc, shape.cpus, shape.tags)?,
            modules: ModuleTable::new(alloc, shape, sections.count())?,
            sections,
        })
    }

    /// Puts the op behind those that the actor has queued or under way.
    pub fn queue(&mut self, actor: Actor, op: Op) -> Result<(), QueueError>
        requires actor { IsActor self.old actor }
        requires op { IsOpOf self.old.sections actor op }
        ensures ok { OnOk result (self.new ≡ queued self.old actor op) }
        ensures full { (result ≡ Err QueueError.QueueFull) ↔ (MAX_QUEUED ≤ length (ops_of self.old actor)) }
        ensures err { OnErr result (self.new ≡ self.old) }
        ensures safe { Safe self.new.shape (word_state self.new) }
    {
        let told = match actor {
            Actor::Cpu(cpu) => match op.of_cpu() {
                Some(op) => self.queue_on(cpu, op),
                None => Ok(()),
            },
            Actor::Manager => match op.of_manager() {
                Some(op) => self.queue_for_manager(op),
                None => Ok(()),
            },
        };
        self.tell();
        told
    }

    fn queue_on(&mut self, cpu: u32, op: CpuOp) -> Result<(), QueueError>
        requires cpu { cpu < self.old.shape.cpus }
        requires op { IsOp self.old.sections op }
        ensures ok { OnOk result (self.new ≡ record self.old { machine = queued_on self.old.machine cpu op }) }
        ensures full { (result ≡ Err QueueError.QueueFull) ↔ (MAX_QUEUED ≤ length (waiting_at self.old.machine cpu).ops) }
        ensures err { OnErr result (self.new ≡ self.old) }
    {
        self.machine.queue(cpu as usize, op)
    }

    fn queue_for_manager(&mut self, op: ManagerOp) -> Result<(), QueueError>
        requires { IsManagerOp self.old.sections op }
        ensures ok { OnOk result (self.new ≡ record self.old { modules = record self.old.modules { manager = with_managed self.old.modules.manager op } }) }
        ensures full { (result ≡ Err QueueError.QueueFull) ↔ (MAX_QUEUED ≤ length self.old.modules.manager.ops) }
        ensures err { OnErr result (self.new ≡ self.old) }
    {
        self.modules.queue(op)
    }

    /// Takes the next step of the actor's first op.
    pub fn go(&mut self, actor: Actor) -> Result<Event, StepRefused>
        // Each refusal comes exactly at its state, and each event.
        ensures answer { MatchOption (refused self.old actor) (result ≡ Ok (event_of self.old actor)) (λ r. result ≡ Err r) }
        ensures ok { OnOk result (self.new ≡ stepped self.old actor) }
        ensures err { OnErr result (self.new ≡ self.old) }
        // A step that is taken is one of the step rules, and every state is safe.
        ensures row { (reads : ℕ) → OnOk result (StepsWith self.old.shape (state_after reads self.old) (state_after (reads + reads_of self.old actor) self.new)) }
        ensures safe { Safe self.new.shape (word_state self.new) }
        ensures left { OnOk result (steps_left self.new actor < steps_left self.old actor) }
        // A module is released only where it is dead, and no place and no hand names it.
        ensures released { IfOk result (IfReleases self.old) }
        // A module that is gone was told as released.
        ensures gone { (id : ℕ) (e : Entry) → entry_of self.old.modules.list.area.entries id ≡ Some e → entry_of self.new.modules.list.area.entries id ≡ None → IsOkAnd result (TellsRelease e.section) }
        // A range is kept exactly where the last CPU's word of a tag is read, and its sum isn't 0.
        ensures kept { IfOk result (IfKept self.old) }
        ensures keeps { (section index : ℕ) (kind : Kind) (sum : ℕ) → actor ≡ Actor.Manager → IsKept self.old section index kind sum → result ≡ Ok (Event.Kept section index kind sum (cause_of self.old.modules.manager.ops)) }
        // What is told names a module's section, and one of its tags.
        ensures told { IfOk result (EventFits self.old.sections) }
        // Words stay the sums of the moves.
        ensures moved { (moves : List Move) → HasMoved self.old moves → OnOk result (self.new ≡ moved_on self.old actor moves) }
    {
        self.tell();
        let told = match actor {
            Actor::Cpu(cpu) => self.go_cpu(cpu),
            Actor::Manager => self.go_manager(),
        };
        self.tell();
        told
    }

    /// The sweep of the manager reads on in its tag: so many words at most, and not that of the last CPU. The answer is
    /// how many steps of the manager that is. None of them is refused, and none tells anything.
    pub fn read_on(&mut self, most: u32) -> u32
        ensures count { result ≡ min most (words_ahead self.old.shape self.old.modules) }
        ensures state { self.new ≡ after_manager self.old result }
        ensures quiet { TellsNothing result self.old }
        ensures left { steps_left self.new Actor.Manager + result ≤ steps_left self.old Actor.Manager }
        ensures safe { Safe self.new.shape (word_state self.new) }
    {
        self.tell();
        let count = self
            .modules
            .read_on(self.shape, self.words.as_slice(), most);
        self.tell();
        count
    }

    fn go_cpu(&mut self, cpu: u32) -> Result<Event, StepRefused>
        ensures answer { MatchOption (refused self.old (Actor.Cpu cpu)) (result ≡ Ok Event.Stepped) (λ why. result ≡ Err why) }
        ensures ok { OnOk result (self.new ≡ stepped self.old (Actor.Cpu cpu)) }
        ensures err { OnErr result (self.new ≡ self.old) }
    {
        if cpu >= self.shape.cpus {
            return Err(StepRefused::NoStep);
        }
        let at = cpu as usize;
        let step = self
            .machine
            .step(at, &self.modules.scene(at), &mut self.words[at])?;
        self.modules.take(step, at);
        Ok(Event::Stepped)
    }

    fn go_manager(&mut self) -> Result<Event, StepRefused>
        ensures answer { MatchOption (refused self.old Actor.Manager) (result ≡ Ok (event_of self.old Actor.Manager)) (λ r. result ≡ Err r) }
        ensures ok { OnOk result (self.new ≡ stepped self.old Actor.Manager) }
        ensures err { OnErr result (self.new ≡ self.old) }
    {
        self.modules
            .manage(self.shape, &self.sections, self.words.as_slice())
    }

    /// The modules that are loaded or dead.
    pub fn book(&self) -> &Book
        ensures value { result.now ≡ self.now.modules.list.area }
        ensures formed { IsBook result.now }
        // Its entries are of modules' sections, each with the section's tags, and lie in the shape.
        ensures entries { All (EntryFits self.now.sections) result.now.entries }
        ensures within { result.now.first + result.now.tags ≡ self.now.shape.tags }
    {
        self.tell();
        self.modules.list().book()
    }

    /// The sections that the core was made with.
    pub fn sections(&self) -> &Sections
        ensures { result.now ≡ self.now.sections }
    {
        &self.sections
    }

    /// How many CPUs there are.
    pub fn cpus(&self) -> u32
        ensures { result ≡ self.now.shape.cpus }
    {
        self.shape.cpus
    }

    /// Whether the actor has nothing queued or under way. A CPU that the shape doesn't have has not.
    pub fn idle(&self, actor: Actor) -> bool
        ensures empty { IsTrue result ↔ (ops_of self.now actor ≡ []) }
        ensures left { IsTrue result ↔ (steps_left self.now actor ≡ 0) }
    {
        match actor {
            Actor::Cpu(cpu) => self.is_idle(cpu),
            Actor::Manager => self.is_manager_idle(),
        }
    }

    fn is_idle(&self, cpu: u32) -> bool
        ensures empty { IsTrue result ↔ ((waiting_at self.now.machine cpu).ops ≡ []) }
        ensures left { IsTrue result ↔ (cpu_steps_left self.now.machine cpu ≡ 0) }
    {
        self.machine.is_idle(cpu as usize)
    }

    fn is_manager_idle(&self) -> bool
        ensures empty { IsTrue result ↔ (self.now.modules.manager.ops ≡ []) }
        ensures left { IsTrue result ↔ (manager_steps_left self.now.shape self.now.modules ≡ 0) }
    {
        self.modules.is_idle()
    }

    /// The tag's byte words and call words, added over the CPUs. They wrap.
    pub fn totals(&self, tag: u32) -> (u64, u64)
        requires { tag < self.now.shape.tags }
        ensures bytes { result.0 ≡ total_of self.now.words Bytes tag }
        ensures calls { result.1 ≡ total_of self.now.words Calls tag }
        // They are what is counted under the tag.
        ensures counted_bytes { result.0 ≡ wrap (sum_by (counted Bytes tag) (word_state self.now)) }
        ensures counted_calls { result.1 ≡ wrap (sum_by (counted Calls tag) (word_state self.now)) }
        // Where no actor has an op, they are the bytes and the references of the live list.
        ensures live_bytes { IsIdle self.now → result.0 ≡ live_total Bytes tag (live_of (word_state self.now)) }
        ensures live_calls { IsIdle self.now → result.1 ≡ live_total Calls tag (live_of (word_state self.now)) }
    {
        let words = self.words.as_slice();
        (
            total(words, Kind::Bytes, tag),
            total(words, Kind::Calls, tag),
        )
    }

    /// A CPU's own byte word and call word of the tag.
    pub fn cpu_word(&self, cpu: u32, tag: u32) -> (u64, u64)
        requires cpu { cpu < self.now.shape.cpus }
        requires tag { tag < self.now.shape.tags }
        ensures bytes { result.0 ≡ word_at self.now.words cpu Bytes tag }
        ensures calls { result.1 ≡ word_at self.now.words cpu Calls tag }
    {
        let own = &self.words[cpu as usize];
        (own.read(Kind::Bytes, tag), own.read(Kind::Calls, tag))
    }

    /// Tells what holds of every core, and does nothing.
    pub fn tell(&self)
        ensures { IsCore self.now }
    {
        let _shape = self.shape;
    }
}
