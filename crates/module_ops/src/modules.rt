//! The modules of the machine: who is inside which, the module list, and what the manager does.

ghost use Rattle.std.specs.Prelude.{ℕ, ◌≡◌, ◌+◌, ◌*◌, ◌∷◌, List, ◌<◌, ◌≤◌, ◌↔◌, [], IsTrue, length, min, replicate, IfOk, OnOk, OnErr, MatchOption, drop, false};
ghost use Rattle.tag_model.specs.Shape.{IsChecked};
ghost use Rattle.tag_section.specs.Section.{Section, tags_in};
ghost use Rattle.module_area.specs.Entries.{entry_of};
ghost use Rattle.core_list.specs.ListState.{IsList, loaded_entry, load_refusal, loaded, swept_list, next_of, run_of, section_in, start_in};
ghost use Rattle.cpu_ops.specs.declared.op.TheConstants.{MAX_QUEUED};
ghost use Rattle.module_ops.specs.declared.op.ManagerOp.{ManagerOp};
ghost use Rattle.module_ops.specs.Modules.{inside_at, scene_at, modules_after, manager_refusal, manager_first, unload_refused, begins_op, unloads, swept_on, sweep_goes, event_of_sweep, managed, managed_times, manager_event, read_over, reads_next, words_ahead, TellNothing, word_in, word_read, load_refused, cause_of, kept_by, ListFits, CanManage, IsManagerOp, fresh_modules, with_managed, words_at};

use crate::event::{Cause, Event};
use crate::op::ManagerOp;
use core_list::{CoreList, Next};
use cpu_ops::{CpuWords, Inside, MAX_QUEUED, QueueError, Scene, StepRefused, WordStep};
use module_area::{AreaError, Entry};
use std::alloc::{AllocError, Global};
use std::collections::VecDeque;
use std::marker::Model;
use tag_model::{Kind, Reader, Run, Shape, Stop};
use tag_section::Sections;

/// The modules, by CPU and section, with their list, the manager's ops in order, and whether the first of these is under
/// way: then the manager holds the list.
#[derive(Drop)]
pub struct ModuleTable {
    inside: Vec<Inside>,
    list: CoreList,
    ops: VecDeque<ManagerOp>,
    under_way: bool,
}

impl Model for ModuleTable {
    ghost use Rattle.module_ops.specs.Modules.{ModuleTable};

    ghost Value = { ModuleTable };

    ghost view = { λ m. record { inside = m.inside.items; list = m.list; manager = record { ops = m.ops.items; under_way = m.under_way } } };
}

fn no_runs(alloc: Global, cpus: u32, sections: u32) -> Result<Vec<Inside>, AllocError>
    ensures { IfOk result (λ v. v.items ≡ replicate cpus (replicate sections None)) }
{
    let mut inside = Vec::with_capacity(alloc, cpus as usize)?;
    for _cpu in 0..cpus {
        inside.push(Inside::new(alloc, sections)?)?;
    }
    Ok(inside)
}

/// A run on the module of an entry.
fn run_on(entry: Entry) -> Run
    ensures { result ≡ run_of entry }
{
    Run {
        id: entry.id,
        section: entry.section,
        start: entry.start,
        length: entry.length,
    }
}

/// A CPU's word of a kind for a tag.
fn word_in(words: &[CpuWords], cpu: u32, kind: Kind, tag: u32) -> u64
    requires cpu { cpu < length words.now }
    requires tag { 2 * tag + 1 < length (words_at words.now cpu) }
    ensures { result ≡ word_in words.now cpu kind tag }
{
    words[cpu as usize].read(kind, tag)
}

/// The word that a sweep reads next.
fn word_read(words: &[CpuWords], reader: Reader) -> u64
    requires cpu { reader.cpu < length words.now }
    requires tag { 2 * reader.tag + 1 < length (words_at words.now reader.cpu) }
    ensures { result ≡ word_read words.now reader }
{
    word_in(words, reader.cpu, reader.pass, reader.tag)
}

/// The reader after so many reads, CPU by CPU.
fn read_over(words: &[CpuWords], reader: Reader, count: u32) -> Reader
    requires cpus { reader.cpu + count ≤ length words.now }
    requires few { length words.now ≤ 64 }
    requires tags { (cpu : ℕ) → cpu < length words.now → 2 * reader.tag + 1 < length (words_at words.now cpu) }
    ensures { result ≡ read_over words.now count reader }
{
    let end = reader.cpu + count;
    let mut sum = reader.sum;
    for cpu in reader.cpu..end {
        sum = sum.wrapping_add(word_in(words, cpu, reader.pass, reader.tag));
    }
    Reader {
        cpu: end,
        sum,
        ..reader
    }
}

/// Why a load is refused.
fn load_refused(section: u32, why: AreaError) -> StepRefused
    ensures { result ≡ load_refused section why }
{
    match why {
        AreaError::SameName => StepRefused::AlreadyLoaded(section),
        AreaError::BookFull => StepRefused::Full,
        AreaError::NoRoom => StepRefused::NoRoom,
        AreaError::NoSection => StepRefused::NotLoaded(section),
    }
}

/// Which op a sweep is of.
fn cause_of(op: ManagerOp) -> Cause
    ensures { (ops : List ManagerOp) → result ≡ cause_of (op ∷ ops) }
{
    match op {
        ManagerOp::Unload { .. } => Cause::Unload,
        _ => Cause::Clean,
    }
}

impl ModuleTable {
    /// No module is loaded, and no CPU is inside one.
    pub fn new(alloc: Global, shape: Shape, sections: u32) -> Result<ModuleTable, AllocError>
        requires { IsChecked shape }
        ensures { IfOk result (λ modules. modules ≡ fresh_modules shape sections) }
    {
        Ok(ModuleTable {
            inside: no_runs(alloc, shape.cpus, sections)?,
            list: CoreList::new(alloc, shape.kernel_tags, shape.tags - shape.kernel_tags)?,
            ops: VecDeque::new(alloc),
            under_way: false,
        })
    }

    /// The module list.
    pub fn list(&self) -> &CoreList
        ensures value { result.now ≡ self.now.list }
        ensures holds { IsList self.now.list }
    {
        // The book tells what holds of the list.
        let _book = self.list.book();
        &self.list
    }

    /// What the CPU sees of the modules.
    pub fn scene(&self, cpu: usize) -> Scene<'_>
        requires { cpu < length self.now.inside }
        ensures { result ≡ scene_at self.now cpu }
    {
        Scene::new(self.under_way, &self.list, &self.inside[cpu])
    }

    /// Whether the manager has nothing queued or under way.
    pub fn is_idle(&self) -> bool
        ensures { IsTrue result ↔ (self.now.manager.ops ≡ []) }
    {
        self.ops.is_empty()
    }

    /// Puts the op behind those that the manager has queued or under way.
    pub fn queue(&mut self, op: ManagerOp) -> Result<(), QueueError>
        ensures ok { OnOk result (self.new ≡ record self.old { manager = with_managed self.old.manager op }) }
        ensures full { (result ≡ Err QueueError.QueueFull) ↔ (MAX_QUEUED ≤ length self.old.manager.ops) }
        ensures err { OnErr result (self.new ≡ self.old) }
    {
        if self.ops.len() >= MAX_QUEUED {
            return Err(QueueError::QueueFull);
        }
        match self.ops.push_back(op) {
            Ok(()) => Ok(()),
            Err(_refused) => Err(QueueError::Memory(AllocError)),
        }
    }

    /// What a CPU's step changes: it goes into a module, or out of it.
    pub fn take(&mut self, step: WordStep, cpu: usize)
        requires { ListFits step self.old cpu }
        ensures { self.new ≡ modules_after step self.old cpu }
    {
        match step {
            WordStep::GoIn { section } => self.go_in(cpu, section),
            WordStep::GoOut { section } => self.go_out(cpu, section),
            WordStep::BeginAllocation { .. }
            | WordStep::AddBytes { .. }
            | WordStep::AddCall
            | WordStep::SubtractBytes { .. }
            | WordStep::SubtractCall
            | WordStep::Write { .. } => {}
        }
    }

    fn go_in(&mut self, cpu: usize, section: u32)
        requires { ListFits (WordStep.GoIn section) self.old cpu }
        ensures { self.new ≡ modules_after (WordStep.GoIn section) self.old cpu }
    {
        if let Some(entry) = cpu_ops::loaded(&self.list, section) {
            self.list.enter(entry.id);
            self.inside[cpu].set(section, Some(run_on(entry)));
        }
    }

    fn go_out(&mut self, cpu: usize, section: u32)
        requires { ListFits (WordStep.GoOut section) self.old cpu }
        ensures { self.new ≡ modules_after (WordStep.GoOut section) self.old cpu }
    {
        if let Some(run) = self.inside[cpu].run(section) {
            self.list.leave(run.id);
            self.inside[cpu].set(section, None);
        }
    }

    /// Takes the manager's next step, or says why it is refused.
    pub fn manage(
        &mut self,
        shape: Shape,
        sections: &Sections,
        words: &[CpuWords],
    ) -> Result<Event, StepRefused>
        requires { CanManage shape sections.now words.now self.old }
        ensures answer { MatchOption (manager_refusal sections.now self.old) (result ≡ Ok (manager_event shape words.now self.old)) (λ why. result ≡ Err why) }
        ensures ok { OnOk result (self.new ≡ managed shape sections.now words.now self.old) }
        ensures err { OnErr result (self.new ≡ self.old) }
    {
        let Some(op) = self.ops.front().copied() else {
            return Err(StepRefused::NoStep);
        };
        if self.under_way {
            return Ok(self.continue_sweep(shape, words, cause_of(op)));
        }
        self.begin(op, sections)?;
        Ok(Event::Stepped)
    }

    /// The first step of an op.
    fn begin(&mut self, op: ManagerOp, sections: &Sections) -> Result<(), StepRefused>
        requires op { IsManagerOp sections.now op }
        requires some_tag { (section : ℕ) → section < length sections.now → 1 ≤ tags_in sections.now section }
        ensures answer { MatchOption (manager_first sections.now self.old.list op) (result ≡ Ok tt) (λ why. result ≡ Err why) }
        ensures ok { (ops : List ManagerOp) → self.old.manager.ops ≡ op ∷ ops → OnOk result (self.new ≡ begins_op sections.now self.old op ops) }
        ensures err { OnErr result (self.new ≡ self.old) }
    {
        match op {
            ManagerOp::Load { section } => self.load(section, sections.len_of(section)),
            ManagerOp::Unload { section } => self.unload(section),
            ManagerOp::Clean => {
                self.clean();
                Ok(())
            }
        }
    }

    /// A section of so many tags is loaded, and the op is over.
    fn load(&mut self, section: u32, tags: u32) -> Result<(), StepRefused>
        requires { 1 ≤ tags }
        ensures answer { MatchOption (load_refusal section tags self.old.list) (result ≡ Ok tt) (λ why. result ≡ Err (load_refused section why)) }
        ensures ok { (op : ManagerOp) (ops : List ManagerOp) → self.old.manager.ops ≡ op ∷ ops
            → OnOk result (self.new ≡ record self.old { list = loaded section tags self.old.list; manager = record { ops = ops; under_way = false } }) }
        ensures err { OnErr result (self.new ≡ self.old) }
    {
        if let Err(why) = self.list.load(section, tags) {
            return Err(load_refused(section, why));
        }
        self.end_op();
        Ok(())
    }

    /// The section's module is dead, and a sweep of it begins.
    fn unload(&mut self, section: u32) -> Result<(), StepRefused>
        ensures answer { MatchOption (unload_refused section (loaded_entry section self.old.list)) (result ≡ Ok tt) (λ why. result ≡ Err why) }
        ensures ok { (op : ManagerOp) (ops : List ManagerOp) → self.old.manager.ops ≡ op ∷ ops
            → OnOk result (self.new ≡ unloads self.old op ops (loaded_entry section self.old.list)) }
        ensures err { OnErr result (self.new ≡ self.old) }
    {
        let Some(entry) = cpu_ops::loaded(&self.list, section) else {
            return Err(StepRefused::NotLoaded(section));
        };
        if entry.users != 0 {
            return Err(StepRefused::Busy(entry.users));
        }
        self.list.mark_dead(entry.id);
        self.end_or_hold();
        Ok(())
    }

    /// A sweep of all dead modules begins.
    fn clean(&mut self)
        ensures { (op : ManagerOp) (ops : List ManagerOp) → self.old.manager.ops ≡ op ∷ ops
            → self.new ≡ swept_on self.old op ops (swept_list self.old.list) }
    {
        self.list.sweep();
        self.end_or_hold();
    }

    /// The op goes on, or ends where nothing is left to read or to release.
    fn end_or_hold(&mut self)
        ensures { (op : ManagerOp) (ops : List ManagerOp) → self.old.manager.ops ≡ op ∷ ops
            → self.new ≡ swept_on self.old op ops self.old.list }
    {
        if self.list.next() == Next::Nothing {
            self.end_op();
        } else {
            self.under_way = true;
        }
    }

    /// The first op is over.
    fn end_op(&mut self)
        ensures { self.new ≡ record self.old { manager = record { ops = drop 1 self.old.manager.ops; under_way = false } } }
    {
        self.ops.pop_front();
        self.under_way = false;
    }

    /// A sweep takes its next step, and the op goes on.
    fn continue_sweep(&mut self, shape: Shape, words: &[CpuWords], by: Cause) -> Event
        requires { (sections : List Section) × CanManage shape sections words.now self.old }
        ensures told { result ≡ event_of_sweep shape words.now self.old.list by (next_of self.old.list.sweep) }
        ensures after { (op : ManagerOp) (ops : List ManagerOp) → self.old.manager.ops ≡ op ∷ ops
            → self.new ≡ swept_on self.old op ops (sweep_goes shape words.now self.old.list (next_of self.old.list.sweep)) }
    {
        let event = self.sweep_on(shape, words, by);
        self.end_or_hold();
        event
    }

    /// The sweep reads on in its tag: at most so many words, and not that of the last CPU. The answer is how many it
    /// read. Each is a step of the manager, which isn't refused and tells nothing.
    pub fn read_on(&mut self, shape: Shape, words: &[CpuWords], most: u32) -> u32
        requires { (sections : List Section) × CanManage shape sections words.now self.old }
        ensures count { result ≡ min most (words_ahead shape self.old) }
        ensures after { (sections : List Section) → self.new ≡ managed_times shape sections words.now result self.old }
        ensures quiet { (sections : List Section) → TellNothing shape sections words.now result self.old }
    {
        let Some(reader) = self.reads_next() else {
            return 0;
        };
        let count = most.min(shape.cpus - 1 - reader.cpu);
        let next = read_over(words, reader, count);
        self.list.read_to(next.cpu, next.sum);
        count
    }

    /// The word that the manager's next step reads, if it reads one.
    fn reads_next(&self) -> Option<Reader>
        ensures value { result ≡ reads_next self.now }
        ensures holds { IsList self.now.list }
    {
        let next = self.list().next();
        match (self.ops.front(), self.under_way, next) {
            (Some(_op), true, Next::Read(reader)) => Some(reader),
            _ => None,
        }
    }

    /// The sweep reads a word, or releases a module.
    fn sweep_on(&mut self, shape: Shape, words: &[CpuWords], by: Cause) -> Event
        requires { (sections : List Section) × CanManage shape sections words.now self.old }
        ensures told { result ≡ event_of_sweep shape words.now self.old.list by (next_of self.old.list.sweep) }
        ensures after { self.new ≡ record self.old { list = sweep_goes shape words.now self.old.list (next_of self.old.list.sweep) } }
    {
        match self.list().next() {
            Next::Nothing => Event::Stepped,
            Next::Read(reader) => {
                let found = self.list.scan(shape, word_read(words, reader));
                self.found_event(found, by)
            }
            Next::Release(id) => {
                let section = self.section_of(id);
                self.list.release();
                Event::Released { section, by }
            }
        }
    }

    /// The read that takes a module off the sweep's list is told.
    fn found_event(&self, found: Option<Stop>, by: Cause) -> Event
        ensures { result ≡ kept_by by self.now.list.area.entries found }
    {
        match found {
            None => Event::Stepped,
            Some(stop) => Event::Kept {
                section: self.section_of(stop.id),
                index: stop.tag.saturating_sub(self.start_of(stop.id)),
                kind: stop.kind,
                sum: stop.sum,
                by,
            },
        }
    }

    fn section_of(&self, id: u32) -> u32
        ensures { result ≡ section_in (entry_of self.now.list.area.entries id) }
    {
        match self.list.book().get(id) {
            Some(entry) => entry.section,
            None => 0,
        }
    }

    fn start_of(&self, id: u32) -> u32
        ensures { result ≡ start_in (entry_of self.now.list.area.entries id) }
    {
        match self.list.book().get(id) {
            Some(entry) => entry.start,
            None => 0,
        }
    }
}
