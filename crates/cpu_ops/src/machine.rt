//! The machine without its words: hands by CPU, places by key, and the ops of each CPU.

ghost use Rattle.std.specs.Prelude.{◌≡◌, ◌<◌, ◌≤◌, ◌↔◌, [], ℕ, IsTrue, IsOkAnd, IfOk, OnOk, OnErr, MatchOption, length, replicate, Some};
ghost use Rattle.cpu_ops.specs.declared.op.TheConstants.{KEY_END, MAX_QUEUED};
ghost use Rattle.cpu_ops.specs.Machine.{held_at, waiting_at, nothing_waits, is_reserved, refusal_of, step_at, after_step, own_words_after, queued_on, fresh_machine};
ghost use Rattle.cpu_ops.specs.Needs.{CanGo};

use crate::op::{CpuOp, KEY_END, MAX_QUEUED};
use crate::refused::{QueueError, StepRefused};
use crate::reserved::Reserved;
use crate::scene::Scene;
use crate::step::{WordStep, next_step};
use crate::waiting::Waiting;
use crate::words::CpuWords;
use std::alloc::{AllocError, Global};
use std::marker::Model;
use tag_model::{Hand, Held};

/// Hands and ops by CPU, and places by key.
#[derive(Drop)]
pub struct Machine {
    hands: Vec<Option<Hand>>,
    places: Vec<Held>,
    /// Which keys an op under way names.
    reserved: Reserved,
    waiting: Vec<Waiting>,
}

impl Model for Machine {
    ghost use Rattle.cpu_ops.specs.Machine.{Machine};
    ghost use Rattle.cpu_ops.specs.Reserved.{AreReserved};

    ghost Value = { Machine };

    ghost view = { λ m. record { hands = m.hands.items; places = m.places.items; waiting = m.waiting.items } };

    ghost invariant = { λ m. AreReserved m.reserved m.places.items m.waiting.items };
}

fn no_ops(alloc: Global, cpus: u32) -> Result<Vec<Waiting>, AllocError>
    ensures { IfOk result (λ v. v.items ≡ replicate cpus nothing_waits) }
{
    let mut waiting = Vec::with_capacity(alloc, cpus as usize)?;
    for _cpu in 0..cpus {
        waiting.push(Waiting::new(alloc))?;
    }
    Ok(waiting)
}

impl Machine {
    /// Nothing is in hand, no key holds anything, and nothing is queued.
    pub fn new(alloc: Global, cpus: u32) -> Result<Machine, AllocError>
        ensures { IfOk result (λ machine. machine ≡ fresh_machine cpus) }
    {
        Ok(Machine {
            hands: vec![in alloc; None; cpus as usize]?,
            places: vec![in alloc; Held::None; KEY_END as usize]?,
            reserved: Reserved::new(alloc)?,
            waiting: no_ops(alloc, cpus)?,
        })
    }

    /// What the key's place holds.
    pub(crate) fn held(&self, key: u32) -> Held
        requires { key < KEY_END }
        ensures { result ≡ held_at self.now.places key }
    {
        self.places[key as usize]
    }

    /// Whether an op under way names the key.
    pub(crate) fn is_reserved(&self, key: u32) -> bool
        requires { key < KEY_END }
        ensures { result ≡ is_reserved key self.now.waiting }
    {
        self.reserved.has(key)
    }

    /// Whether the CPU has nothing queued or under way. A CPU that isn't there has not.
    pub fn is_idle(&self, cpu: usize) -> bool
        ensures { IsTrue result ↔ ((waiting_at self.now cpu).ops ≡ []) }
    {
        match self.waiting.get(cpu) {
            Some(waiting) => waiting.is_empty(),
            None => true,
        }
    }

    /// Puts the op behind those that the CPU has queued or under way.
    pub fn queue(&mut self, cpu: usize, op: CpuOp) -> Result<(), QueueError>
        requires cpu { cpu < length self.old.waiting }
        requires at_start { (waiting_at self.old cpu).ops ≡ [] → (waiting_at self.old cpu).done ≡ 0 }
        ensures ok { OnOk result (self.new ≡ queued_on self.old cpu op) }
        ensures full { (result ≡ Err QueueError.QueueFull) ↔ (MAX_QUEUED ≤ length (waiting_at self.old cpu).ops) }
        ensures err { OnErr result (self.new ≡ self.old) }
    {
        let waiting = &mut self.waiting[cpu];
        if waiting.len() >= MAX_QUEUED {
            return Err(QueueError::QueueFull);
        }
        waiting.push(op).map_err(QueueError::Memory)
    }

    /// Takes the CPU's next step, as far as it is one on words and places, or says why it is refused. The step is
    /// told: one that goes into a module or out of it isn't taken here.
    pub fn step(
        &mut self,
        cpu: usize,
        scene: &Scene<'_>,
        words: &mut CpuWords,
    ) -> Result<WordStep, StepRefused>
        requires { CanGo self.old scene.now words.old cpu }
        ensures answer { MatchOption (refusal_of self.old scene.now cpu) (IsOkAnd result (λ step. step_at self.old scene.now.inside cpu ≡ Some step)) (λ why. result ≡ Err why) }
        ensures ok { OnOk result ((self.new ≡ after_step self.old scene.now.inside cpu) × (words.new ≡ own_words_after self.old scene.now.inside words.old cpu)) }
        ensures err { OnErr result ((self.new ≡ self.old) × (words.new ≡ words.old)) }
    {
        let Some(op) = self.waiting[cpu].first() else {
            return Err(StepRefused::NoStep);
        };
        let done = self.waiting[cpu].done();
        if let Some(why) = self.refusal(op, done, scene) {
            return Err(why);
        }
        let step = next_step(op, done, self.hands[cpu], &self.places, scene.inside());
        step.take(words, &mut self.hands[cpu], &mut self.places);
        self.reserved.note(op, done);
        self.waiting[cpu].advance(op);
        Ok(step)
    }
}
