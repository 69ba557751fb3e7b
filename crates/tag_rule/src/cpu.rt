//! The right to a CPU's words.

ghost use Rattle.std.specs.Prelude.{◌≡◌, ◌+◌, ◌<◌, ◌==◌, IsTrue, length};
ghost use Rattle.std.specs.List.{list_any};
ghost use Rattle.tag_model.specs.Index.{word_index};
ghost use Rattle.tag_model.specs.Reference.{hand_fits};
ghost use Rattle.tag_model.specs.Shape.{IsChecked};
ghost use Rattle.tag_model.specs.declared.state.Run.{Run};
ghost use Rattle.tag_rule.specs.Parts.{KeepsCpu, bytes_step, falls_to, raises_to};
ghost use Rattle.tag_rule.specs.Seated.{IsCpuShown, hand_in_tags};

use crate::seats::{add, subtract};
use crate::words::{Seat, Words};
use std::alloc::Global;
use std::marker::{Brand, Model};
use std::sync::Arc;
use tag_model::{Hand, Kind, Shape, byte_word, call_word};

/// The right to a CPU's words. Only who has it changes them, or takes references and runs into the CPU's hands.
#[derive(Drop)]
pub struct CpuSeat {
    pub(crate) words: Arc<Words, Global>,
    pub(crate) seat: Seat,
    pub(crate) number: u32,
    pub(crate) hand: Option<Hand>,
    /// The modules that the CPU is inside.
    pub(crate) ids: Vec<u32>,
}

impl Model for CpuSeat {
    ghost use Rattle.tag_rule.specs.Shown.{CpuShown};

    ghost Value = { CpuShown };

    ghost use Rattle.tag_rule.specs.Tokens.{cpu_shown, IsCpuSeat};

    ghost view = { cpu_shown };

    ghost invariant = { IsCpuSeat };
}

/// One of a CPU's words, and what is in hand once it changed.
#[derive(Clone, Copy)]
pub(crate) struct WordStep {
    pub kind: Kind,
    pub tag: u32,
    pub hand: Option<Hand>,
}

impl WordStep {
    /// A step on the bytes under the hand's tag, after which so many bytes are in hand.
    pub fn of_bytes(hand: Hand, bytes: u64) -> WordStep
        ensures { result ≡ bytes_step hand bytes }
    {
        WordStep {
            kind: Kind::Bytes,
            tag: hand.tag.number,
            hand: Some(Hand { bytes, ..hand }),
        }
    }
}

/// Where the CPU's word of a kind for a tag stands in the table.
pub(crate) fn word_at(shape: Shape, cpu: u32, kind: Kind, tag: u32) -> usize
    requires checked { IsChecked shape }
    requires cpu { cpu < shape.cpus }
    requires tag { tag < shape.tags }
    ensures { result ≡ word_index shape cpu kind tag }
{
    match kind {
        Kind::Bytes => byte_word(shape, cpu, tag),
        Kind::Calls => call_word(shape, cpu, tag),
    }
}

fn has_id(ids: &[u32], id: u32) -> bool
    ensures { result ≡ list_any (λ other. other == id) ids.now }
{
    ids.iter().any(|other| *other == id)
}

impl CpuSeat {
    /// The shape that the table was made of.
    pub fn shape(&self) -> Shape
        ensures { result ≡ self.now.board.shape }
    {
        self.words.shape
    }

    pub fn cpu(&self) -> u32
        ensures { result ≡ self.now.part.number }
    {
        self.number
    }

    pub fn hand(&self) -> Option<Hand>
        ensures { result ≡ self.now.part.hand }
    {
        self.hand
    }

    pub fn is_inside(&self, id: u32) -> bool
        ensures { result ≡ list_any (λ (r : Run). r.id == id) self.now.part.runs }
    {
        has_id(&self.ids, id)
    }

    /// How many modules the CPU is inside.
    pub fn inside_count(&self) -> u32
        ensures { result ≡ length self.now.part.runs }
    {
        self.ids.len() as u32
    }

    /// What holds of each seat, for whoever sees its value alone.
    pub fn tell(&self)
        ensures { IsCpuShown self.now }
    {
        let _words = &self.words;
    }

    /// Adds to one of the CPU's words, and takes what the step says into its hand.
    pub(crate) fn raise(&mut self, step: WordStep, n: u64)
        requires tag { step.tag < self.old.board.shape.tags }
        requires hand { IsTrue (hand_fits step.hand) × IsTrue (hand_in_tags self.old.board.shape step.hand) }
        requires keeps { KeepsCpu self.old.board.shape self.old.part (raises_to step n self.old.part) }
        ensures { self.new ≡ record self.old { part = raises_to step n self.old.part } }
    {
        let words: &Words = &self.words;
        let at = word_at(words.shape, self.number, step.kind, step.tag);
        add::<Brand, WordStep>(words, &mut self.seat, at, n, &step);
        self.hand = step.hand;
    }

    /// Subtracts from one of the CPU's words, and takes what the step says into its hand.
    pub(crate) fn lower(&mut self, step: WordStep, n: u64)
        requires tag { step.tag < self.old.board.shape.tags }
        requires hand { IsTrue (hand_fits step.hand) × IsTrue (hand_in_tags self.old.board.shape step.hand) }
        requires keeps { KeepsCpu self.old.board.shape self.old.part (falls_to step n self.old.part) }
        ensures { self.new ≡ record self.old { part = falls_to step n self.old.part } }
    {
        let words: &Words = &self.words;
        let at = word_at(words.shape, self.number, step.kind, step.tag);
        subtract::<Brand, WordStep>(words, &mut self.seat, at, n, &step);
        self.hand = step.hand;
    }
}
