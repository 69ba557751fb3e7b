//! The steps of each op, in order.

ghost use Rattle.std.specs.Prelude.{◌≡◌, ℕ, ◌+◌, ◌*◌, ◌^◌, ◌<◌, ◌≤◌, length};
ghost use Rattle.tag_model.specs.StepRules.{without_call};
ghost use Rattle.cpu_ops.specs.declared.op.TheConstants.{KEY_END};
ghost use Rattle.cpu_ops.specs.Machine.{step_of, open_step, close_step, split_step, part_key, share_step, share_of, rest_of, swap_step, trim_step, clear_step, put_step, in_hand, put_down, bytes_in, step_count, words_after, hand_after, places_after, held_at, tag_in};
ghost use Rattle.cpu_ops.specs.Needs.{CanTake, KeysFit, HasCall, SectionsFit, TagFits};

use crate::inside::Inside;
use crate::op::CpuOp;
use crate::words::CpuWords;
use tag_model::{Hand, Held, Kind, Tag};

/// One step on a word or on a place.
#[derive(Clone, Copy, Debug, PartialEq, Eq)]
pub enum WordStep {
    /// add-call of an allocation.
    BeginAllocation {
        tag: Tag,
    },
    /// add-bytes.
    AddBytes {
        size: u64,
    },
    /// add-call of a split.
    AddCall,
    /// sub-bytes.
    SubtractBytes {
        bytes: u64,
    },
    /// sub-call.
    SubtractCall,
    /// write-cell: what the place then holds, and what the CPU then has in hand.
    Write {
        key: u32,
        held: Held,
        hand: Option<Hand>,
    },
    /// The CPU begins to run inside a section's module.
    GoIn {
        section: u32,
    },
    /// The CPU ends to run inside a section's module.
    GoOut {
        section: u32,
    },
}

/// The step that comes after so many.
pub fn next_step(
    op: CpuOp,
    done: u64,
    hand: Option<Hand>,
    places: &[Held],
    inside: &Inside,
) -> WordStep
    requires keys { KeysFit op }
    requires sections { SectionsFit op (length inside.now) }
    requires under_way { done < step_count op }
    requires calls { HasCall hand }
    requires places { length places.now ≡ KEY_END }
    requires tag { done ≡ 0 → TagFits op inside.now }
    ensures { result ≡ step_of op done hand places.now inside.now }
{
    match op {
        CpuOp::Open {
            key,
            section,
            index,
            size,
        } => open_step(key, section, index, size, done, hand, inside),
        CpuOp::Close { key } => close_step(key, done, hand, places),
        CpuOp::Split { key, parts, first } => split_step(key, parts, first, done, hand, places),
        CpuOp::Swap { one, two } => swap_step(one, two, done, hand, places),
        CpuOp::Trim { key, bytes } => trim_step(key, bytes, done, hand, places),
        CpuOp::Enter { section } => WordStep::GoIn { section },
        CpuOp::Leave { section } => WordStep::GoOut { section },
    }
}

fn open_step(
    key: u32,
    section: u32,
    index: u32,
    size: u64,
    done: u64,
    hand: Option<Hand>,
    inside: &Inside,
) -> WordStep
    requires section { section < length inside.now }
    requires number { done ≡ 0 → (tag_in inside.now section index).number < 2 ^ 32 }
    ensures { result ≡ open_step key (tag_in inside.now section index) size done hand }
{
    match done {
        0 => WordStep::BeginAllocation {
            tag: inside.tag(section, index),
        },
        1 => WordStep::AddBytes { size },
        _ => put_step(key, hand),
    }
}

fn close_step(key: u32, done: u64, hand: Option<Hand>, places: &[Held]) -> WordStep
    requires { key < length places.now }
    ensures { result ≡ close_step key done hand places.now }
{
    match done {
        0 => clear_step(key, places),
        1 => WordStep::SubtractBytes {
            bytes: bytes_in(hand),
        },
        _ => WordStep::SubtractCall,
    }
}

fn split_step(
    key: u32,
    parts: u32,
    first: u32,
    done: u64,
    hand: Option<Hand>,
    places: &[Held],
) -> WordStep
    requires key { key < length places.now }
    requires last { first + parts ≤ 2 ^ 32 }
    requires under_way { done < 2 * parts }
    requires calls { HasCall hand }
    ensures { result ≡ split_step key parts first done hand places.now }
{
    if done == 0 {
        return clear_step(key, places);
    }
    let adds = u64::from(parts);
    if done < adds {
        return WordStep::AddCall;
    }
    share_step(part_key(key, first, (done - adds) as u32), hand)
}

/// The key of a part of a split.
fn part_key(key: u32, first: u32, part: u32) -> u32
    requires { first + part ≤ 2 ^ 32 }
    ensures { result ≡ part_key key first part }
{
    if part == 0 { key } else { first + (part - 1) }
}

/// An equal share of what is in hand is written into the place, and the rest stays in hand.
fn share_step(key: u32, hand: Option<Hand>) -> WordStep
    requires { HasCall hand }
    ensures { result ≡ share_step key hand }
{
    match hand {
        Some(held) => {
            let share = share_of(held);
            WordStep::Write {
                key,
                held: Held::Counted {
                    tag: held.tag,
                    size: share,
                },
                hand: rest_of(held, share),
            }
        }
        None => WordStep::Write {
            key,
            held: Held::None,
            hand: None,
        },
    }
}

/// The bytes in hand over the calls in hand.
fn share_of(hand: Hand) -> u64
    requires { 0 < hand.calls }
    ensures { result ≡ share_of hand }
{
    hand.bytes / u64::from(hand.calls)
}

/// The hand with so many bytes and a call less, or none where that was its last.
fn rest_of(mut hand: Hand, share: u64) -> Option<Hand>
    requires calls { 0 < hand.calls }
    requires bytes { share ≤ hand.bytes }
    ensures { result ≡ rest_of hand share }
{
    hand.bytes -= share;
    without_call(hand)
}

fn swap_step(one: u32, two: u32, done: u64, hand: Option<Hand>, places: &[Held]) -> WordStep
    requires one { one < length places.now }
    requires two { two < length places.now }
    ensures { result ≡ swap_step one two done hand places.now }
{
    match done {
        0 => clear_step(one, places),
        1 => WordStep::Write {
            key: two,
            held: put_down(hand),
            hand: in_hand(places[two as usize]),
        },
        _ => put_step(one, hand),
    }
}

fn trim_step(key: u32, bytes: u64, done: u64, hand: Option<Hand>, places: &[Held]) -> WordStep
    requires { key < length places.now }
    ensures { result ≡ trim_step key bytes done hand places.now }
{
    match done {
        0 => clear_step(key, places),
        1 => WordStep::SubtractBytes { bytes },
        _ => put_step(key, hand),
    }
}

/// The place is cleared, and what it held is taken in hand.
fn clear_step(key: u32, places: &[Held]) -> WordStep
    requires { key < length places.now }
    ensures { result ≡ clear_step key places.now }
{
    WordStep::Write {
        key,
        held: Held::None,
        hand: in_hand(places[key as usize]),
    }
}

/// What is in hand is written into the place.
fn put_step(key: u32, hand: Option<Hand>) -> WordStep
    ensures { result ≡ put_step key hand }
{
    WordStep::Write {
        key,
        held: put_down(hand),
        hand: None,
    }
}

/// A reference that is taken in hand.
fn in_hand(held: Held) -> Option<Hand>
    ensures { result ≡ in_hand held }
{
    match held {
        Held::None | Held::Empty => None,
        Held::Counted { tag, size } => Some(Hand {
            tag,
            bytes: size,
            calls: 1,
            opening: false,
        }),
    }
}

/// The reference that a hand is put down as.
fn put_down(hand: Option<Hand>) -> Held
    ensures { result ≡ put_down hand }
{
    match hand {
        Some(held) => Held::Counted {
            tag: held.tag,
            size: held.bytes,
        },
        None => Held::None,
    }
}

fn bytes_in(hand: Option<Hand>) -> u64
    ensures { result ≡ bytes_in hand }
{
    match hand {
        Some(held) => held.bytes,
        None => 0,
    }
}

impl WordStep {
    /// Takes the step, as far as it is one on words and places.
    pub fn take(self, words: &mut CpuWords, hand: &mut Option<Hand>, places: &mut [Held])
        requires { CanTake self hand.old (length words.old) (length places.old) }
        ensures words { words.new ≡ words_after self hand.old words.old }
        ensures hand { hand.new ≡ hand_after self hand.old }
        ensures places { places.new ≡ places_after self places.old }
    {
        self.count(words, *hand);
        *hand = self.hand_after(*hand);
        if let WordStep::Write { key, held, .. } = self {
            places[key as usize] = held;
        }
    }

    /// What the step does to the CPU's words.
    fn count(self, words: &mut CpuWords, hand: Option<Hand>)
        requires { (places : ℕ) × CanTake self hand (length words.old) places }
        ensures { words.new ≡ words_after self hand words.old }
    {
        match (self, hand) {
            (WordStep::BeginAllocation { tag }, _) => words.raise(Kind::Calls, tag.number, 1),
            (WordStep::AddBytes { size }, Some(held)) => {
                words.raise(Kind::Bytes, held.tag.number, size);
            }
            (WordStep::AddCall, Some(held)) => words.raise(Kind::Calls, held.tag.number, 1),
            (WordStep::SubtractBytes { bytes }, Some(held)) => {
                words.lower(Kind::Bytes, held.tag.number, bytes);
            }
            (WordStep::SubtractCall, Some(held)) => words.lower(Kind::Calls, held.tag.number, 1),
            _ => {}
        }
    }

    /// What the CPU has in hand after the step.
    fn hand_after(self, hand: Option<Hand>) -> Option<Hand>
        requires { (words places : ℕ) × CanTake self hand words places }
        ensures { result ≡ hand_after self hand }
    {
        match (self, hand) {
            (WordStep::BeginAllocation { tag }, _) => Some(Hand {
                tag,
                bytes: 0,
                calls: 1,
                opening: true,
            }),
            (WordStep::AddBytes { size }, Some(held)) => Some(Hand {
                bytes: size,
                ..held
            }),
            (WordStep::AddCall, Some(held)) => Some(Hand {
                calls: held.calls + 1,
                ..held
            }),
            (WordStep::SubtractBytes { bytes }, Some(held)) => Some(Hand {
                bytes: held.bytes - bytes,
                ..held
            }),
            (WordStep::SubtractCall, Some(held)) => without_call(held),
            (WordStep::Write { hand: next, .. }, _) => next,
            _ => hand,
        }
    }
}

/// The hand with a call less, or none where that was its last.
fn without_call(mut hand: Hand) -> Option<Hand>
    requires { 0 < hand.calls }
    ensures { result ≡ without_call hand }
{
    if hand.calls == 1 {
        return None;
    }
    hand.calls -= 1;
    Some(hand)
}
