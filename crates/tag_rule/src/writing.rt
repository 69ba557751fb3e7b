//! write-cell, between base moves.

ghost use Rattle.std.specs.Prelude.{ℕ, ◌≡◌, ◌+◌, ◌^◌, ◌<◌, ◌++◌, IsTrue, [], take, drop};
ghost use Rattle.tag_model.specs.Index.{word_count};
ghost use Rattle.tag_model.specs.RefWord.{held_word, number_fits};
ghost use Rattle.tag_model.specs.Reference.{hand_counts_of, hand_fits, held_counts_of, held_fits, same_tag as same_tag_is};
ghost use Rattle.tag_model.specs.StepRules.{WritesPlace};
ghost use Rattle.tag_model.specs.declared.state.Kind.TheVariants.{Bytes, Calls};
ghost use Rattle.tag_rule.specs.Rule.{Writes, view_of};
ghost use Rattle.tag_rule.specs.Steps.{hand_after as hand_is, left_hand as left_is, left_of_place as left_of_place_is, with_hand};
ghost use Rattle.tag_rule.specs.Writing.{written};

use crate::cells::CellSeat;
use crate::cpu::CpuSeat;
use crate::seats::{split_off, store, unite_seat};
use crate::words::{Seat, Words};
use std::marker::Brand;
use tag_model::{Hand, Held, RefWord, Tag};

/// What is written, and what is in hand then.
#[derive(Clone, Copy)]
pub(crate) struct Write {
    pub held: Held,
    pub hand: Option<Hand>,
}

/// write-cell: the first cell is written, and what the cell gives up is in hand, or what it takes is out of it.
pub fn write_cell(cpu: &mut CpuSeat, cell: &mut CellSeat, held: Held)
    requires table { cell.old.board ≡ cpu.old.board }
    requires step { WritesPlace cpu.old.part (with_hand (hand_is cpu.old.part.hand cell.old.held held) cpu.old.part) cell.old.held held }
    ensures cpu { cpu.new ≡ record cpu.old { part = with_hand (hand_is cpu.old.part.hand cell.old.held held) cpu.old.part } }
    ensures cell { cell.new ≡ record cell.old { held = held } }
{
    let hand = hand_after(cpu.hand, cell.held, held);
    let write = Write { held, hand };
    write_first(
        &cpu.words,
        &mut cpu.seat,
        &mut cell.seat,
        cell.first,
        &write,
    );
    cpu.hand = hand;
    cell.held = held;
}

// The CPU's seat has the cells for the one store, and gives them back.
fn write_first(words: &Words, cpu: &mut Seat, cells: &mut Seat, at: usize, write: &Write)
    requires tables { (cpu.old.table_id ≡ words.now.table.shared.table_id) × (cells.old.table_id ≡ words.now.table.shared.table_id) }
    requires bare { (cpu.old.me.1 ≡ []) × (cells.old.me.1 ≡ []) }
    requires place { (0 < at) × (at < word_count words.now.shape) }
    requires held { IsTrue (held_fits write.now.held) × IsTrue (number_fits write.now.held) }
    requires step { Writes words.now.shape at (λ found. held_word write.now.held) (cpu.old.me.0.parts ++ cells.old.me.0.parts) (λ found. view_of (written write.now.hand write.now.held (cpu.old.me.0.parts ++ cells.old.me.0.parts))) (λ found. Unit {0}) }
    ensures cpu { (cpu.new.table_id ≡ cpu.old.table_id) × (cpu.new.me ≡ (view_of (take 1 (written write.now.hand write.now.held (cpu.old.me.0.parts ++ cells.old.me.0.parts))), [])) }
    ensures cells { (cells.new.table_id ≡ cells.old.table_id) × (cells.new.me ≡ (view_of (drop 1 (written write.now.hand write.now.held (cpu.old.me.0.parts ++ cells.old.me.0.parts))), [])) }
{
    let lent = split_off(words, cells, 0);
    unite_seat(words, cpu, lent);
    store::<Brand, Write>(words, cpu, at, word_of(write.held), write);
    let back = split_off(words, cpu, 1);
    unite_seat(words, cells, back);
}

/// The word of what a cell holds.
pub fn word_of(held: Held) -> u64
    requires { IsTrue (held_fits held) × IsTrue (number_fits held) }
    ensures { result ≡ held_word held }
{
    match held {
        Held::None => RefWord::none().word(),
        Held::Empty => RefWord::empty().word(),
        Held::Counted { tag, size } => RefWord::pack(tag.number, size).word(),
    }
}

/// An amount of bytes and calls.
#[derive(Clone, Copy)]
struct Amount {
    bytes: u64,
    calls: u32,
}

fn same_tag(one: Tag, other: Tag) -> bool
    ensures { result ≡ same_tag_is one other }
{
    one.number == other.number && one.module == other.module
}

// What the hand counts under the tag.
fn in_hand(tag: Tag, hand: Option<Hand>) -> Amount
    ensures bytes { result.bytes ≡ hand_counts_of Bytes tag hand }
    ensures calls { result.calls ≡ hand_counts_of Calls tag hand }
{
    match hand {
        Some(hand) if same_tag(hand.tag, tag) => Amount {
            bytes: hand.bytes,
            calls: hand.calls,
        },
        _ => Amount { bytes: 0, calls: 0 },
    }
}

// What the place counts under the tag.
fn in_place(tag: Tag, held: Held) -> Amount
    ensures bytes { result.bytes ≡ held_counts_of Bytes tag held }
    ensures calls { result.calls ≡ held_counts_of Calls tag held }
{
    match held {
        Held::Counted { tag: named, size } if same_tag(named, tag) => Amount {
            bytes: size,
            calls: 1,
        },
        _ => Amount { bytes: 0, calls: 0 },
    }
}

// What is left in hand under the tag.
fn left_hand(tag: Tag, hand: Option<Hand>, was: Held, next: Held) -> Option<Hand>
    requires { IsTrue (hand_fits hand) × IsTrue (held_fits was) }
    ensures { result ≡ left_is tag hand was next }
{
    let own = in_hand(tag, hand);
    let taken = in_place(tag, was);
    let given = in_place(tag, next);
    let calls = (own.calls + taken.calls).saturating_sub(given.calls);
    if calls == 0 {
        return None;
    }
    Some(Hand {
        tag,
        bytes: (own.bytes + taken.bytes).saturating_sub(given.bytes),
        calls,
        opening: false,
    })
}

// What is left under the place's tag.
fn left_of_place(hand: Option<Hand>, was: Held, next: Held) -> Option<Hand>
    requires { IsTrue (hand_fits hand) × IsTrue (held_fits was) }
    ensures { result ≡ left_of_place_is hand was next }
{
    match was {
        Held::Counted { tag, size: _ } => left_hand(tag, hand, was, next),
        _ => None,
    }
}

// What is in hand once a place that held `was` is written `next`.
fn hand_after(hand: Option<Hand>, was: Held, next: Held) -> Option<Hand>
    requires { IsTrue (hand_fits hand) × IsTrue (held_fits was) }
    ensures { result ≡ hand_is hand was next }
{
    if !was.is_counted() && !next.is_counted() {
        return hand;
    }
    let Some(own) = hand else {
        return left_of_place(hand, was, next);
    };
    match left_hand(own.tag, hand, was, next) {
        Some(left) => Some(left),
        None => left_of_place(hand, was, next),
    }
}
