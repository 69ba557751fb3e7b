//! What the laws say between tokens: base moves alone.

ghost use Rattle.std.specs.Prelude.{ℕ, ◌≡◌, ◌∷◌, [], IsTrue, map};
ghost use Rattle.std.specs.List.{All, range_with_len};
ghost use Rattle.tag_model.specs.Telling.{is_covered_by};
ghost use Rattle.tag_model.specs.declared.state.Held.TheVariants as held;
ghost use Rattle.tag_model.specs.declared.state.Part.TheVariants.{Cpu};
ghost use Rattle.tag_model.specs.declared.state.Tag.{Tag};
ghost use Rattle.tag_rule.specs.Meeting.{AreMet, StandSafe, first_notes, stacked, with_notes};
ghost use Rattle.tag_rule.specs.Shown.{CpuShown};
ghost use Rattle.tag_rule.specs.Tokens.{board_of};

use crate::cells::CellSeat;
use crate::cpu::CpuSeat;
use crate::modules::{ListSeat, LoadPass};
use crate::seats::{exchange, split_off, turn, unite_seat};
use crate::words::{Seat, Words};
use std::marker::Brand;

/// A counted cell's tag is the kernel's, or the record of its module has it in its range.
pub fn meet(list: &mut ListSeat, cell: &mut CellSeat)
    requires table { cell.old.board ≡ list.old.board }
    ensures same { (list.new ≡ list.old) × (cell.new ≡ cell.old) }
    ensures covered { (tag : Tag) (size : ℕ) → cell.old.held ≡ held.Counted tag size → IsTrue (is_covered_by list.old.board.shape list.old.part.records tag) }
{
    exchange::<Brand, ()>(&list.words, &mut cell.seat, &mut list.seat, &());
}

/// The module list, the next id and all CPUs meet: what the cover law says of records, runs, notes and the next id holds
/// between them, and the first CPU takes a note of each record.
pub fn meet_all(list: &mut ListSeat, pass: &mut LoadPass, cpus: &mut [CpuSeat])
    requires tables { (pass.old.board ≡ list.old.board) × All (λ (c : CpuShown). c.board ≡ list.old.board) cpus.old }
    requires all { map (λ (c : CpuShown). c.part.number) cpus.old ≡ range_with_len 0 list.old.board.shape.cpus }
    ensures same { (list.new ≡ list.old) × (pass.new ≡ pass.old) }
    ensures noted { cpus.new ≡ first_notes list.old.part.records cpus.old }
    ensures met { AreMet list.old.board.shape list.old.part pass.old.next cpus.new }
{
    note_first(list, cpus);
    let words: &Words = &list.words;
    let mut all = split_off(words, &mut list.seat, 0);
    let next = split_off(words, &mut pass.seat, 0);
    unite_seat(words, &mut all, next);
    let mut all = meet_rest(words, all, cpus);
    let next = split_off(words, &mut all, 1);
    unite_seat(words, &mut list.seat, all);
    unite_seat(words, &mut pass.seat, next);
}

// The first CPU takes its notes.
fn note_first(list: &mut ListSeat, cpus: &mut [CpuSeat])
    requires tables { All (λ (c : CpuShown). c.board ≡ list.old.board) cpus.old }
    ensures list { list.new ≡ list.old }
    ensures cpus { cpus.new ≡ first_notes list.old.part.records cpus.old }
{
    if let Some(first) = cpus.first_mut() {
        note_records(list, first);
    }
}

// The CPU takes a note of each record.
fn note_records(list: &mut ListSeat, cpu: &mut CpuSeat)
    requires table { cpu.old.board ≡ list.old.board }
    ensures list { list.new ≡ list.old }
    ensures cpu { cpu.new ≡ with_notes list.old.part.records cpu.old }
{
    exchange::<Brand, ()>(&cpu.words, &mut cpu.seat, &mut list.seat, &());
}

// A look with no change: the parts stand together in a safe state.
fn stand(words: &Words, seat: &mut Seat)
    requires table { seat.old.table_id ≡ words.now.table.shared.table_id }
    ensures seat { (seat.new.table_id ≡ seat.old.table_id) × (seat.new.me ≡ seat.old.me) }
    ensures safe { StandSafe words.now.shape seat.old.me.0.parts }
{
    turn::<Brand, ()>(words, seat, &());
}

// The seat has the parts of all these CPUs too, before its own, for one look.
#[cycle(meeting)]
fn meet_rest(words: &Words, seat: Seat, cpus: &mut [CpuSeat]) -> Seat
    requires table { seat.table_id ≡ words.now.table.shared.table_id }
    requires bare { seat.me.1 ≡ [] }
    requires tables { All (λ (c : CpuShown). c.board ≡ board_of words.now) cpus.old }
    ensures seat { (result.table_id ≡ seat.table_id) × (result.me ≡ seat.me) }
    ensures cpus { cpus.new ≡ cpus.old }
    ensures safe { StandSafe words.now.shape (stacked cpus.old seat.me.0.parts) }
{
    match cpus.split_first_mut() {
        None => {
            let mut all = seat;
            stand(words, &mut all);
            all
        }
        Some((first, rest)) => meet_first(words, seat, first, rest),
    }
}

#[cycle(meeting)]
fn meet_first(words: &Words, seat: Seat, cpu: &mut CpuSeat, rest: &mut [CpuSeat]) -> Seat
    requires table { seat.table_id ≡ words.now.table.shared.table_id }
    requires bare { seat.me.1 ≡ [] }
    requires own { cpu.old.board ≡ board_of words.now }
    requires tables { All (λ (c : CpuShown). c.board ≡ board_of words.now) rest.old }
    ensures seat { (result.table_id ≡ seat.table_id) × (result.me ≡ seat.me) }
    ensures cpu { cpu.new ≡ cpu.old }
    ensures rest { rest.new ≡ rest.old }
    ensures safe { StandSafe words.now.shape (stacked rest.old (Cpu cpu.old.part ∷ seat.me.0.parts)) }
{
    let mut all = split_off(words, &mut cpu.seat, 0);
    unite_seat(words, &mut all, seat);
    let mut all = meet_rest(words, all, rest);
    let behind = split_off(words, &mut all, 1);
    unite_seat(words, &mut cpu.seat, all);
    behind
}
