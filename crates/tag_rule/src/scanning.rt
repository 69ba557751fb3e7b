//! scan-byte and scan-call.

ghost use Rattle.std.specs.Prelude.{ℕ, ◌≡◌, List, IsSome, IsSomeAnd, Some, slice_index};
ghost use Rattle.tag_model.specs.StepRules.{Scans};
ghost use Rattle.tag_model.specs.WordState.{word_place};
ghost use Rattle.tag_model.specs.declared.state.Kind.TheVariants.{Bytes, Calls};
ghost use Rattle.tag_model.specs.declared.state.Reader.{Reader};
ghost use Rattle.tag_model.specs.declared.state.Sweep.TheVariants as sweep;
ghost use Rattle.module_list.specs.Listing.{reader_of};
ghost use Rattle.tag_rule.specs.Listed.{after_read};
ghost use Rattle.tag_rule.specs.Reads.{ReadsWord};

use crate::cpu::{CpuSeat, word_at};
use crate::modules::ListSeat;
use crate::seats::{look_together, peek};
use crate::words::Words;
use std::marker::Brand;
use tag_model::Reader;

/// scan-byte: the sweep reads its next word, a byte word of some CPU.
pub fn scan_byte(list: &mut ListSeat) -> u64
    requires { IsSomeAnd (reader_of list.old.part.sweep) (λ r. r.pass ≡ Bytes) }
    ensures list { list.new ≡ record list.old { part = after_read list.old.board.shape result list.old.part } }
    ensures row { (left : List ℕ) (r : Reader) → list.old.part.sweep ≡ sweep.Reading left r → ReadsWord list.old.board.shape left r result list.old.part list.new.part }
{
    scan(list)
}

/// scan-call: the sweep reads its next word, a call word of some CPU.
pub fn scan_call(list: &mut ListSeat) -> u64
    requires { IsSomeAnd (reader_of list.old.part.sweep) (λ r. r.pass ≡ Calls) }
    ensures list { list.new ≡ record list.old { part = after_read list.old.board.shape result list.old.part } }
    ensures row { (left : List ℕ) (r : Reader) → list.old.part.sweep ≡ sweep.Reading left r → ReadsWord list.old.board.shape left r result list.old.part list.new.part }
{
    scan(list)
}

// The word is another seat's, so it may be any number.
fn scan(list: &mut ListSeat) -> u64
    requires { IsSome (reader_of list.old.part.sweep) }
    ensures list { list.new ≡ record list.old { part = after_read list.old.board.shape result list.old.part } }
    ensures row { (left : List ℕ) (r : Reader) → list.old.part.sweep ≡ sweep.Reading left r → ReadsWord list.old.board.shape left r result list.old.part list.new.part }
{
    let words: &Words = &list.words;
    let Some(reader) = list.kept.reader() else {
        return 0;
    };
    let at = word_at(words.shape, reader.cpu, reader.pass, reader.tag);
    let word = peek::<Brand, ()>(words, &mut list.seat, at, &());
    let _stop = list.kept.scan(words.shape, word);
    word
}

/// scan-byte or scan-call, as the sweep's pass says, where its next word is this CPU's: the word is read as no one else
/// changes it.
pub fn scan_own(list: &mut ListSeat, cpu: &mut CpuSeat) -> u64
    requires table { cpu.old.board ≡ list.old.board }
    requires next { IsSomeAnd (reader_of list.old.part.sweep) (λ r. r.cpu ≡ cpu.old.part.number) }
    ensures word { (r : Reader) → reader_of list.old.part.sweep ≡ Some r → result ≡ slice_index cpu.old.part.words (word_place r.pass r.tag) }
    ensures list { list.new ≡ record list.old { part = after_read list.old.board.shape result list.old.part } }
    ensures cpu { cpu.new ≡ cpu.old }
    ensures row { (left : List ℕ) (r : Reader) → list.old.part.sweep ≡ sweep.Reading left r → Scans list.old.board.shape left r cpu.old.part list.old.part list.new.part }
{
    let words: &Words = &list.words;
    let Some(reader) = list.kept.reader() else {
        return 0;
    };
    let at = word_at(words.shape, reader.cpu, reader.pass, reader.tag);
    let word = look_together::<Brand, Reader>(words, &mut cpu.seat, &mut list.seat, at, &reader);
    let _stop = list.kept.scan(words.shape, word);
    word
}
