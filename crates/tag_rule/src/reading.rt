//! The own load.

ghost use Rattle.std.specs.Prelude.{◌≡◌, ◌<◌, slice_index};
ghost use Rattle.tag_model.specs.WordState.{word_place};

use crate::cpu::{CpuSeat, word_at};
use crate::seats::look;
use crate::words::Words;
use std::marker::Brand;
use tag_model::Kind;

/// Reads one of the CPU's own words, as no one else changes it.
pub fn read_own(cpu: &mut CpuSeat, tag: u32, kind: Kind) -> u64
    requires { tag < cpu.old.board.shape.tags }
    ensures word { result ≡ slice_index cpu.old.part.words (word_place kind tag) }
    ensures same { cpu.new ≡ cpu.old }
{
    let words: &Words = &cpu.words;
    let at = word_at(words.shape, cpu.number, kind, tag);
    look::<Brand, (Kind, u32)>(words, &mut cpu.seat, at, &(kind, tag))
}
