//! What the words of both languages stand for.

ghost use Rattle.std.specs.Prelude.{◌≡◌, ◌≤◌, ◌<◌, IfOk};
ghost use Rattle.input_form.specs.Judging.{need};
ghost use Rattle.input_form.specs.Words.{is_word, number_word, key_word, cpu_word};

use crate::code::Code;
use text_form::{parse_below, parse_number};

#[tactic(auto, unfolding(crate::specs::Words::is_word))]
pub fn is_word(word: &[u8], text: &[u8]) -> bool
    ensures { result ≡ is_word text.now word.now }
{
    word == text
}

/// One check of a line.
pub fn need(test: bool, code: Code) -> Result<(), Code>
    ensures { result ≡ need test code }
{
    if test { Ok(()) } else { Err(code) }
}

/// A number of the range.
#[tactic(auto, unfolding(crate::specs::Words::number_word))]
pub fn number_word(word: &[u8], low: u32, high: u32) -> Result<u32, Code>
    ensures value { result ≡ number_word low high word.now }
    ensures range { IfOk result (λ n. (low ≤ n) × (n ≤ high)) }
{
    match parse_number(word, u64::from(low), u64::from(high)) {
        Some(number) => Ok(number as u32),
        None => Err(Code::Number),
    }
}

/// A number of the range, which may be a size in bytes.
#[tactic(auto, unfolding(crate::specs::Words::number_word))]
pub fn size_word(word: &[u8], low: u64, high: u64) -> Result<u64, Code>
    ensures value { result ≡ number_word low high word.now }
    ensures range { IfOk result (λ n. (low ≤ n) × (n ≤ high)) }
{
    parse_number(word, low, high).ok_or(Code::Number)
}

/// A key.
pub fn key_word(word: &[u8]) -> Result<u32, Code>
    ensures value { result ≡ key_word word.now }
    ensures range { IfOk result (λ n. (1 ≤ n) × (n ≤ 65535)) }
{
    number_word(word, 1, 65_535)
}

/// One of the CPUs.
#[tactic(auto, unfolding(crate::specs::Words::cpu_word))]
pub fn cpu_word(word: &[u8], cpus: u32) -> Result<u32, Code>
    ensures value { result ≡ cpu_word cpus word.now }
    ensures range { IfOk result (λ n. n < cpus) }
{
    match parse_below(word, u64::from(cpus)) {
        Some(cpu) => Ok(cpu as u32),
        None => Err(Code::Cpu),
    }
}
