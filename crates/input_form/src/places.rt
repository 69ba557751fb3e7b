//! Modules and tags, as the lines of the body name them.

ghost use Rattle.std.specs.Prelude.{◌≡◌, ◌==◌, ◌<◌, length, IfOk};
ghost use Rattle.std.specs.List.{before_first, after_first};
ghost use Rattle.tag_section.specs.Section.{section_at};
ghost use Rattle.input_form.specs.Places.{module_word, tag_word};

use crate::code::Code;
use crate::words::need;
use tag_section::Sections;
use text_form::{byte_place, parse_below};

/// The section of a declared module.
#[tactic(auto, unfolding(crate::specs::Places::module_word))]
pub fn module_word(sections: &Sections, word: &[u8]) -> Result<u32, Code>
    ensures value { result ≡ module_word sections.now word.now }
    ensures range { IfOk result (λ section. (0 < section) × (section < length sections.now)) }
{
    let section = sections.find(word).ok_or(Code::Module)?;
    need(0 < section, Code::Module)?;
    Ok(section)
}

// What stands before the first colon, and what stands behind it.
fn split_at_colon(word: &[u8]) -> (&[u8], &[u8])
    ensures before { result.0.now ≡ before_first (λ b. b == 58) word.now }
    ensures after { result.1.now ≡ after_first (λ b. b == 58) word.now }
{
    match byte_place(word, b':') {
        Some(place) => {
            let (name, rest) = word.split_at(place);
            (name, &rest[1..])
        }
        None => (word, &[]),
    }
}

/// `NAME:INDEX`, a section and the index of one of its tags.
#[tactic(auto, unfolding(crate::specs::Places::tag_word))]
pub fn tag_word(sections: &Sections, word: &[u8]) -> Result<(u32, u32), Code>
    ensures value { result ≡ tag_word sections.now word.now }
    ensures range { IfOk result (λ place. (place.0 < length sections.now) × (place.1 < length (section_at sections.now place.0).tags)) }
{
    let (name, index) = split_at_colon(word);
    let section = sections.find(name).ok_or(Code::Tag)?;
    let index = parse_below(index, u64::from(sections.len_of(section))).ok_or(Code::Tag)?;
    Ok((section, index as u32))
}
