//! How the text of a tag is read.

ghost use Rattle.std.specs.Prelude.{◌≡◌, ◌≤◌, MatchOption, IfSome};
ghost use Rattle.std.specs.Option.{option_copied};
ghost use Rattle.info_read.specs.Place.{label_of, inside_of, bracket_of, last_word, place_of};
ghost use Rattle.info_read.specs.Views.{bracket_view, place_view};

use crate::cuts::{after_word, cut};
use text_form::parse_number;

/// The module in brackets, whether it is kept, and what follows.
#[derive(Clone, Copy, Debug)]
pub(crate) struct BracketParts<'a> {
    pub(crate) name: Option<&'a [u8]>,
    pub(crate) kept: bool,
    pub(crate) rest: &'a [u8],
}

/// The parts of a tag's text.
#[derive(Clone, Copy, Debug)]
pub(crate) struct PlaceParts<'a> {
    pub(crate) file: &'a [u8],
    pub(crate) line: u64,
    pub(crate) function: &'a [u8],
    pub(crate) name: Option<&'a [u8]>,
    pub(crate) kept: bool,
}

// A module's name, or a name and `:kept`.
#[tactic(auto, unfolding(crate::specs::Place::label_of))]
fn label_of(label: &[u8]) -> Option<(&[u8], bool)>
    ensures { MatchOption result (label_of label.now ≡ None) (λ p. label_of label.now ≡ Some (p.0.now, p.1)) }
{
    match cut(label, b':') {
        None => Some((label, false)),
        Some((name, word)) => {
            if word == b"kept".as_slice() {
                Some((name, true))
            } else {
                None
            }
        }
    }
}

// What stands behind an opening bracket.
#[tactic(auto, unfolding(crate::specs::Place::inside_of))]
fn inside_of(inside: &[u8]) -> Option<BracketParts<'_>>
    ensures { MatchOption result (inside_of inside.now ≡ None)
        (λ parts. inside_of inside.now ≡ Some (bracket_view parts)) }
{
    let (label, behind) = cut(inside, b']')?;
    let (name, kept) = label_of(label)?;
    let rest = after_word(behind, b" ")?;
    Some(BracketParts {
        name: Some(name),
        kept,
        rest,
    })
}

// A module in brackets and a space, or nothing.
#[tactic(auto, unfolding(crate::specs::Place::bracket_of))]
fn bracket_of(text: &[u8]) -> Option<BracketParts<'_>>
    ensures { MatchOption result (bracket_of text.now ≡ None)
        (λ parts. bracket_of text.now ≡ Some (bracket_view parts)) }
{
    match after_word(text, b"[") {
        None => Some(BracketParts {
            name: None,
            kept: false,
            rest: text,
        }),
        Some(inside) => inside_of(inside),
    }
}

// The last word of a line, which a space may end.
#[tactic(auto, unfolding(crate::specs::Place::last_word))]
fn last_word(text: &[u8]) -> Option<&[u8]>
    ensures { option_copied result ≡ last_word text.now }
{
    match cut(text, b' ') {
        None => Some(text),
        Some((word, rest)) => { if rest.is_empty() { Some(word) } else { None } }
    }
}

/// `FILE:LINE func:FUNCTION`, with the module in brackets before `func`.
#[tactic(auto, unfolding(crate::specs::Place::place_of))]
pub(crate) fn place_of(text: &[u8]) -> Option<PlaceParts<'_>>
    ensures value { MatchOption result (place_of text.now ≡ None)
        (λ parts. place_of text.now ≡ Some (place_view parts)) }
    ensures range { IfSome result (λ parts. (1 ≤ parts.line) × (parts.line ≤ 4294967295)) }
{
    let (file, behind) = cut(text, b':')?;
    let (number, behind) = cut(behind, b' ')?;
    let line = parse_number(number, 1, 4_294_967_295)?;
    let bracket = bracket_of(behind)?;
    let word = after_word(bracket.rest, b"func:")?;
    let function = last_word(word)?;
    Some(PlaceParts {
        file,
        line,
        function,
        name: bracket.name,
        kept: bracket.kept,
    })
}
