//! A text cut at a byte, after a word, or behind a number that stands at the right of its places.

ghost use Rattle.std.specs.Prelude.{◌≡◌, ◌≤◌, length, MatchOption};
ghost use Rattle.std.specs.Option.{option_copied};
ghost use Rattle.info_read.specs.Cuts.{cut, after_word, spaces_before, unpadded};

use text_form::byte_place;

/// What stands before the first such byte, and what behind it.
pub(crate) fn cut(text: &[u8], mark: u8) -> Option<(&[u8], &[u8])>
    ensures { MatchOption result (cut mark text.now ≡ None) (λ p. cut mark text.now ≡ Some (p.0.now, p.1.now)) }
{
    let place = byte_place(text, mark)?;
    Some((&text[..place], &text[place + 1..]))
}

/// What follows the word that the text begins with.
pub(crate) fn after_word<'a>(text: &'a [u8], word: &[u8]) -> Option<&'a [u8]>
    ensures { option_copied result ≡ after_word word.now text.now }
{
    text.strip_prefix(word)
}

// How many spaces the text begins with.
#[tactic(auto, using(crate::proofs::CutLemmas::spaces_more, std::proofs::lemmas::Grind::common_steps))]
fn spaces_before(text: &[u8]) -> usize
    ensures value { result ≡ spaces_before text.now }
    ensures within { result ≤ length text.now }
{
    for (place, byte) in text.iter().enumerate() {
        if *byte != b' ' {
            return place;
        }
    }
    text.len()
}

/// The word at the right of so many places, and what stands behind the space that follows it.
#[tactic(auto, unfolding(crate::specs::Cuts::unpadded))]
pub(crate) fn unpadded(text: &[u8], places: usize) -> Option<(&[u8], &[u8])>
    ensures { MatchOption result (unpadded places text.now ≡ None)
        (λ p. unpadded places text.now ≡ Some (p.0.now, p.1.now)) }
{
    let spaces = spaces_before(text);
    let (word, rest) = cut(&text[spaces..], b' ')?;
    if spaces == places.saturating_sub(word.len()) {
        Some((word, rest))
    } else {
        None
    }
}
