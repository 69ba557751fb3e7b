//! Lines.

ghost use Rattle.std.specs.Prelude.{◌≡◌, ◌==◌, ◌<◌, ◌∷◌, ◌++◌, [], ℕ, List, length, position, MatchOption};
ghost use Rattle.std.specs.List.{join_with_byte, list_all};
ghost use Rattle.text_form.specs.Lines.{is_form_byte, lines_of, tail_of};

use memchr::memchr;

/// The first place at which a byte stands.
pub fn byte_place(text: &[u8], byte: u8) -> Option<usize>
    ensures { result ≡ position (λ b. b == byte) text.now }
{
    memchr(byte, text)
}

/// The first line of a text, without its newline, and the text behind that newline. None where the text has no
/// whole line: what it has then is a line that is cut off, or nothing.
pub fn next_line(text: &[u8]) -> Option<(&[u8], &[u8])>
    ensures lines { MatchOption result (lines_of text.now ≡ []) (λ x. lines_of text.now ≡ x.0.now ∷ lines_of x.1.now) }
    ensures tail { MatchOption result (tail_of text.now ≡ text.now) (λ x. tail_of text.now ≡ tail_of x.1.now) }
    ensures bytes { MatchOption result (length (lines_of text.now) ≡ 0) (λ x. text.now ≡ x.0.now ++ 10 ∷ x.1.now) }
{
    match byte_place(text, b'\n') {
        None => None,
        Some(place) => {
            let (line, rest) = text.split_at(place);
            Some((line, &rest[1..]))
        }
    }
}

fn is_form_byte(byte: u8) -> bool
    ensures { result ≡ is_form_byte byte }
{
    byte >= 32 && byte <= 126
}

// The same of eight bytes. No byte ends the loop, so that the compiler tests them side by side.
fn eight_fit(bytes: &[u8; 8]) -> bool
    ensures { result ≡ list_all is_form_byte bytes.now }
{
    let mut fit = true;
    for byte in bytes {
        fit &= is_form_byte(*byte);
    }
    fit
}

fn all_fit(eights: &[[u8; 8]]) -> bool
    ensures { result ≡ list_all (λ eight. list_all is_form_byte eight) eights.now }
{
    eights.iter().all(|eight| eight_fit(eight))
}

fn few_fit(bytes: &[u8]) -> bool
    ensures { result ≡ list_all is_form_byte bytes.now }
{
    bytes.iter().all(|byte| is_form_byte(*byte))
}

/// Whether each byte is one that may stand in a line.
pub fn has_form_bytes(line: &[u8]) -> bool
    ensures { result ≡ list_all is_form_byte line.now }
{
    let (eights, rest) = line.as_chunks::<8>();
    all_fit(eights) && few_fit(rest)
}

/// The whole lines and the tail, joined by newlines, are the text.
pub fn lines_make_the_text()
    ensures { (text : List ℕ) → join_with_byte 10 (lines_of text ++ tail_of text ∷ []) ≡ text }
{}
