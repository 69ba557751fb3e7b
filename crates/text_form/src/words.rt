//! Words.

ghost use Rattle.std.specs.Prelude.{◌≡◌, ◌<◌, ◌∷◌, [], ℕ, List, length, position, MatchOption};
ghost use Rattle.std.specs.List.{join_with_byte};
ghost use Rattle.text_form.specs.Words.{is_space, words_of, word_at, has_empty_word};

// As a loop of its own it has one counter; within another loop the compiler gives it many.
#[inline(never)]
fn space_place(line: &[u8]) -> Option<usize>
    ensures { result ≡ position is_space line.now }
{
    line.iter().position(|b| *b == b' ')
}

/// The first word of a line, and the line behind the space that follows it. None where no space follows.
pub fn next_word(line: &[u8]) -> (&[u8], Option<&[u8]>)
    ensures words { MatchOption result.1 (words_of line.now ≡ result.0.now ∷ []) (λ rest. words_of line.now ≡ result.0.now ∷ words_of rest.now) }
    ensures shorter { MatchOption result.1 (result.0.now ≡ line.now) (λ rest. length rest.now < length line.now) }
{
    match space_place(line) {
        None => (line, None),
        Some(place) => {
            let (word, rest) = line.split_at(place);
            (word, Some(&rest[1..]))
        }
    }
}

/// How many words a line has. It has at least one, which may be empty.
pub fn word_count(line: &[u8]) -> usize
    ensures { result ≡ length (words_of line.now) }
{
    let mut count = 1;
    let mut rest = line;
    while let (_, Some(after)) = next_word(rest) {
        count += 1;
        rest = after;
    }
    count
}

/// The word at a place, counted from 0. The empty word where the line has fewer words.
pub fn word_at(line: &[u8], place: usize) -> &[u8]
    ensures { result.now ≡ word_at line.now place }
{
    let mut rest = line;
    for _ in 0..place {
        match next_word(rest) {
            (_, Some(after)) => rest = after,
            (_, None) => return &[],
        }
    }
    next_word(rest).0
}

/// Whether two spaces stand side by side in a line, or one stands at an end of it.
pub fn has_empty_word(line: &[u8]) -> bool
    ensures { result ≡ has_empty_word line.now }
{
    let mut rest = line;
    loop {
        let (word, after) = next_word(rest);
        if word.is_empty() {
            return true;
        }
        match after {
            None => return false,
            Some(after) => rest = after,
        }
    }
}

/// The words, joined by spaces, are the line.
pub fn words_make_the_line()
    ensures { (line : List ℕ) → join_with_byte 32 (words_of line) ≡ line }
{}
