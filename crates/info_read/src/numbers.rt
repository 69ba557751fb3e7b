//! Numbers of a row.

ghost use Rattle.std.specs.Prelude.{◌≡◌};
ghost use Rattle.info_read.specs.Numbers.{signed_of, unsigned_of};

use text_form::parse_number;

/// The word of 64 bits whose signed number a word spells.
pub(crate) fn signed_of(word: &[u8]) -> Option<u64>
    ensures { result ≡ signed_of word.now }
{
    match word {
        [b'-', digits @ ..] => parse_number(digits, 1, 1 << 63).map(|n| u64::MAX - n + 1),
        _ => parse_number(word, 0, (1 << 63) - 1),
    }
}

/// The number of 64 bits that a word spells.
pub(crate) fn unsigned_of(word: &[u8]) -> Option<u64>
    ensures { result ≡ unsigned_of word.now }
{
    parse_number(word, 0, u64::MAX)
}
