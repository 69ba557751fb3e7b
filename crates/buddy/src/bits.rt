//! Runs of set bits in a slice of words. Bit i of the words is bit i % 64 of word i / 64.

ghost use Rattle.std.specs.Prelude.{ℕ, ◌≡◌, ◌≢◌, ◌+◌, ◌-◌, ◌*◌, ◌%◌, ◌^◌, ◌<◌, ◌≤◌, ◌↔◌, length, get_or, map, MatchOption, IsTrue, All};
ghost use Rattle.std.specs.Int.{bit_at, bit_not, w64};
ghost use Rattle.buddy.specs.Bits.{HasOnes, bit_of, IsRun, IsLeastRun, HasNoRun, IsFlipped};

// For each order below 6, the bits at its multiples.
const ALIGNED: [u64; 6] = [
    0xFFFF_FFFF_FFFF_FFFF,
    0x5555_5555_5555_5555,
    0x1111_1111_1111_1111,
    0x0101_0101_0101_0101,
    0x0001_0001_0001_0001,
    0x0000_0001_0000_0001,
];

/// The least multiple of 2^order from which on 2^order bits are set.
pub fn least_run(words: &[u64], order: u32) -> Option<u32>
    requires small { order ≤ 10 }
    requires few { length words.now ≤ 17 }
    ensures { MatchOption result (HasNoRun words.now order) (IsLeastRun words.now order) }
{
    if order < 6 {
        least_in_a_word(words, order)
    } else {
        least_of_words(words, order)
    }
}

/// Turns 2^order bits from the start on.
pub fn flip(words: &mut [u64], start: u32, order: u32)
    requires small { order ≤ 10 }
    requires aligned { start % 2 ^ order ≡ 0 }
    requires within { start + 2 ^ order ≤ 64 * length words.old }
    ensures { IsFlipped words.old words.new start (2 ^ order) }
{
    let first = (start / 64) as usize;
    if order < 6 {
        words[first] ^= ones(order) << (start % 64);
    } else {
        let count = 1 << (order - 6);
        invert(&mut words[first..first + count]);
    }
}

/// Whether a bit is set.
pub fn is_set(words: &[u64], bit: u32) -> bool
    requires { bit < 64 * length words.now }
    ensures { IsTrue result ↔ (bit_of words.now bit ≡ 1) }
{
    let word = words[(bit / 64) as usize];
    word >> (bit % 64) & 1 == 1
}

// A run that lies in one word.
fn least_in_a_word(words: &[u64], order: u32) -> Option<u32>
    requires small { order < 6 }
    requires few { length words.now ≤ 17 }
    ensures { MatchOption result (HasNoRun words.now order) (IsLeastRun words.now order) }
{
    for (index, word) in words.iter().enumerate() {
        let starts = starts_in(*word, order);
        if starts != 0 {
            return Some(index as u32 * 64 + starts.trailing_zeros());
        }
    }
    None
}

// The bits from which on 2^order bits of the word are set, of those at multiples of 2^order.
fn starts_in(word: u64, order: u32) -> u64
    requires { order < 6 }
    ensures { (s : ℕ) → s < 64 → (bit_at result s ≡ 1) ↔ ((s % 2 ^ order ≡ 0) × HasOnes word s (2 ^ order)) }
{
    let mut runs = word;
    for level in 0..order {
        runs &= runs >> (1u32 << level);
    }
    runs & ALIGNED[order as usize]
}

// A run of whole words.
fn least_of_words(words: &[u64], order: u32) -> Option<u32>
    requires large { 6 ≤ order }
    requires small { order ≤ 10 }
    requires few { length words.now ≤ 17 }
    ensures { MatchOption result (HasNoRun words.now order) (IsLeastRun words.now order) }
{
    let count = 1usize << (order - 6);
    let mut first = 0;
    while first + count <= words.len() {
        if all_set(&words[first..first + count]) {
            return Some(first as u32 * 64);
        }
        first += count;
    }
    None
}

fn all_set(words: &[u64]) -> bool
    ensures { IsTrue result ↔ All (λ word. word ≡ 2 ^ 64 - 1) words.now }
{
    words.iter().all(|word| *word == u64::MAX)
}

// A word with its low 2^order bits set.
fn ones(order: u32) -> u64
    requires { order < 6 }
    ensures { result ≡ 2 ^ (2 ^ order) - 1 }
{
    (1 << (1u32 << order)) - 1
}

// Turns each bit of the words.
fn invert(words: &mut [u64])
    ensures same_length { length words.new ≡ length words.old }
    ensures turned { (j : ℕ) → j < length words.old → get_or words.new j 0 + get_or words.old j 0 ≡ 2 ^ 64 - 1 }
{
    for word in words {
        *word = !*word;
    }
}
