//! Numbers as words.

ghost use Rattle.std.specs.Prelude.{◌≡◌, ◌+◌, ◌*◌, ◌<◌, ◌≤◌, ◌^◌, ℕ, List, Some, MatchOption, IfSome};
ghost use Rattle.std.specs.Fmt.{decimal};
ghost use Rattle.std.specs.Option.{SomeIff};
ghost use Rattle.text_form.specs.Numbers.{number_after, number_below, number_in, number_value};

// The number that digits spell, where it is below 2 ^ 64.
fn digits_value(digits: &[u8]) -> Option<u64>
    ensures { MatchOption result ((n : ℕ) → number_after 0 digits.now ≡ Some n → 2 ^ 64 ≤ n) (λ n. number_after 0 digits.now ≡ Some n) }
{
    let mut value: u64 = 0;
    for b in digits {
        if !b.is_ascii_digit() {
            return None;
        }
        let Some(next) = next_value(value, *b - b'0') else {
            return None;
        };
        value = next;
    }
    Some(value)
}

// The number with one more digit at its end.
fn next_value(value: u64, digit: u8) -> Option<u64>
    requires { digit < 10 }
    ensures { SomeIff result (value * 10 + digit < 2 ^ 64) (value * 10 + digit) }
{
    value.checked_mul(10)?.checked_add(u64::from(digit))
}

/// The number that a word spells, where it lies in the range. A word may be longer than any number of the range.
pub fn parse_number(word: &[u8], low: u64, high: u64) -> Option<u64>
    ensures value { result ≡ number_in low high word.now }
    ensures range { IfSome result (λ n. (low ≤ n) × (n ≤ high)) }
{
    match word {
        [] => None,
        [b'0', _, ..] => None,
        _ => match digits_value(word) {
            Some(value) if low <= value && value <= high => Some(value),
            _ => None,
        },
    }
}

/// The number that a word spells, where it is below the limit.
pub fn parse_below(word: &[u8], limit: u64) -> Option<u64>
    ensures value { result ≡ number_below limit word.now }
    ensures range { IfSome result (λ n. n < limit) }
{
    match word {
        [] => None,
        [b'0', _next, ..] => None,
        _ => match digits_value(word) {
            Some(value) if value < limit => Some(value),
            _ => None,
        },
    }
}

/// A number is spelled in decimal.
pub fn decimal_is_number()
    ensures { (n : ℕ) → n < 2 ^ 64 → number_value (decimal n) ≡ Some n }
{}

/// Nothing else spells it.
pub fn number_is_decimal()
    ensures { (word : List ℕ) (n : ℕ) → n < 2 ^ 64 → number_value word ≡ Some n → word ≡ decimal n }
{}
