//! Numbers among the words.
ghost use Rattle.std.specs.Prelude.{◌≡◌, ◌≤◌, IfSome, None, Some, decimal, if◌then◌else◌};
ghost use Rattle.std.specs.Str.{bytes_eq};
ghost use Rattle.lspmux_words.specs.Meaning.{is_number, number_in};

use itoa::Buffer;

// The greatest count.
const MOST: u64 = 1_000_000;

// Whether a text is a number in decimal digits, without a sign or a leading zero.
fn is_decimal(number: u64, text: &str) -> bool
    ensures { result ≡ bytes_eq (decimal number) text.now }
{
    let mut digits = Buffer::new();
    digits.format(number) == text
}

// Whether a text is this number, which lies from `low` to `high`.
fn is_number(number: u64, low: u64, high: u64, text: &str) -> bool
    ensures { result ≡ is_number low high number text.now }
{
    is_decimal(number, text) && low <= number && number <= high
}

// A number, where a text is it and it lies from `low` to `high`.
fn number_if(number: u64, low: u64, high: u64, text: &str) -> Option<u64>
    ensures value { result ≡ (if is_number low high number text.now then Some number else None) }
    ensures most { IfSome result (λ n. n ≤ high) }
{
    if is_number(number, low, high, text) {
        Some(number)
    } else {
        None
    }
}

// The number from `low` to `high` that a text is in decimal digits, without a sign or a leading zero.
fn number(text: &str, low: u64, high: u64) -> Option<u64>
    ensures value { result ≡ number_in low high text.now }
    ensures most { IfSome result (λ n. n ≤ high) }
{
    match text.parse::<u64>() {
        Ok(number) => number_if(number, low, high, text),
        Err(_error) => None,
    }
}

/// The count that a text is, 1 to 1,000,000.
pub(crate) fn count(text: &str) -> Option<u32>
    ensures { result ≡ number_in 1 1000000 text.now }
{
    let number = number(text, 1, MOST)?;
    Some(number as u32)
}

/// The seed that a text is, 0 to 2^64 - 1.
pub(crate) fn seed(text: &str) -> Option<u64>
    ensures { result ≡ number_in 0 18446744073709551615 text.now }
{
    number(text, 0, u64::MAX)
}
