//! The numbers of a log.
ghost use Rattle.std.specs.Prelude.{◌≡◌, ◌↔◌, ◌<◌, ◌≤◌, ℕ, IsTrue, MatchOption, length, take, slice_index};
ghost use Rattle.std.specs.Char.{IsNotAsciiDigit};
ghost use Rattle.std.specs.Str.Parse.{AllDigits, digits_value};
ghost use Rattle.sip_log.specs.inner.Number.{IsNumber, IsPlain, cut};

/// A larger number is kept as this one, which is above every limit of a log.
const MOST: u64 = 1_000_000_000_000_000;

/// Reads `0`, or a digit 1 to 9 and any further digits. A number above 10^15 is kept as 10^15.
pub(crate) fn number(text: &[u8]) -> Option<u64>
    ensures { MatchOption result ((n : ℕ) → ¬ (IsNumber text.now n)) (λ r. (n : ℕ) × IsNumber text.now n × (r ≡ cut n)) }
{
    if !is_plain(text) {
        return None;
    }
    let (value, len) = digits(text);
    if len < text.len() {
        return None;
    }
    Some(value)
}

/// Whether digits are a number: one digit, or more of which the first is not `0`.
pub(crate) fn is_plain(digits: &[u8]) -> bool
    ensures { IsTrue result ↔ IsPlain digits.now }
{
    !digits.is_empty() && (digits[0] != b'0' || digits.len() == 1)
}

/// What the digits write that the text begins with, kept as `number` keeps it, and how many they are.
pub(crate) fn digits(text: &[u8]) -> (u64, usize)
    ensures within { result.1 ≤ length text.now }
    ensures run { AllDigits 10 (take result.1 text.now) }
    ensures end { result.1 < length text.now → IsNotAsciiDigit (slice_index text.now result.1) }
    ensures value { result.0 ≡ cut (digits_value 10 (take result.1 text.now)) }
{
    let mut value: u64 = 0;
    for (at, byte) in text.iter().enumerate() {
        if !byte.is_ascii_digit() {
            return (value, at);
        }
        value = (value * 10 + u64::from(*byte - b'0')).min(MOST);
    }
    (value, text.len())
}
