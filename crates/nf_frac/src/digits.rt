//! Decimal digits: what both amounts and fractions are read from.
ghost use Rattle.std.specs.Prelude.{◌≡◌, ◌≤◌, ◌<◌, ◌^◌, ◌==◌, length, true, MatchOption, SomeIff};
ghost use Rattle.std.specs.List.{after_first, before_first, position_or_len};
ghost use Rattle.nf_frac.specs.Digits.{are_digits, decimal_value, is_numeral};

use std::str;

// The first number out of range.
const LIMIT: u128 = 1 << 127;

// Whether a text is digits without leading zeros.
pub(crate) fn is_numeral(text: &[u8]) -> bool
    ensures { result ≡ is_numeral text.now }
{
    match text {
        [b'0'] => true,
        [b'0', ..] => false,
        _ => are_digits(text),
    }
}

// Whether a text is one digit or more.
pub(crate) fn are_digits(text: &[u8]) -> bool
    ensures { result ≡ are_digits text.now }
{
    !text.is_empty() && text.iter().all(|byte| byte.is_ascii_digit())
}

// The number that digits write, where it is in range.
pub(crate) fn number(digits: &[u8]) -> Option<u128>
    requires { are_digits digits.now ≡ true }
    ensures { SomeIff result (decimal_value digits.now < 2 ^ 127) (decimal_value digits.now) }
{
    let Ok(text) = str::from_utf8(digits) else {
        return None;
    };
    match text.parse::<u128>() {
        Ok(number) if number < LIMIT => Some(number),
        _ => None,
    }
}

// The number that at most nine digits write.
pub(crate) fn short_number(digits: &[u8]) -> u64
    requires digits { are_digits digits.now ≡ true }
    requires short { length digits.now ≤ 9 }
    ensures { result ≡ decimal_value digits.now }
{
    let mut value = 0;
    for digit in digits {
        value = value * 10 + u64::from(*digit - b'0');
    }
    value
}

// What stands on both sides of the first `mark`, where there is one.
pub(crate) fn split_once(text: &[u8], mark: u8) -> Option<(&[u8], &[u8])>
    ensures { MatchOption result (position_or_len (λ b. b == mark) text.now ≡ length text.now)
        (λ sides. (position_or_len (λ b. b == mark) text.now < length text.now) × (sides.0.now ≡ before_first (λ b. b == mark) text.now) × (sides.1.now ≡ after_first (λ b. b == mark) text.now)) }
{
    let at = text.iter().position(|byte| *byte == mark)?;
    Some((&text[..at], &text[at + 1..]))
}
