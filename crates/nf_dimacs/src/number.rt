//! The numbers of a text.
ghost use Rattle.std.specs.Prelude.{◌≡◌, ◌≤◌, IfSome, length, true};
ghost use Rattle.nf_frac.specs.Digits.{are_digits, decimal_value};
ghost use Rattle.nf_dimacs.specs.Numbers.{are_short_digits, magnitude_of, number_of};

/// The number that a field writes: one to nine digits, perhaps after a `-`. Zeros may lead.
#[tactic(auto, unfolding(crate::specs::Numbers::number_of))]
pub(crate) fn number(field: &[u8]) -> Option<i32>
    ensures { result ≡ number_of field.now }
{
    match field {
        [] => None,
        [b'-', digits @ ..] => Some(-(magnitude(digits)? as i32)),
        _ => Some(magnitude(field)? as i32),
    }
}

// The number that one to nine digits write.
fn magnitude(digits: &[u8]) -> Option<u32>
    ensures value { result ≡ magnitude_of digits.now }
    ensures short { IfSome result (λ n. n ≤ 999_999_999) }
{
    if are_short_digits(digits) {
        Some(value(digits))
    } else {
        None
    }
}

fn are_short_digits(digits: &[u8]) -> bool
    ensures { result ≡ are_short_digits digits.now }
{
    are_digits(digits) && digits.len() <= 9
}

fn are_digits(digits: &[u8]) -> bool
    ensures { result ≡ are_digits digits.now }
{
    !digits.is_empty() && digits.iter().all(|byte| byte.is_ascii_digit())
}

fn value(digits: &[u8]) -> u32
    requires digits { are_digits digits.now ≡ true }
    requires short { length digits.now ≤ 9 }
    ensures value { result ≡ decimal_value digits.now }
    ensures short { result ≤ 999_999_999 }
{
    let mut value = 0;
    for digit in digits {
        value = value * 10 + u32::from(*digit - b'0');
    }
    value
}
