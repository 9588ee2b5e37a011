//! Fractions from their texts.
ghost use Rattle.std.specs.Prelude.{◌≡◌, ◌≤◌, ◌<◌, ◌^◌, Ok, IfOk};
ghost use Rattle.nf_num.specs.Rational.{ℚ, numer, denom};
ghost use Rattle.nf_frac.specs.Range.{AreParts};
ghost use Rattle.nf_frac.specs.Texts.{frac_read, frac_text, may_be_negated, ratio_read, unsigned_read};

use crate::digits::{is_numeral, number, split_once};
use crate::euclid::gcd;
use crate::frac::Frac;

/// The first thing that is wrong with the text of a fraction.
#[derive(Clone, Copy, Debug, PartialEq, Eq)]
pub enum NumberFault {
    /// It has no bytes.
    Empty,
    /// It begins with `+`, or with `-` and no digit behind it, or with `-0` and no digit behind that.
    Sign,
    /// Behind the sign stand neither digits nor digits, `/` and digits, each without leading zeros.
    Digit,
    /// A number is above 2^127 - 1.
    Wide,
    /// The denominator is 0.
    ZeroDenominator,
    /// The denominator is 1, or the numbers have a common factor.
    NotLowest,
}

/// The fraction whose text this is. No other text is read as it, so each fraction has one text.
/// Of several faults the answer is the first in the order of `NumberFault`.
#[tactic(none)]
pub fn read_frac(text: &[u8]) -> Result<Frac, NumberFault>
    ensures value { result ≡ frac_read text.now }
    ensures written_back { IfOk result (λ f. frac_text f ≡ text.now) }
    ensures every_text { (q : ℚ) → AreParts (numer q) (denom q) → text.now ≡ frac_text q → result ≡ Ok q }
{
    read_signed(text)
}

#[tactic(auto, unfolding(crate::specs::Texts::frac_read))]
fn read_signed(text: &[u8]) -> Result<Frac, NumberFault>
    ensures { result ≡ frac_read text.now }
{
    match text {
        [] => Err(NumberFault::Empty),
        [b'+', ..] => Err(NumberFault::Sign),
        [b'-', size @ ..] => {
            if !may_be_negated(size) {
                return Err(NumberFault::Sign);
            }
            let size = read_unsigned(size)?;
            Ok(size.neg())
        }
        _ => read_unsigned(text),
    }
}

// Whether `-` may stand before a text.
fn may_be_negated(text: &[u8]) -> bool
    ensures { result ≡ may_be_negated text.now }
{
    match text {
        [b'0', next, ..] => next.is_ascii_digit(),
        [b'0'] | [] => false,
        [first, ..] => first.is_ascii_digit(),
    }
}

// A fraction without its sign.
fn read_unsigned(text: &[u8]) -> Result<Frac, NumberFault>
    ensures { result ≡ unsigned_read text.now }
{
    match split_once(text, b'/') {
        None => {
            if !is_numeral(text) {
                return Err(NumberFault::Digit);
            }
            match number(text) {
                Some(num) => Ok(Frac::from_parts(num as i128, 1)),
                None => Err(NumberFault::Wide),
            }
        }
        Some((num, den)) => {
            if !is_numeral(num) || !is_numeral(den) {
                return Err(NumberFault::Digit);
            }
            match (number(num), number(den)) {
                (Some(num), Some(den)) => ratio(num, den),
                _ => Err(NumberFault::Wide),
            }
        }
    }
}

fn ratio(num: u128, den: u128) -> Result<Frac, NumberFault>
    requires num { num < 2 ^ 127 }
    requires den { den < 2 ^ 127 }
    ensures { result ≡ ratio_read num den }
{
    if den == 0 {
        return Err(NumberFault::ZeroDenominator);
    }
    if den == 1 || gcd(num, den) != 1 {
        return Err(NumberFault::NotLowest);
    }
    Ok(Frac::from_parts(num as i128, den))
}
