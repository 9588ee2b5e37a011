//! Amounts of the data, in thousandths.
ghost use Rattle.std.specs.Prelude.{◌≡◌, ◌≤◌, IfOk};
ghost use Rattle.nf_num.specs.Rational.{frac};
ghost use Rattle.nf_frac.specs.Range.{InRange};
ghost use Rattle.nf_frac.specs.Amounts.{IsAmount, amount_read, amount_value, most_thousandths, parts_read, magnitude_read, whole_read};

use crate::digits::{are_digits, short_number, split_once};
use crate::frac::Frac;

/// An amount of the data: so many thousandths.
#[derive(Clone, Copy, Debug, PartialEq, Eq)]
pub struct Amount {
    pub thousandths: i64,
}

/// Why a text is no amount.
#[derive(Clone, Copy, Debug, PartialEq, Eq)]
pub enum AmountFault {
    /// It has no bytes.
    Empty,
    /// It is not an optional `-` and digits, with a point and digits behind them or without.
    Form,
    /// It has more than nine digits before the point, or more than three behind it.
    Wide,
}

impl Frac {
    /// An amount as a fraction in lowest terms: 1500 thousandths are 3/2.
    pub fn from_amount(a: Amount) -> Frac
        requires { IsAmount a }
        ensures { result ≡ amount_value a }
    {
        Frac::of_thousandths(a.thousandths)
    }

    /// So many thousandths as a fraction in lowest terms, of any amounts or sums of amounts.
    pub fn from_thousandths(thousandths: i128) -> Frac
        requires { InRange thousandths }
        ensures { result ≡ frac thousandths 1000 }
    {
        match i64::try_from(thousandths) {
            Ok(narrow) => Frac::of_thousandths(narrow),
            Err(_) => Frac::reduced(thousandths, 1000, 1000),
        }
    }

    // The same in 64 bits. Most amounts are whole, and there is then nothing to reduce.
    fn of_thousandths(thousandths: i64) -> Frac
        ensures { result ≡ frac thousandths 1000 }
    {
        if thousandths % 1000 == 0 {
            Frac::from_whole(thousandths / 1000)
        } else {
            Frac::reduced(i128::from(thousandths), 1000, 1000)
        }
    }
}

/// The amount that a text writes: an optional `-`, one to nine digits, and optionally a point with one to three digits.
/// Zeros may lead. A text of no bytes is `Empty`; one that is not of this form, however many its digits, is `Form`;
/// one with too many digits is `Wide`.
#[tactic(auto, unfolding(crate::specs::Amounts::amount_read))]
pub fn read_amount(text: &[u8]) -> Result<Amount, AmountFault>
    ensures value { result ≡ amount_read text.now }
    ensures range { IfOk result IsAmount }
{
    match text {
        [] => Err(AmountFault::Empty),
        [b'-', size @ ..] => {
            let size = read_magnitude(size)?;
            Ok(Amount {
                thousandths: -(size as i64),
            })
        }
        _ => {
            let size = read_magnitude(text)?;
            Ok(Amount {
                thousandths: size as i64,
            })
        }
    }
}

// The thousandths of an amount without its sign.
fn read_magnitude(text: &[u8]) -> Result<u64, AmountFault>
    ensures value { result ≡ magnitude_read text.now }
    ensures range { IfOk result (λ n. n ≤ most_thousandths) }
{
    match split_once(text, b'.') {
        None => read_whole(text),
        Some((whole, rest)) => read_parts(whole, rest),
    }
}

fn read_whole(digits: &[u8]) -> Result<u64, AmountFault>
    ensures value { result ≡ whole_read digits.now }
    ensures range { IfOk result (λ n. n ≤ most_thousandths) }
{
    if !are_digits(digits) {
        return Err(AmountFault::Form);
    }
    if digits.len() > 9 {
        return Err(AmountFault::Wide);
    }
    Ok(short_number(digits) * 1000)
}

fn read_parts(whole: &[u8], rest: &[u8]) -> Result<u64, AmountFault>
    ensures value { result ≡ parts_read whole.now rest.now }
    ensures range { IfOk result (λ n. n ≤ most_thousandths) }
{
    if !are_digits(whole) || !are_digits(rest) {
        return Err(AmountFault::Form);
    }
    if whole.len() > 9 || rest.len() > 3 {
        return Err(AmountFault::Wide);
    }
    let part = short_number(rest) * 10u64.pow(3 - rest.len() as u32);
    Ok(short_number(whole) * 1000 + part)
}
