//! Whole numbers of a magnitude of at most 2^127 - 1, and nothing where they leave that range.
ghost use Rattle.std.specs.Prelude.{◌≡◌, ◌*◌, ◌/◌, ◌<◌, ◌^◌, pos, ◌+ℤ◌, ◌*ℤ◌, unsigned_abs, int_div, IsTrue, SomeIff};
ghost use Rattle.nf_frac.specs.Compared.{IsIntOrder, IsNatOrder};
ghost use Rattle.nf_frac.specs.Range.{CrossFits, InRange};

use std::cmp::Ordering;

// The first number out of range.
const LIMIT: u128 = 1 << 127;

// The first magnitude out of the range of 64 bits with a sign.
const SHORT: i128 = 1 << 63;

// The greatest number of 64 bits.
const SHORT_NATURAL: u128 = u64::MAX as u128;

pub(crate) fn sum(a: i128, b: i128) -> Option<i128>
    ensures { SomeIff result (InRange (a +ℤ b)) (a +ℤ b) }
{
    match a.checked_add(b) {
        Some(n) if n != i128::MIN => Some(n),
        _ => None,
    }
}

// Whether a number has 64 bits, and is not the least of these.
fn is_short(n: i128) -> bool
    ensures { IsTrue result → unsigned_abs n < 2 ^ 63 }
{
    -SHORT < n && n < SHORT
}

// The product of two short numbers, which is one multiplication of the machine.
fn short_product(a: i128, b: i128) -> i128
    requires left { unsigned_abs a < 2 ^ 63 }
    requires right { unsigned_abs b < 2 ^ 63 }
    ensures value { result ≡ a *ℤ b }
    ensures range { InRange (a *ℤ b) }
{
    i128::from(a as i64) * i128::from(b as i64)
}

// The quotient of two short numbers.
fn short_divided(n: i128, by: u128) -> i128
    requires short { unsigned_abs n < 2 ^ 63 }
    requires positive { 0 < by }
    requires small { by < 2 ^ 63 }
    ensures { result ≡ int_div n (pos by) }
{
    i128::from(n as i64 / by as i64)
}

pub(crate) fn product(a: i128, b: i128) -> Option<i128>
    ensures { SomeIff result (InRange (a *ℤ b)) (a *ℤ b) }
{
    if is_short(a) && is_short(b) {
        return Some(short_product(a, b));
    }
    match a.checked_mul(b) {
        Some(n) if n != i128::MIN => Some(n),
        _ => None,
    }
}

// The same for two natural numbers of 64 bits.
fn short_natural_product(a: u128, b: u128) -> u128
    requires left { a < 2 ^ 64 }
    requires right { b < 2 ^ 64 }
    ensures { result ≡ a * b }
{
    u128::from(a as u64) * u128::from(b as u64)
}

// The product of two natural numbers, where it has 128 bits.
fn natural_product(a: u128, b: u128) -> Option<u128>
    ensures { SomeIff result (a * b < 2 ^ 128) (a * b) }
{
    if a <= SHORT_NATURAL && b <= SHORT_NATURAL {
        return Some(short_natural_product(a, b));
    }
    a.checked_mul(b)
}

pub(crate) fn narrow_product(a: u128, b: u128) -> Option<u128>
    ensures { SomeIff result (a * b < 2 ^ 127) (a * b) }
{
    match natural_product(a, b) {
        Some(n) if n < LIMIT => Some(n),
        _ => None,
    }
}

// The quotient of two natural numbers. Those of 64 bits are divided as such.
pub(crate) fn quotient(a: u128, b: u128) -> u128
    requires { 0 < b }
    ensures { result ≡ a / b }
{
    if b == 1 {
        return a;
    }
    if a <= SHORT_NATURAL && b <= SHORT_NATURAL {
        return u128::from(a as u64 / b as u64);
    }
    a / b
}

// The quotient of a whole number and a natural one. Those of 64 bits are divided as such.
pub(crate) fn divided(n: i128, by: u128) -> i128
    requires range { InRange n }
    requires positive { 0 < by }
    requires small { by < 2 ^ 127 }
    ensures { result ≡ int_div n (pos by) }
{
    if is_short(n) && by < SHORT as u128 {
        return short_divided(n, by);
    }
    n / by as i128
}

// a * d + c * b, where both products and the sum stay in range.
#[tactic(none)]
pub(crate) fn cross(a: i128, d: u128, c: i128, b: u128) -> Option<i128>
    requires left { d < 2 ^ 127 }
    requires right { b < 2 ^ 127 }
    ensures { SomeIff result (CrossFits a d c b) (a *ℤ pos d +ℤ c *ℤ pos b) }
{
    let left = product(a, d as i128)?;
    let right = product(c, b as i128)?;
    sum(left, right)
}

pub(crate) fn compare_whole(a: i128, b: i128) -> Ordering
    ensures { IsIntOrder result a b }
{
    if a < b {
        Ordering::Less
    } else if a == b {
        Ordering::Equal
    } else {
        Ordering::Greater
    }
}

// Compares a * d with c * b, each of up to 256 bits.
pub(crate) fn compare_products(a: u128, d: u128, c: u128, b: u128) -> Ordering
    ensures { IsNatOrder result (a * d) (c * b) }
{
    let (left_low, left_high) = a.carrying_mul(d, 0);
    let (right_low, right_high) = c.carrying_mul(b, 0);
    if left_high < right_high || left_high == right_high && left_low < right_low {
        Ordering::Less
    } else if left_high == right_high && left_low == right_low {
        Ordering::Equal
    } else {
        Ordering::Greater
    }
}
