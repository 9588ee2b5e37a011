//! The greatest common divisor of two numbers: by halving and subtracting, as J. Stein found (Computational problems
//! associated with Racah algebra, 1967), which needs no division.
ghost use Rattle.std.specs.Prelude.{◌≡◌, ◌%◌, ◌<◌, ◌^◌};
ghost use Rattle.nf_num.specs.Gcd.{gcd as gcd_of};

// The greatest number of 64 bits.
const SHORT: u128 = u64::MAX as u128;

// The greatest common divisor of an odd number and another.
fn odd_gcd(odd: u64, other: u64) -> u64
    requires { odd % 2 ≡ 1 }
    ensures { result ≡ gcd_of odd other }
{
    let mut x = odd;
    let mut y = other;
    while y != 0 {
        let rest = y >> y.trailing_zeros();
        if x <= rest {
            y = rest - x;
        } else {
            y = x - rest;
            x = rest;
        }
    }
    x
}

// The same, where the odd number has 64 bits.
fn short_gcd(odd: u128, other: u128) -> u128
    requires odd { odd % 2 ≡ 1 }
    requires short { odd < 2 ^ 64 }
    ensures { result ≡ gcd_of odd other }
{
    if other <= SHORT {
        return u128::from(odd_gcd(odd as u64, other as u64));
    }
    let rest = other % odd;
    u128::from(odd_gcd(odd as u64, rest as u64))
}

// The same. Where a number has more than 64 bits it takes steps until one has not.
fn wide_gcd(odd: u128, other: u128) -> u128
    requires { odd % 2 ≡ 1 }
    ensures { result ≡ gcd_of odd other }
{
    let mut x = odd;
    let mut y = other;
    while y != 0 {
        if x <= SHORT {
            return short_gcd(x, y);
        }
        let rest = y >> y.trailing_zeros();
        if x <= rest {
            y = rest - x;
        } else {
            y = x - rest;
            x = rest;
        }
    }
    x
}

// The greatest common divisor of two numbers above 0.
fn shifted_gcd(a: u128, b: u128) -> u128
    requires left { 0 < a }
    requires right { 0 < b }
    ensures { result ≡ gcd_of a b }
{
    let left = a.trailing_zeros();
    let right = b.trailing_zeros();
    wide_gcd(a >> left, b >> right) << left.min(right)
}

/// The greatest common divisor. That of 0 and another number is this number.
pub(crate) fn gcd(a: u128, b: u128) -> u128
    ensures { result ≡ gcd_of a b }
{
    if b == 1 {
        return 1;
    }
    if a == 1 {
        return 1;
    }
    if a == b {
        return b;
    }
    if a == 0 {
        return b;
    }
    if b == 0 {
        return a;
    }
    shifted_gcd(a, b)
}
