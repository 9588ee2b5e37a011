//! Fractions and their arithmetic. Sums and products are taken in lowest terms: Knuth, The Art of Computer Programming,
//! volume 2 (1981), 4.5.1. So a result that is in range is lost only where a number on the way to it is not.
ghost use Rattle.std.specs.Prelude.{◌≡◌, ℕ, ◌+◌, ◌*◌, ◌<◌, ◌^◌, pos, ◌+ℤ◌, ◌*ℤ◌, neg_ℤ, unsigned_abs, int_div, SomeIff, OkIff, IfErr};
ghost use Rattle.nf_num.specs.Rational.{numer, denom, frac as frac_of, ◌+ℚ◌, ◌*ℚ◌, ◌-ℚ◌, neg_ℚ, inv_ℚ, of_ℤ, zero_ℚ};
ghost use Prim.Native.Nat.{◌∣◌};
ghost use Rattle.nf_num.specs.Gcd.{gcd as gcd_of};
ghost use Rattle.nf_frac.specs.Compared.{IsOrder};
ghost use Rattle.nf_frac.specs.Range.{AreParts, CrossFits, InRange, Passes, SumFits, ProductFits};

use crate::euclid::gcd;
use crate::passed::{Op, Passed};
use crate::steps::Steps;
use crate::whole::{
    compare_products, compare_whole, cross, divided, narrow_product, product, quotient, sum,
};
use std::cmp::Ordering;
use std::marker::Model;
use std::sync::ledger::Ledger;

/// An exact fraction in lowest terms: a numerator of a magnitude of at most 2^127 - 1, and a denominator from 1 to
/// 2^127 - 1. A contract sees it as a rational number.
#[derive(Clone, Copy, Debug)]
pub struct Frac {
    num: i128,
    den: u128,
}

impl Model for Frac {
    ghost use Rattle.nf_num.specs.Rational.{ℚ, numer, denom, frac};
    ghost use Rattle.nf_num.proofs.Coding.{ℚ_code};
    ghost use Rattle.nf_frac.specs.Range.{AreParts};
    ghost use Rattle.nf_frac.specs.View.{parts_back};

    ghost Value = { ℚ };

    ghost coded = { ℚ_code };

    ghost view = { λ a. frac a.num a.den };

    ghost invariant = { λ a. AreParts a.num a.den };

    ghost inverse = { λ q. record { num = numer q; den = denom q } };

    ghost inverse_ok = { λ a h. parts_back a h };
}

/// Equal numbers have equal parts.
impl PartialEq for Frac {
    ghost use Rattle.std.proofs.Common.{rules};
    ghost use Rattle.std.specs.Cmp.Rules.{comparing};
    ghost use Rattle.nf_frac.specs.Compared.{is_same};

    ghost eq = { is_same };

    ghost laws = { Prim.search (comparing, rules) };

    fn eq(&self, other: &Frac) -> bool {
        self.parts() == other.parts()
    }
}

impl Eq for Frac {
    ghost use Rattle.std.proofs.Common.{rules};
    ghost use Rattle.std.specs.Cmp.Rules.{comparing};

    ghost laws = { Prim.search (comparing, rules) };
}

impl Frac {
    /// 0.
    pub fn zero() -> Frac
        ensures { result ≡ zero_ℚ }
    {
        Frac { num: 0, den: 1 }
    }

    /// The whole number n.
    #[tactic(none)]
    pub fn from_whole(n: i64) -> Frac
        ensures { result ≡ of_ℤ n }
    {
        Frac {
            num: n as i128,
            den: 1,
        }
    }

    /// The numerator, which carries the sign.
    pub fn num(self) -> i128
        ensures value { result ≡ numer self }
        ensures range { InRange (numer self) }
    {
        self.num
    }

    /// The denominator, from 1.
    pub fn den(self) -> i128
        ensures value { result ≡ pos (denom self) }
        ensures range { denom self < 2 ^ 127 }
    {
        self.den as i128
    }

    // Both parts. Only this and `from_parts` open the struct, with the getters above.
    pub(crate) fn parts(self) -> (i128, u128)
        ensures num { result.0 ≡ numer self }
        ensures den { result.1 ≡ denom self }
        ensures range { AreParts (numer self) (denom self) }
    {
        (self.num, self.den)
    }

    /// The fraction with these parts, which are in lowest terms: num / den.
    pub fn from_parts(num: i128, den: u128) -> Frac
        requires { AreParts num den }
        ensures { result ≡ frac_of num den }
    {
        Frac { num, den }
    }

    // num / den in lowest terms, where num has with den in common only what it has with `shared`.
    #[tactic(none)]
    pub(crate) fn reduced(num: i128, den: u128, shared: u128) -> Frac
        requires num_in_range { InRange num }
        requires den_in_range { den < 2 ^ 127 }
        requires positive { 0 < den }
        requires divides { shared ∣ den }
        requires common { gcd_of (unsigned_abs num) den ≡ gcd_of (unsigned_abs num) shared }
        ensures { result ≡ frac_of num den }
    {
        if shared == 1 {
            return Frac { num, den };
        }
        let rest = gcd(num.unsigned_abs(), shared);
        if rest == 1 {
            return Frac { num, den };
        }
        Frac {
            num: divided(num, rest),
            den: quotient(den, rest),
        }
    }

    // The sum over the least common denominator. What its numerator has in common with that denominator it has in
    // common with the gcd of the two denominators (Knuth), so the last gcd is small, or none.
    #[tactic(none)]
    fn checked_add(self, right: Frac) -> Option<Frac>
        ensures { SomeIff result (SumFits self right) (self +ℚ right) }
    {
        let (a, b) = self.parts();
        let (c, d) = right.parts();
        if b == 1 && d == 1 {
            let num = sum(a, c)?;
            return Some(Frac::from_parts(num, 1));
        }
        let shared = gcd(b, d);
        let over = quotient(b, shared);
        let num = cross(a, quotient(d, shared), c, over)?;
        let den = narrow_product(over, d)?;
        Some(Frac::reduced(num, den, shared))
    }

    // What the numerator has in common with the other denominator, and the numerator without it.
    #[tactic(none)]
    fn without_common(self, right: Frac) -> (i128, u128)
        ensures common { result.1 ≡ gcd_of (unsigned_abs (numer self)) (denom right) }
        ensures rest { result.0 ≡ int_div (numer self) (pos result.1) }
        ensures range { InRange result.0 }
        ensures positive { 0 < result.1 }
    {
        let (num, _) = self.parts();
        let (_, den) = right.parts();
        let shared = gcd(num.unsigned_abs(), den);
        if shared == 1 {
            return (num, 1);
        }
        (divided(num, shared), shared)
    }

    // The product: each numerator gives up what it has in common with the other denominator, and nothing is left to
    // reduce afterwards (Knuth).
    #[tactic(none)]
    fn checked_mul(self, right: Frac) -> Option<Frac>
        ensures { SomeIff result (ProductFits self right) (self *ℚ right) }
    {
        let (a, b) = self.parts();
        let (c, d) = right.parts();
        if b == 1 && d == 1 {
            let num = product(a, c)?;
            return Some(Frac::from_parts(num, 1));
        }
        let (left, across) = self.without_common(right);
        let (other, over) = right.without_common(self);
        let num = product(left, other)?;
        let den = narrow_product(quotient(b, over), quotient(d, across))?;
        Some(Frac::from_parts(num, den))
    }

    /// The negation. It is always in range.
    #[tactic(none)]
    pub fn neg(self) -> Frac
        ensures { result ≡ neg_ℚ self }
    {
        let (num, den) = self.parts();
        Frac::from_parts(-num, den)
    }

    /// The sum self + right, in one step. For a/b + c/d with g the gcd of b and d it is `Passed` exactly where one of
    /// a(d/g), c(b/g), their sum and (b/g)d leaves the range.
    pub fn add<L: Ledger>(self, right: Frac, steps: &mut Steps<L>) -> Result<Frac, Passed>
        ensures value { OkIff result (SumFits self right) (self +ℚ right) }
        ensures passed { IfErr result (λ p. (p ≡ record { op = Op.Add; left = self; right = right }) × Passes Op.Add self right) }
        ensures cost { steps.new ≡ steps.old + 1 }
    {
        steps.tick();
        match self.checked_add(right) {
            Some(value) => Ok(value),
            None => Err(Passed {
                op: Op::Add,
                left: self,
                right,
            }),
        }
    }

    /// The difference self - right, in one step: the sum with the negation of `right`, and `Passed` exactly where that is.
    pub fn sub<L: Ledger>(self, right: Frac, steps: &mut Steps<L>) -> Result<Frac, Passed>
        ensures value { OkIff result (SumFits self (neg_ℚ right)) (self -ℚ right) }
        ensures passed { IfErr result (λ p. (p ≡ record { op = Op.Sub; left = self; right = right }) × Passes Op.Sub self right) }
        ensures cost { steps.new ≡ steps.old + 1 }
    {
        steps.tick();
        match self.checked_add(right.neg()) {
            Some(value) => Ok(value),
            None => Err(Passed {
                op: Op::Sub,
                left: self,
                right,
            }),
        }
    }

    /// The product self * right, in one step. Each numerator and the other denominator are first divided by their gcd;
    /// it is `Passed` exactly where the product of the numerators or that of the denominators leaves the range.
    pub fn mul<L: Ledger>(self, right: Frac, steps: &mut Steps<L>) -> Result<Frac, Passed>
        ensures value { OkIff result (ProductFits self right) (self *ℚ right) }
        ensures passed { IfErr result (λ p. (p ≡ record { op = Op.Mul; left = self; right = right }) × Passes Op.Mul self right) }
        ensures cost { steps.new ≡ steps.old + 1 }
    {
        steps.tick();
        match self.checked_mul(right) {
            Some(value) => Ok(value),
            None => Err(Passed {
                op: Op::Mul,
                left: self,
                right,
            }),
        }
    }

    // The inverse of a fraction other than 0.
    #[tactic(none)]
    fn recip(self) -> Frac
        requires { self ≡ zero_ℚ → ⊥ }
        ensures { result ≡ inv_ℚ self }
    {
        let (num, den) = self.parts();
        if num < 0 {
            Frac::from_parts(-(den as i128), num.unsigned_abs())
        } else {
            Frac::from_parts(den as i128, num.unsigned_abs())
        }
    }

    /// The quotient self / right, in one step: the product with the inverse of `right`, and `Passed` exactly where that
    /// is. `right` must not be 0.
    pub fn div<L: Ledger>(self, right: Frac, steps: &mut Steps<L>) -> Result<Frac, Passed>
        requires { right ≡ zero_ℚ → ⊥ }
        ensures value { OkIff result (ProductFits self (inv_ℚ right)) (self *ℚ inv_ℚ right) }
        ensures passed { IfErr result (λ p. (p ≡ record { op = Op.Div; left = self; right = right }) × Passes Op.Div self right) }
        ensures cost { steps.new ≡ steps.old + 1 }
    {
        steps.tick();
        match self.checked_mul(right.recip()) {
            Some(value) => Ok(value),
            None => Err(Passed {
                op: Op::Div,
                left: self,
                right,
            }),
        }
    }

    /// The order of the fraction and 0, by the sign of its numerator.
    pub fn sign(self) -> Ordering
        ensures { IsOrder result self zero_ℚ }
    {
        let (num, _) = self.parts();
        compare_whole(num, 0)
    }

    /// The order of two fractions. It is exact and never passes: the products crosswise are taken with 256 bits.
    #[tactic(none)]
    pub fn cmp(self, right: Frac) -> Ordering
        ensures { IsOrder result self right }
    {
        let (a, b) = self.parts();
        let (c, d) = right.parts();
        if a < 0 {
            if c < 0 {
                compare_products(c.unsigned_abs(), b, a.unsigned_abs(), d)
            } else {
                Ordering::Less
            }
        } else if c < 0 {
            Ordering::Greater
        } else {
            compare_products(a.unsigned_abs(), d, c.unsigned_abs(), b)
        }
    }
}
