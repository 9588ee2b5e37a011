// Sums of products and of numbers, term by term in the order of the numbers.
ghost use Rattle.std.specs.Prelude.{◌≡◌, ◌↔◌, ℕ, ◌+◌, ◌*◌, ◌<◌, ◌≤◌, IfOk, IfErr, IsTrue};
ghost use Rattle.nf_num.specs.Rational.{ℚ, zero_ℚ, one_ℚ, ◌+ℚ◌, ◌-ℚ◌, ◌*ℚ◌, neg_ℚ};
ghost use Rattle.nf_num.specs.Sum.{sum_ℚ};
ghost use Rattle.nf_frac.specs.Range.{Passes};
ghost use Rattle.nf_sums.specs.Rows.{number_terms, product_terms, remainder_terms};
ghost use Rattle.nf_sums.specs.Steps.{AddsProduct, Gives, GivesNumber, SubtractsProduct};
ghost use Rattle.nf_sums.specs.Terms.{PassesIn, Is};

use nf_frac::{Frac, Op, Passed, Steps};
use std::sync::ledger::Ledger;

/// Whether a number is 0.
pub fn is_zero(a: Frac) -> bool
    ensures { IsTrue result ↔ (a ≡ zero_ℚ) }
{
    a.num() == 0
}

// Whether a number is 1.
fn is_one(a: Frac) -> bool
    ensures { IsTrue result → (a ≡ one_ℚ) }
{
    a == Frac::from_whole(1)
}

// Whether a number is -1.
fn is_minus_one(a: Frac) -> bool
    ensures { IsTrue result → (a ≡ neg_ℚ one_ℚ) }
{
    a == Frac::from_whole(-1)
}

// `a * b`. Most entries of a network are 1 or -1: a product by one of these takes no step.
fn product<L: Ledger>(a: Frac, b: Frac, steps: &mut Steps<L>) -> Result<Frac, Passed>
    ensures value { IfOk result (λ r. r ≡ a *ℚ b) }
    ensures passed { IfErr result (λ p. (p ≡ record { op = Op.Mul; left = a; right = b }) × Passes Op.Mul a b) }
    ensures cost { steps.new ≤ steps.old + 1 }
{
    if is_one(a) {
        return Ok(b);
    }
    if is_minus_one(a) {
        return Ok(b.neg());
    }
    if is_one(b) {
        return Ok(a);
    }
    if is_minus_one(b) {
        return Ok(a.neg());
    }
    let product = a.mul(b, steps)?;
    Ok(product)
}

// `total + a`. What is added to 0 takes no step.
fn sum<L: Ledger>(total: Frac, a: Frac, steps: &mut Steps<L>) -> Result<Frac, Passed>
    ensures value { IfOk result (λ r. r ≡ total +ℚ a) }
    ensures passed { IfErr result (λ p. (p ≡ record { op = Op.Add; left = total; right = a }) × Passes Op.Add total a) }
    ensures cost { steps.new ≤ steps.old + 1 }
{
    if is_zero(total) {
        return Ok(a);
    }
    if is_zero(a) {
        return Ok(total);
    }
    let sum = total.add(a, steps)?;
    Ok(sum)
}

// `total - a`. What is taken from 0 takes no step, nor does 0.
fn difference<L: Ledger>(total: Frac, a: Frac, steps: &mut Steps<L>) -> Result<Frac, Passed>
    ensures value { IfOk result (λ r. r ≡ total -ℚ a) }
    ensures passed { IfErr result (λ p. (p ≡ record { op = Op.Sub; left = total; right = a }) × Passes Op.Sub total a) }
    ensures cost { steps.new ≤ steps.old + 1 }
{
    if is_zero(total) {
        return Ok(a.neg());
    }
    if is_zero(a) {
        return Ok(total);
    }
    let difference = total.sub(a, steps)?;
    Ok(difference)
}

/// `total + a * b`. A product of 0 takes no step; any other takes at most one for the product and one for the sum, and
/// none for a product by 1 or -1, nor for a sum with 0.
///
/// `Passed` only where the product or the sum passes 128 bits, with its two operands.
pub fn add_product<L: Ledger>(
    total: Frac,
    a: Frac,
    b: Frac,
    steps: &mut Steps<L>,
) -> Result<Frac, Passed>
    ensures value { IfOk result (λ r. r ≡ total +ℚ a *ℚ b) }
    ensures passed { IfErr result (AddsProduct total a b) }
    ensures cost { steps.new ≤ steps.old + 2 }
{
    // Most arcs of a network carry no flow, and most weights are 0.
    if is_zero(a) || is_zero(b) {
        return Ok(total);
    }
    let product = product(a, b, steps)?;
    sum(total, product, steps)
}

/// `total - a * b`. A product of 0 takes no step; any other takes at most one for the product and one for the
/// difference, and none for a product by 1 or -1, nor for a difference with 0.
///
/// `Passed` only where the product or the difference passes 128 bits, with its two operands.
pub fn sub_product<L: Ledger>(
    total: Frac,
    a: Frac,
    b: Frac,
    steps: &mut Steps<L>,
) -> Result<Frac, Passed>
    ensures value { IfOk result (λ r. r ≡ total -ℚ a *ℚ b) }
    ensures passed { IfErr result (SubtractsProduct total a b) }
    ensures cost { steps.new ≤ steps.old + 2 }
{
    if is_zero(a) || is_zero(b) {
        return Ok(total);
    }
    let product = product(a, b, steps)?;
    difference(total, product, steps)
}

/// The sum of the products of the pairs that `factors` gives at each number below `count`, in at most
/// `2 * count` steps.
///
/// `Passed` only where a product, or the sum of those before and this product, passes 128 bits.
pub fn sum_products<F: Fn(usize) -> (Frac, Frac), L: Ledger>(
    count: usize,
    factors: F,
    steps: &mut Steps<L>,
) -> Result<Frac, Passed>
    requires given { (k : ℕ) → k < count → F.pre factors k }
    ensures value { (a b : ℕ → ℚ) → Gives (F.post factors) count a b → IfOk result (λ r. r ≡ sum_ℚ count (λ k. a k *ℚ b k)) }
    ensures passed { (a b : ℕ → ℚ) → Gives (F.post factors) count a b → IfErr result (PassesIn (Is (product_terms count a b))) }
    ensures cost { steps.new ≤ steps.old + 2 * count }
{
    let mut total = Frac::zero();
    for k in 0..count {
        let (a, b) = factors(k);
        total = add_product(total, a, b, steps)?;
    }
    Ok(total)
}

/// `first` less the sum of the products of the pairs that `factors` gives at each number below `count`, in at most
/// `2 * count + 1` steps: a rest, or a reduced cost.
///
/// `Passed` only where a product, the sum of those before and this product, or the difference passes 128 bits.
pub fn sub_products<F: Fn(usize) -> (Frac, Frac), L: Ledger>(
    first: Frac,
    count: usize,
    factors: F,
    steps: &mut Steps<L>,
) -> Result<Frac, Passed>
    requires given { (k : ℕ) → k < count → F.pre factors k }
    ensures value { (a b : ℕ → ℚ) → Gives (F.post factors) count a b → IfOk result (λ r. r ≡ first -ℚ sum_ℚ count (λ k. a k *ℚ b k)) }
    ensures passed { (a b : ℕ → ℚ) → Gives (F.post factors) count a b → IfErr result (PassesIn (Is (remainder_terms first count a b))) }
    ensures cost { steps.new ≤ steps.old + 2 * count + 1 }
{
    let total = sum_products(count, factors, steps)?;
    let rest = difference(first, total, steps)?;
    Ok(rest)
}

/// The sum of the numbers that `number` gives at each number below `count`, in at most `count` steps.
///
/// `Passed` only where the sum of those before and this number passes 128 bits.
pub fn sum_numbers<F: Fn(usize) -> Frac, L: Ledger>(
    count: usize,
    number: F,
    steps: &mut Steps<L>,
) -> Result<Frac, Passed>
    requires given { (k : ℕ) → k < count → F.pre number k }
    ensures value { (a : ℕ → ℚ) → GivesNumber (F.post number) count a → IfOk result (λ r. r ≡ sum_ℚ count a) }
    ensures passed { (a : ℕ → ℚ) → GivesNumber (F.post number) count a → IfErr result (PassesIn (Is (number_terms count a))) }
    ensures cost { steps.new ≤ steps.old + count }
{
    let mut total = Frac::zero();
    for k in 0..count {
        let a = number(k);
        total = sum(total, a, steps)?;
    }
    Ok(total)
}
