//! Multiples of one list of numbers added to another or taken from it.
ghost use Rattle.std.specs.Prelude.{◌≡◌, ◌≢◌, ℕ, ◌+◌, ◌*◌, ◌<◌, ◌≤◌, List, length, IfOk, IfErr};
ghost use Rattle.nf_num.specs.Rational.{ℚ, zero_ℚ, ◌+ℚ◌, ◌-ℚ◌, ◌*ℚ◌, inv_ℚ};
ghost use Rattle.nf_frac.specs.Range.{Passes};
ghost use Rattle.nf_sums.specs.Terms.{PassesIn, with_sign};
ghost use Rattle.nf_inverse.specs.Causes.{AddsMultiple, ExchangeTerms, ScaledTerms, SubtractsMultiple};
ghost use Rattle.nf_inverse.specs.Exchanged.{IsExchanged, IsPut, IsScaled};
ghost use Rattle.nf_inverse.specs.Weights.{IsSquare, at, rows_of, weight, weights_of};

use nf_frac::{Frac, Op, Passed, Steps};
use nf_sums::{add_product, is_zero, sub_product};
use std::sync::ledger::Ledger;

/// Adds to each number of `total` the number of `a` at its place times `factor`. A product of 0 takes no step, and any
/// other at most two.
///
/// `Passed` only where such a product, or the sum of a number and its product, passes 128 bits.
pub fn add_multiple<L: Ledger>(
    total: &mut [Frac],
    a: &[Frac],
    factor: Frac,
    steps: &mut Steps<L>,
) -> Result<(), Passed>
    requires places { length total.old ≡ length a.now }
    ensures value { IfOk result (λ _. (k : ℕ) → k < length total.old → at total.new k ≡ at total.old k +ℚ at a.now k *ℚ factor) }
    ensures passed { IfErr result (AddsMultiple total.old (length total.old) (at a.now) factor) }
    ensures cost { steps.new ≤ steps.old + 2 * length total.old }
{
    if is_zero(factor) {
        return Ok(());
    }
    for k in 0..total.len() {
        // Most weights are 0: such a place is neither read nor written.
        if is_zero(a[k]) {
            continue;
        }
        total[k] = add_product(total[k], a[k], factor, steps)?;
    }
    Ok(())
}

/// Takes from each number of `total` the number of `a` at its place times `factor`.
pub(crate) fn sub_multiple<L: Ledger>(
    total: &mut [Frac],
    a: &[Frac],
    factor: Frac,
    steps: &mut Steps<L>,
) -> Result<(), Passed>
    requires places { length total.old ≡ length a.now }
    ensures value { IfOk result (λ _. (k : ℕ) → k < length total.old → at total.new k ≡ at total.old k -ℚ at a.now k *ℚ factor) }
    ensures passed { IfErr result (SubtractsMultiple total.old (length total.old) (at a.now) factor) }
    ensures cost { steps.new ≤ steps.old + 2 * length total.old }
{
    if is_zero(factor) {
        return Ok(());
    }
    for k in 0..total.len() {
        // Most weights are 0: such a place is neither read nor written.
        if is_zero(a[k]) {
            continue;
        }
        total[k] = sub_product(total[k], a[k], factor, steps)?;
    }
    Ok(())
}

/// A number divided by another. 0 takes no step.
fn quotient<L: Ledger>(a: Frac, b: Frac, steps: &mut Steps<L>) -> Result<Frac, Passed>
    requires pivot { b ≢ zero_ℚ }
    ensures value { IfOk result (λ r. r ≡ a *ℚ inv_ℚ b) }
    ensures passed { IfErr result (λ p. (p ≡ record { op = Op.Div; left = a; right = b }) × Passes Op.Div a b) }
    ensures cost { steps.new ≤ steps.old + 1 }
{
    if is_zero(a) {
        return Ok(a);
    }
    let quotient = a.div(b, steps)?;
    Ok(quotient)
}

/// Puts the numbers of a row, divided by `entry`, into `scaled`.
fn scale_row<L: Ledger>(
    row: &[Frac],
    entry: Frac,
    scaled: &mut [Frac],
    steps: &mut Steps<L>,
) -> Result<(), Passed>
    requires pivot { entry ≢ zero_ℚ }
    requires places { length scaled.old ≡ length row.now }
    ensures value { IfOk result (λ _. IsScaled scaled.new row.now entry) }
    ensures passed { IfErr result (PassesIn (ScaledTerms row.now entry)) }
    ensures cost { steps.new ≤ steps.old + length row.now }
{
    for i in 0..row.len() {
        scaled[i] = quotient(row[i], entry, steps)?;
    }
    Ok(())
}

/// The number at place `i` of row `s`.
pub(crate) fn cell(rows: &[Vec<Frac>], s: usize, i: usize) -> Frac
    requires square { IsSquare (rows_of rows.now) }
    requires row { s < length rows.now }
    requires place { i < length rows.now }
    ensures { result ≡ weight (rows_of rows.now) s i }
{
    rows[s][i]
}

/// Puts a number at place `i` of row `s`.
pub(crate) fn put_cell(rows: &mut [Vec<Frac>], s: usize, i: usize, number: Frac)
    requires square { IsSquare (rows_of rows.old) }
    requires row { s < length rows.old }
    requires place { i < length rows.old }
    ensures square { IsSquare (rows_of rows.new) }
    ensures value { IsPut (rows_of rows.old) (rows_of rows.new) s i number }
{
    rows[s][i] = number;
}

/// Puts as many numbers in place of row `s`.
fn put_row(rows: &mut [Vec<Frac>], s: usize, numbers: &[Frac])
    requires square { IsSquare (rows_of rows.old) }
    requires row { s < length rows.old }
    requires places { length numbers.now ≡ length rows.old }
    ensures square { IsSquare (rows_of rows.new) }
    ensures value { weights_of (rows_of rows.new) s ≡ numbers.now }
    ensures others { (k : ℕ) → k ≢ s → weights_of (rows_of rows.new) k ≡ weights_of (rows_of rows.old) k }
{
    rows[s].as_mut_slice().copy_from_slice(numbers);
}

/// Takes a multiple of `scaled` from row `s`.
fn update_row<L: Ledger>(
    rows: &mut [Vec<Frac>],
    s: usize,
    scaled: &[Frac],
    factor: Frac,
    steps: &mut Steps<L>,
) -> Result<(), Passed>
    requires square { IsSquare (rows_of rows.old) }
    requires row { s < length rows.old }
    requires places { length scaled.now ≡ length rows.old }
    ensures square { IsSquare (rows_of rows.new) }
    ensures others { (k : ℕ) → k ≢ s → weights_of (rows_of rows.new) k ≡ weights_of (rows_of rows.old) k }
    ensures value { IfOk result (λ _. (i : ℕ) → i < length rows.old → weight (rows_of rows.new) s i ≡ weight (rows_of rows.old) s i -ℚ at scaled.now i *ℚ factor) }
    ensures passed { IfErr result (SubtractsMultiple (weights_of (rows_of rows.old) s) (length rows.old) (at scaled.now) factor) }
    ensures cost { steps.new ≤ steps.old + 2 * length rows.old }
{
    sub_multiple(rows[s].as_mut_slice(), scaled, factor, steps)?;
    Ok(())
}

/// Takes from each row but the leaving one its entry times `scaled`.
fn update_rows<L: Ledger>(
    rows: &mut [Vec<Frac>],
    entries: &[Frac],
    leaving: usize,
    scaled: &[Frac],
    steps: &mut Steps<L>,
) -> Result<(), Passed>
    requires square { IsSquare (rows_of rows.old) }
    requires entries { length entries.now ≡ length rows.old }
    requires places { length scaled.now ≡ length rows.old }
    ensures square { IsSquare (rows_of rows.new) }
    ensures kept { weights_of (rows_of rows.new) leaving ≡ weights_of (rows_of rows.old) leaving }
    ensures value { IfOk result (λ _. (s i : ℕ) → s < length rows.old → i < length rows.old → s ≢ leaving → weight (rows_of rows.new) s i ≡ weight (rows_of rows.old) s i -ℚ at scaled.now i *ℚ at entries.now s) }
    ensures passed { IfErr result (λ p. (s : ℕ) × (s < length rows.old) × SubtractsMultiple (weights_of (rows_of rows.old) s) (length rows.old) (at scaled.now) (at entries.now s) p) }
    ensures cost { steps.new ≤ steps.old + length rows.old * (2 * length rows.old) }
{
    for s in 0..rows.len() {
        if s != leaving {
            update_row(rows, s, scaled, entries[s], steps)?;
        }
    }
    Ok(())
}

/// Divides the leaving row by its entry, and takes from each other row its entry times that. `room` is overwritten.
pub(crate) fn exchange_rows<L: Ledger>(
    rows: &mut [Vec<Frac>],
    room: &mut [Frac],
    entries: &[Frac],
    leaving: usize,
    steps: &mut Steps<L>,
) -> Result<(), Passed>
    requires square { IsSquare (rows_of rows.old) }
    requires room { length room.old ≡ length rows.old }
    requires places { length entries.now ≡ length rows.old }
    requires slot { leaving < length rows.old }
    requires pivot { at entries.now leaving ≢ zero_ℚ }
    ensures square { IsSquare (rows_of rows.new) }
    ensures value { IfOk result (λ _. IsExchanged (rows_of rows.old) (rows_of rows.new) (at entries.now) leaving) }
    ensures passed { IfErr result (PassesIn (ExchangeTerms (rows_of rows.old) (at entries.now) leaving)) }
    ensures cost { steps.new ≤ steps.old + length rows.old * (2 * length rows.old) + length rows.old }
{
    scale_row(rows[leaving].as_slice(), entries[leaving], room, steps)?;
    update_rows(rows, entries, leaving, room, steps)?;
    put_row(rows, leaving, room);
    Ok(())
}

/// A number, or it negated.
pub(crate) fn signed(negative: bool, a: Frac) -> Frac
    ensures { result ≡ with_sign negative a }
{
    if negative { a.neg() } else { a }
}
