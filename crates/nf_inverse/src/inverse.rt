//! The inverse of a square matrix, whose columns stand in slots.
ghost use Rattle.std.specs.Prelude.{◌≡◌, ◌≢◌, ℕ, ◌+◌, ◌*◌, ◌<◌, ◌≤◌, Bool, length, nat_eq, if◌then◌else◌, IfOk, IfErr};
ghost use Rattle.nf_num.specs.Rational.{ℚ, zero_ℚ, one_ℚ, ◌+ℚ◌, ◌*ℚ◌};
ghost use Rattle.nf_num.specs.Sum.{sum_ℚ};
ghost use Rattle.nf_sums.specs.Steps.{GivesNumber};
ghost use Rattle.nf_sums.specs.Terms.{PassesIn, with_sign};
ghost use Rattle.nf_inverse.specs.Causes.{AddsMultiple, DualTerms, EntryTerms, ExchangeTerms};
ghost use Rattle.nf_inverse.specs.Exchanged.{IsExchanged, IsPut};
ghost use Rattle.nf_inverse.specs.Weights.{GivesEntries, GivesSign, IsDiagonal, IsSquare, at, rows_of, weight, weights_of};

use crate::rows::{add_multiple, cell, exchange_rows, put_cell, signed};
use nf_frac::{Frac, Passed, Steps};
use nf_sums::{add_product, is_zero};
use std::alloc::{AllocError, Global};
use std::marker::Model;
use std::sync::ledger::Ledger;

/// The inverse of a square matrix whose columns stand in slots, counted from 0 as its rows are: for each slot the
/// weights, by row, of this column in a combination of the matrix's columns. It is seen as these lists of weights.
///
/// No call but `signs` takes memory.
#[derive(Drop)]
pub struct Inverse {
    rows: Vec<Vec<Frac>>,
    room: Vec<Frac>,
}

impl Model for Inverse {
    ghost use Rattle.std.specs.Prelude.{List};
    ghost use Rattle.std.specs.Coded.{codes};
    ghost use Rattle.nf_num.specs.Rational.{ℚ};
    ghost use Rattle.nf_num.proofs.Coding.{ℚ_code};
    ghost use Rattle.nf_inverse.specs.Weights.{AreStored, rows_of};

    ghost Value = { List (List ℚ) };

    ghost coded = { Prim.hlevel (codes, ℚ_code) };

    ghost view = { λ a. rows_of a.rows.items };

    ghost invariant = { λ a. AreStored (rows_of a.rows.items) a.room.items };
}

impl Inverse {
    /// The inverse of the diagonal of 1, and of -1 where `negative` says so: the same diagonal.
    /// `AllocError` where there is no memory for `(size + 1) * size` fractions.
    pub fn signs<F: Fn(usize) -> bool>(
        alloc: Global,
        size: usize,
        negative: F,
    ) -> Result<Inverse, AllocError>
        requires given { (k : ℕ) → k < size → F.pre negative k }
        ensures square { IfOk result IsSquare }
        ensures weights { (n : ℕ → Bool) → GivesSign (F.post negative) size n → IfOk result (IsDiagonal size n) }
    {
        let mut rows = Vec::with_capacity(alloc, size)?;
        for s in 0..size {
            rows.push(sign_row(alloc, size, s, negative(s))?)?;
        }
        let room = zeros(alloc, size)?;
        Ok(Inverse { rows, room })
    }

    /// How many slots there are, and rows.
    pub fn size(&self) -> usize
        ensures number { result ≡ length self.now }
        ensures square { IsSquare self.now }
    {
        self.rows.len()
    }

    /// The weight of a slot at a row.
    pub fn weight(&self, slot: usize, row: usize) -> Frac
        requires slot { slot < length self.now }
        requires row { row < length self.now }
        ensures { result ≡ weight self.now slot row }
    {
        cell(self.rows.as_slice(), slot, row)
    }

    /// The weights of a slot, by row.
    pub fn row(&self, slot: usize) -> &[Frac]
        requires slot { slot < length self.now }
        ensures weights { result.now ≡ weights_of self.now slot }
        ensures one_each { length result.now ≡ length self.now }
    {
        self.rows[slot].as_slice()
    }

    /// Changes one weight.
    pub fn put(&mut self, slot: usize, row: usize, weight: Frac)
        requires slot { slot < length self.old }
        requires row { row < length self.old }
        ensures size { length self.new ≡ length self.old }
        ensures weights { IsPut self.old self.new slot row weight }
    {
        put_cell(self.rows.as_mut_slice(), slot, row, weight);
    }

    /// The inverse's column of a row: the weight of each slot there. It takes no step.
    pub fn inverse_column(&self, row: usize, out: &mut [Frac])
        requires row { row < length self.now }
        requires places { length out.old ≡ length self.now }
        ensures { (s : ℕ) → s < length self.now → at out.new s ≡ weight self.now s row }
    {
        for s in 0..self.size() {
            out[s] = self.weight(s, row);
        }
    }

    /// The entries of a column by slot: its weights in a combination of the matrix's columns. `entry` gives its row and
    /// value at each number below `count`, no row twice. At most `2 * count * size` steps.
    ///
    /// `Passed` only where a weight times what the column has at its row, or the sum of some of these products for one
    /// slot and another such, passes 128 bits.
    pub fn column<F: Fn(usize) -> (usize, Frac), L: Ledger>(
        &self,
        count: usize,
        entry: F,
        out: &mut [Frac],
        steps: &mut Steps<L>,
    ) -> Result<(), Passed>
        requires given { (k : ℕ) → k < count → F.pre entry k }
        requires within { (k : ℕ) (t : ℕ × ℚ) → k < count → F.post entry k t → t.0 < length self.now }
        requires places { length out.old ≡ length self.now }
        ensures value { (a : ℕ → ℚ) → GivesEntries (F.post entry) count (length self.now) a → IfOk result (λ _. (s : ℕ) → s < length self.now → at out.new s ≡ sum_ℚ (length self.now) (λ i. weight self.now s i *ℚ a i)) }
        ensures passed { (a : ℕ → ℚ) → GivesEntries (F.post entry) count (length self.now) a → IfErr result (PassesIn (EntryTerms self.now a)) }
        ensures cost { steps.new ≤ steps.old + count * (2 * length self.now) }
    {
        set_zero(out);
        for k in 0..count {
            let (row, value) = entry(k);
            self.add_column(row, value, out, steps)?;
        }
        Ok(())
    }

    /// The duals by row, for costs by slot: for each row the sum of weight times cost. A cost of 0 takes no step, and
    /// all take at most `2 * size * size`.
    ///
    /// `Passed` only where a weight times a cost, or the sum of some of these products for one row and another such,
    /// passes 128 bits.
    pub fn duals<F: Fn(usize) -> Frac, L: Ledger>(
        &self,
        cost: F,
        out: &mut [Frac],
        steps: &mut Steps<L>,
    ) -> Result<(), Passed>
        requires given { (s : ℕ) → s < length self.now → F.pre cost s }
        requires places { length out.old ≡ length self.now }
        ensures value { (c : ℕ → ℚ) → GivesNumber (F.post cost) (length self.now) c → IfOk result (λ _. (i : ℕ) → i < length self.now → at out.new i ≡ sum_ℚ (length self.now) (λ s. weight self.now s i *ℚ c s)) }
        ensures passed { (c : ℕ → ℚ) → GivesNumber (F.post cost) (length self.now) c → IfErr result (PassesIn (DualTerms self.now c)) }
        ensures cost { steps.new ≤ steps.old + length self.now * (2 * length self.now) }
    {
        set_zero(out);
        for s in 0..self.size() {
            add_multiple(out, self.row(s), cost(s), steps)?;
        }
        Ok(())
    }

    /// The inverse after the column with these entries, by slot, has taken the leaving slot: the product form (G. B.
    /// Dantzig and W. Orchard-Hays, The Product Form for the Inverse in the Simplex Method, 1954). The leaving slot's
    /// weights are divided by its entry, and from each other slot's weights its entry times these is taken. An entry of
    /// 0 takes no step, nor does a weight of 0 in the leaving slot; all take at most `2 * size * size + size`.
    ///
    /// `Passed` only where such an operation passes 128 bits. The weights are then of no use.
    pub fn exchange<L: Ledger>(
        &mut self,
        entries: &[Frac],
        leaving: usize,
        steps: &mut Steps<L>,
    ) -> Result<(), Passed>
        requires places { length entries.now ≡ length self.old }
        requires slot { leaving < length self.old }
        requires pivot { at entries.now leaving ≢ zero_ℚ }
        ensures size { length self.new ≡ length self.old }
        ensures value { IfOk result (λ _. IsExchanged self.old self.new (at entries.now) leaving) }
        ensures passed { IfErr result (PassesIn (ExchangeTerms self.old (at entries.now) leaving)) }
        ensures cost { steps.new ≤ steps.old + length self.old * (2 * length self.old) + length self.old }
    {
        exchange_rows(
            self.rows.as_mut_slice(),
            self.room.as_mut_slice(),
            entries,
            leaving,
            steps,
        )?;
        Ok(())
    }

    // Adds to each number of `total` its slot's weight at the row times `factor`.
    fn add_column<L: Ledger>(
        &self,
        row: usize,
        factor: Frac,
        total: &mut [Frac],
        steps: &mut Steps<L>,
    ) -> Result<(), Passed>
        requires row { row < length self.now }
        requires places { length total.old ≡ length self.now }
        ensures value { IfOk result (λ _. (s : ℕ) → s < length total.old → at total.new s ≡ at total.old s +ℚ weight self.now s row *ℚ factor) }
        ensures passed { IfErr result (AddsMultiple total.old (length total.old) (λ s. weight self.now s row) factor) }
        ensures cost { steps.new ≤ steps.old + 2 * length total.old }
    {
        if is_zero(factor) {
            return Ok(());
        }
        for s in 0..self.size() {
            let weight = self.weight(s, row);
            if is_zero(weight) {
                continue;
            }
            total[s] = add_product(total[s], weight, factor, steps)?;
        }
        Ok(())
    }
}

// As many zeros.
fn zeros(alloc: Global, size: usize) -> Result<Vec<Frac>, AllocError>
    ensures len { IfOk result (λ v. length v.items ≡ size) }
    ensures zeros { IfOk result (λ v. (k : ℕ) → at v.items k ≡ zero_ℚ) }
{
    let mut row = Vec::with_capacity(alloc, size)?;
    row.resize(size, Frac::zero())?;
    Ok(row)
}

// The row of a diagonal that has 1 or -1 at its own place.
fn sign_row(alloc: Global, size: usize, own: usize, negative: bool) -> Result<Vec<Frac>, AllocError>
    requires within { own < size }
    ensures len { IfOk result (λ v. length v.items ≡ size) }
    ensures weights { IfOk result (λ v. (i : ℕ) → at v.items i ≡ (if nat_eq own i then with_sign negative one_ℚ else zero_ℚ)) }
{
    let mut row = zeros(alloc, size)?;
    row[own] = signed(negative, Frac::from_whole(1));
    Ok(row)
}

fn set_zero(out: &mut [Frac])
    ensures { (k : ℕ) → at out.new k ≡ zero_ℚ }
{
    for k in 0..out.len() {
        out[k] = Frac::zero();
    }
}
