//! The working inverse: it solves for its matrix, and follows replacements of its columns.
ghost use Rattle.std.specs.Prelude.{◌≡◌, ◌≢◌, ℕ, ◌+◌, ◌*◌, ◌<◌, ◌≤◌, length, false, IfOk, IfErr};
ghost use Rattle.nf_num.specs.Rational.{zero_ℚ, neg_ℚ};
ghost use Rattle.nf_num.specs.Sum.{delta};
ghost use Rattle.nf_sums.specs.Terms.{PassesIn};
ghost use Rattle.nf_inverse.specs.Causes.{DualTerms, EntryTerms};
ghost use Rattle.nf_work.specs.Causes.{IsChangedByRow, entries, numbers};
ghost use Rattle.nf_work.specs.Changed.{HasReplaced, HasReplacedRow, IsInverseOf, IsPassedIn, IsReplaceFault, IsRowFault};
ghost use Rattle.nf_work.specs.Matrix.{Combines, Matrix, Prices};

use crate::fault::WorkFault;
use crate::places::put_weights;
use nf_frac::{Frac, Passed, Steps};
use nf_inverse::Inverse;
use nf_sums::is_zero;
use std::alloc::{AllocError, Global};
use std::marker::Model;
use std::sync::ledger::Ledger;

/// The inverse of a square matrix whose columns have places, counted from 0 as its rows are: for each place the weights,
/// by row, of its column in the combinations that give the unit columns (the working inverse of J. L. Kennington and R. V.
/// Helgason, Algorithms for Network Programming, 1980). It is seen as these lists of weights.
///
/// After a fault of a replacement it is of no use. Only `new` takes memory.
#[derive(Drop)]
pub struct Work {
    inverse: Inverse,
    // Room for the entries of a column, or the weights of a place.
    room: Vec<Frac>,
}

impl Model for Work {
    ghost use Rattle.std.specs.Prelude.{◌≡◌, List, length};
    ghost use Rattle.std.specs.Coded.{codes};
    ghost use Rattle.nf_num.specs.Rational.{ℚ};
    ghost use Rattle.nf_num.proofs.Coding.{ℚ_code};

    ghost Value = { List (List ℚ) };

    ghost coded = { Prim.hlevel (codes, ℚ_code) };

    ghost view = { λ a. a.inverse };

    ghost invariant = { λ a. length a.room.items ≡ length a.inverse };
}

impl Work {
    /// The inverse of the identity: itself. `AllocError` if out of memory.
    pub fn new(alloc: Global, k: u32) -> Result<Work, AllocError>
        ensures size { IfOk result (λ w. length w ≡ k) }
        ensures identity { IfOk result (IsInverseOf delta) }
    {
        let size = k as usize;
        let plain = |_: usize| -> bool
            ensures { result ≡ false }
        { false };
        let inverse = Inverse::signs(alloc, size, plain)?;
        let room = vec![in alloc; Frac::zero(); size]?;
        Ok(Work { inverse, room })
    }

    // The inverse, and room for a column.
    pub(crate) fn into_parts(self) -> (Inverse, Vec<Frac>)
        ensures inverse { result.0 ≡ self }
        ensures room { length result.1.items ≡ length self }
    {
        let Work { inverse, room } = self;
        (inverse, room)
    }

    // A working inverse of an inverse and room for a column.
    pub(crate) fn of_parts(inverse: Inverse, room: Vec<Frac>) -> Work
        requires room { length room.items ≡ length inverse }
        ensures { result ≡ inverse }
    {
        Work { inverse, room }
    }

    /// The weights that combine the matrix's columns to `right`. An entry of 0 takes no step.
    ///
    /// `Passed` only if a weight times a number of `right`, or the sum of some of these products for one place and
    /// another such, overflows 128 bits.
    pub fn solve<L: Ledger>(
        &self,
        right: &[Frac],
        out: &mut [Frac],
        steps: &mut Steps<L>,
    ) -> Result<(), WorkFault>
        requires right { length right.now ≡ length self.now }
        requires places { length out.old ≡ length self.now }
        ensures value { (Q : Matrix) → IsInverseOf Q self.now → IfOk result (λ _. Combines (length self.now) Q (numbers out.new) (numbers right.now)) }
        ensures passed { IfErr result (IsPassedIn (EntryTerms self.now (numbers right.now))) }
        ensures cost { steps.new ≤ steps.old + 4 * ((length self.now + 1) * (length self.now + 1)) }
    {
        entries_of(&self.inverse, right, out, steps)?;
        Ok(())
    }

    /// The multipliers of the rows that give each of the matrix's columns its number in `left`. A number of 0 takes no
    /// step.
    ///
    /// `Passed` only if a weight times a number of `left`, or the sum of some of these products for one row and
    /// another such, overflows 128 bits.
    pub fn solve_left<L: Ledger>(
        &self,
        left: &[Frac],
        out: &mut [Frac],
        steps: &mut Steps<L>,
    ) -> Result<(), WorkFault>
        requires left { length left.now ≡ length self.now }
        requires places { length out.old ≡ length self.now }
        ensures value { (Q : Matrix) → IsInverseOf Q self.now → IfOk result (λ _. Prices (length self.now) Q (numbers out.new) (numbers left.now)) }
        ensures passed { IfErr result (IsPassedIn (DualTerms self.now (numbers left.now))) }
        ensures cost { steps.new ≤ steps.old + 4 * ((length self.now + 1) * (length self.now + 1)) }
    {
        let number = |place: usize| -> Frac
            requires within { place < length left.now }
            ensures { result ≡ numbers left.entry.now place }
        { left[place] };
        self.inverse.duals(number, out, steps)?;
        Ok(())
    }

    /// Puts a column in place `at` of the matrix.
    ///
    /// `Singular` exactly if the new matrix has no inverse. `Passed` only if an operation overflows 128 bits in the
    /// column's entries by the inverse, or in the update by them.
    pub fn replace_column<L: Ledger>(
        &mut self,
        at: u32,
        column: &[Frac],
        steps: &mut Steps<L>,
    ) -> Result<(), WorkFault>
        requires at { at < length self.old }
        requires places { length column.now ≡ length self.old }
        ensures size { length self.new ≡ length self.old }
        ensures value { IfOk result (λ _. HasReplaced self.old at (numbers column.now) self.new) }
        ensures fault { IfErr result (IsReplaceFault self.old at (numbers column.now)) }
        ensures cost { steps.new ≤ steps.old + 32 * ((length self.old + 1) * (length self.old + 1)) }
    {
        replace(
            &mut self.inverse,
            self.room.as_mut_slice(),
            at as usize,
            column,
            steps,
        )
    }

    /// Changes the matrix by a row, and then puts a column in place `at`. The change by the row multiplies the matrix
    /// by E, the identity but for row `at`, which has `-1 / row[at]` in place `at` and `-row[j] / row[at]` in each
    /// other place j.
    ///
    /// It follows a basis in which a key column, with the weights `row` among the nonkey columns, changes roles with the
    /// nonkey column of place `at`, and then leaves for `column`.
    ///
    /// `Singular` exactly if the new matrix has no inverse. `Passed` only if an operation overflows 128 bits in the new
    /// weights of place `at`, or after that in the column's entries or in the update by them.
    pub fn replace_row_column<L: Ledger>(
        &mut self,
        row: &[Frac],
        at: u32,
        column: &[Frac],
        steps: &mut Steps<L>,
    ) -> Result<(), WorkFault>
        requires at { at < length self.old }
        requires row { length row.now ≡ length self.old }
        requires places { length column.now ≡ length self.old }
        requires not_zero { numbers row.now at ≢ zero_ℚ }
        ensures size { length self.new ≡ length self.old }
        ensures value { IfOk result (λ _. HasReplacedRow self.old (numbers row.now) at (numbers column.now) self.new) }
        ensures fault { IfErr result (IsRowFault self.old (numbers row.now) at (numbers column.now)) }
        ensures cost { steps.new ≤ steps.old + 32 * ((length self.old + 1) * (length self.old + 1)) }
    {
        let place = at as usize;
        let room = self.room.as_mut_slice();
        change_by_row(&mut self.inverse, room, row, place, steps)?;
        replace(&mut self.inverse, room, place, column, steps)
    }
}

// The entries of a column by the inverse.
pub(crate) fn entries_of<L: Ledger>(
    inverse: &Inverse,
    column: &[Frac],
    out: &mut [Frac],
    steps: &mut Steps<L>,
) -> Result<(), Passed>
    requires column { length column.now ≡ length inverse.now }
    requires places { length out.old ≡ length inverse.now }
    ensures value { IfOk result (λ _. (a : ℕ) → a < length inverse.now → numbers out.new a ≡ entries inverse.now (numbers column.now) a) }
    ensures passed { IfErr result (PassesIn (EntryTerms inverse.now (numbers column.now))) }
    ensures cost { steps.new ≤ steps.old + length inverse.now * (2 * length inverse.now) }
{
    let entry = |row: usize| -> (usize, Frac)
        requires within { row < length column.now }
        ensures { (result.0 ≡ row) × (result.1 ≡ numbers column.entry.now row) }
    { (row, column[row]) };
    inverse.column(inverse.size(), entry, out, steps)?;
    Ok(())
}

// Changes the matrix by a row: place `at` gets minus the sum of the places' weights times their numbers in `row`. `room`
// is overwritten.
fn change_by_row<L: Ledger>(
    inverse: &mut Inverse,
    room: &mut [Frac],
    row: &[Frac],
    at: usize,
    steps: &mut Steps<L>,
) -> Result<(), Passed>
    requires at { at < length inverse.old }
    requires row { length row.now ≡ length inverse.old }
    requires room { length room.old ≡ length inverse.old }
    ensures size { length inverse.new ≡ length inverse.old }
    ensures value { IfOk result (λ _. IsChangedByRow inverse.old inverse.new (numbers row.now) at) }
    ensures passed { IfErr result (PassesIn (DualTerms inverse.old (λ b. neg_ℚ (numbers row.now b)))) }
    ensures cost { steps.new ≤ steps.old + length inverse.old * (2 * length inverse.old) }
{
    let number = |place: usize| -> Frac
        requires within { place < length row.now }
        ensures { result ≡ neg_ℚ (numbers row.entry.now place) }
    { row[place].neg() };
    inverse.duals(number, room, steps)?;
    put_weights(inverse, at, room);
    Ok(())
}

// Puts a column in place `at`. `room` is overwritten.
fn replace<L: Ledger>(
    inverse: &mut Inverse,
    room: &mut [Frac],
    at: usize,
    column: &[Frac],
    steps: &mut Steps<L>,
) -> Result<(), WorkFault>
    requires at { at < length inverse.old }
    requires places { length column.now ≡ length inverse.old }
    requires room { length room.old ≡ length inverse.old }
    ensures size { length inverse.new ≡ length inverse.old }
    ensures value { IfOk result (λ _. HasReplaced inverse.old at (numbers column.now) inverse.new) }
    ensures fault { IfErr result (IsReplaceFault inverse.old at (numbers column.now)) }
    ensures cost { steps.new ≤ steps.old + length inverse.old * (4 * length inverse.old) + length inverse.old }
{
    entries_of(inverse, column, room, steps)?;
    if is_zero(room[at]) {
        return Err(WorkFault::Singular);
    }
    inverse.exchange(room, at, steps)?;
    Ok(())
}
