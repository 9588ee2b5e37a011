//! Whether columns are independent: the inverse of all, or the first that is a combination of those before it.
ghost use Rattle.std.specs.Prelude.{◌≡◌, ◌≢◌, ℕ, ◌+◌, ◌*◌, ◌<◌, ◌≤◌, length, true, false, Some, None, IfOk, IfErr, IfSome};
ghost use Rattle.nf_num.specs.Rational.{ℚ, zero_ℚ};
ghost use Rattle.nf_sums.specs.Terms.{PassesIn};
ghost use Rattle.nf_work.specs.Causes.{ReplaceTerms, numbers};
ghost use Rattle.nf_work.specs.Rank.{IsRankFault, IsRankOf};
ghost use Rattle.nf_work.specs.Taken.{HasTaken, IsSpanned, NoneFrom, column_at};

use crate::fault::RankFault;
use crate::places::swap;
use crate::work::{Work, entries_of};
use nf_frac::{Frac, Passed, Steps};
use nf_inverse::Inverse;
use nf_prob::Fracs;
use nf_sums::is_zero;
use std::alloc::{AllocError, Global};
use std::sync::ledger::Ledger;

/// Whether columns are independent.
#[derive(Drop)]
pub enum Rank {
    /// They are: the inverse of the matrix that has them in their places.
    Full(Work),
    /// The first that is a combination of those before it, and the weights of these.
    Dependent { at: u32, weights: Fracs },
}

/// The rank of k columns of k numbers each, which are listed one after the other.
///
/// `Passed` only if an operation overflows 128 bits in the entries of a column by the inverse of the columns taken so
/// far and of unit columns, or in the update by them.
pub fn rank_check<L: Ledger>(
    alloc: Global,
    columns: &[Frac],
    k: u32,
    steps: &mut Steps<L>,
) -> Result<Rank, RankFault>
    requires places { length columns.now ≡ k * k }
    ensures rank { IfOk result (IsRankOf k (numbers columns.now)) }
    ensures fault { IfErr result (IsRankFault k (numbers columns.now)) }
{
    let size = k as usize;
    let (mut inverse, mut entries) = Work::new(alloc, k)?.into_parts();
    for at in 0..size {
        let column = column_of(columns, size, at);
        if !bring(&mut inverse, entries.as_mut_slice(), at, column, steps)? {
            let weights = first_of(alloc, entries.as_slice(), at)?;
            return Ok(Rank::Dependent {
                at: at as u32,
                weights,
            });
        }
    }
    Ok(Rank::Full(Work::of_parts(inverse, entries)))
}

// The numbers of column `at`.
fn column_of(columns: &[Frac], size: usize, at: usize) -> &[Frac]
    requires places { length columns.now ≡ size * size }
    requires at { at < size }
    ensures len { length result.now ≡ size }
    ensures value { (r : ℕ) → r < size → numbers result.now r ≡ column_at size (numbers columns.now) at r }
{
    let (_, from) = columns.split_at(at * size);
    let (column, _) = from.split_at(size);
    column
}

// A place from `first` on that has an entry other than 0.
fn free_place(entries: &[Frac], first: usize) -> Option<usize>
    ensures free { IfSome result (λ a. (a < length entries.now) × (first ≤ a) × (numbers entries.now a ≢ zero_ℚ)) }
    ensures none { result ≡ None → NoneFrom (length entries.now) first (numbers entries.now) }
{
    for (place, entry) in entries.iter().enumerate() {
        if first <= place && !is_zero(*entry) {
            return Some(place);
        }
    }
    None
}

// Takes a column into place `at` if a place from there on has an entry of it other than 0, and says whether. If none has,
// `room` has its entries.
fn bring<L: Ledger>(
    inverse: &mut Inverse,
    room: &mut [Frac],
    at: usize,
    column: &[Frac],
    steps: &mut Steps<L>,
) -> Result<bool, Passed>
    requires at { at < length inverse.old }
    requires column { length column.now ≡ length inverse.old }
    requires room { length room.old ≡ length inverse.old }
    ensures size { length inverse.new ≡ length inverse.old }
    ensures brought { (xs : ℕ → ℚ) → ((r : ℕ) → r < length inverse.old → numbers column.now r ≡ column_at (length inverse.old) xs at r) → HasTaken (length inverse.old) xs at inverse.old → IfOk result (λ b. b ≡ true → HasTaken (length inverse.old) xs (at + 1) inverse.new) }
    ensures spanned { IfOk result (λ b. b ≡ false → IsSpanned (length inverse.old) (numbers column.now) at inverse.old (numbers room.new)) }
    ensures passed { IfErr result (λ p. (place : ℕ) × PassesIn (ReplaceTerms inverse.old place (numbers column.now)) p) }
{
    entries_of(inverse, column, room, steps)?;
    let Some(place) = free_place(room, at) else {
        return Ok(false);
    };
    inverse.exchange(room, place, steps)?;
    swap(inverse, at, place);
    Ok(true)
}

// The numbers before a place.
fn first_of(alloc: Global, entries: &[Frac], end: usize) -> Result<Fracs, AllocError>
    requires within { end ≤ length entries.now }
    ensures len { IfOk result (λ f. length f ≡ end) }
    ensures value { IfOk result (λ f. (a : ℕ) → a < end → numbers f a ≡ numbers entries.now a) }
{
    let mut first = Fracs::new(alloc);
    for a in 0..end {
        first.push(entries[a])?;
    }
    Ok(first)
}
