// Matrices of three rows, plainly: products by their definition, the inverse by cofactors.
ghost use Rattle.std.specs.Prelude.{◌≢◌, ◌<◌};
ghost use Rattle.nf_num.specs.Rational.{zero_ℚ};
ghost use Rattle.nf_work.specs.Causes.{numbers};

use nf_frac::{Frac, Passed, Steps};
use nf_sums::{add_product, is_zero};
use std::sync::ledger::Ledger;

pub(crate) type Column = [Frac; 3];

/// By row, and then by place. An inverse is by place, and then by row.
pub(crate) type Matrix = [[Frac; 3]; 3];

pub(crate) fn zeros() -> Column {
    [Frac::zero(), Frac::zero(), Frac::zero()]
}

pub(crate) fn identity() -> Matrix {
    let mut unit = [zeros(), zeros(), zeros()];
    for row in 0..3 {
        unit[row][row] = Frac::from_whole(1);
    }
    unit
}

/// A matrix with another column in a place.
pub(crate) fn with_column(q: &Matrix, at: usize, column: &Column) -> Matrix
    requires at { at < 3 }
{
    let mut changed = *q;
    for row in 0..3 {
        changed[row][at] = column[row];
    }
    changed
}

/// The product of a matrix and a column.
pub(crate) fn times<L: Ledger>(
    a: &Matrix,
    column: &Column,
    steps: &mut Steps<L>,
) -> Result<Column, Passed> {
    let mut product = zeros();
    for i in 0..3 {
        for j in 0..3 {
            product[i] = add_product(product[i], a[i][j], column[j], steps)?;
        }
    }
    Ok(product)
}

/// The product of a row and a matrix.
pub(crate) fn times_left<L: Ledger>(
    row: &Column,
    a: &Matrix,
    steps: &mut Steps<L>,
) -> Result<Column, Passed> {
    let mut product = zeros();
    for j in 0..3 {
        for i in 0..3 {
            product[j] = add_product(product[j], row[i], a[i][j], steps)?;
        }
    }
    Ok(product)
}

/// The product of a matrix and the identity with its row `at` changed: `-1 / row[at]` in place `at`, and
/// `-row[j] / row[at]` in each other place j.
pub(crate) fn with_row<L: Ledger>(
    q: &Matrix,
    row: &Column,
    at: usize,
    steps: &mut Steps<L>,
) -> Result<Matrix, Passed>
    requires at { at < 3 }
    requires not_zero { numbers row.now at ≢ zero_ℚ }
{
    let mut numbers = *row;
    numbers[at] = Frac::from_whole(1);
    let mut factor = identity();
    for j in 0..3 {
        factor[at][j] = numbers[j].div(row[at], steps)?.neg();
    }
    let mut product = *q;
    for i in 0..3 {
        product[i] = times_left(&q[i], &factor, steps)?;
    }
    Ok(product)
}

// The other two numbers below 3, in cyclic order.
fn others(i: usize) -> (usize, usize)
    ensures first { result.0 < 3 }
    ensures second { result.1 < 3 }
{
    match i {
        0 => (1, 2),
        1 => (2, 0),
        _ => (0, 1),
    }
}

fn cofactor<L: Ledger>(
    q: &Matrix,
    row: usize,
    place: usize,
    steps: &mut Steps<L>,
) -> Result<Frac, Passed> {
    let ((r, s), (a, b)) = (others(row), others(place));
    let first = q[r][a].mul(q[s][b], steps)?;
    let second = q[r][b].mul(q[s][a], steps)?;
    first.sub(second, steps)
}

/// The inverse by Cramer's rule; none if the determinant is 0.
pub(crate) fn inverse<L: Ledger>(
    q: &Matrix,
    steps: &mut Steps<L>,
) -> Result<Option<Matrix>, Passed> {
    let mut determinant = Frac::zero();
    for place in 0..3 {
        determinant = add_product(
            determinant,
            q[0][place],
            cofactor(q, 0, place, steps)?,
            steps,
        )?;
    }
    if is_zero(determinant) {
        return Ok(None);
    }
    let mut inverse = *q;
    for place in 0..3 {
        for row in 0..3 {
            inverse[place][row] = cofactor(q, row, place, steps)?.div(determinant, steps)?;
        }
    }
    Ok(Some(inverse))
}
