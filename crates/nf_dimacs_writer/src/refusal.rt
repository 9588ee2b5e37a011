//! The first refusal of a problem.
ghost use Rattle.std.specs.Prelude.{◌≡◌, ◌-◌, length};
ghost use Rattle.nf_model.specs.Program.{column, row};
ghost use Rattle.nf_prob.specs.Numbers.{IsNumber};
ghost use Rattle.nf_dimacs_writer.specs.Refusal.{capacity_refusal, column_refusal, figures_refusal, first_refusal, has_constraints, is_short, is_short_bound, is_whole, refusal_of, row_refusal};

use crate::fault::ExportFault;
use nf_frac::Frac;
use nf_prob::Problem;

fn is_whole(x: Frac) -> bool
    ensures { result ≡ is_whole x }
{
    x.den() == 1
}

fn is_short(x: Frac) -> bool
    ensures { result ≡ is_short x }
{
    is_whole(x) && -999_999_999 <= x.num() && x.num() <= 999_999_999
}

fn is_short_bound(bound: &Option<Frac>) -> bool
    ensures { result ≡ is_short_bound bound.now }
{
    match bound {
        None => true,
        Some(x) => is_short(*x),
    }
}

// The refusal of row i.
fn row_refusal(p: &Problem, i: u32) -> Option<ExportFault>
    requires { IsNumber i (length p.now.rows) }
    ensures { result ≡ row_refusal i (row p.now (i - 1)) }
{
    if is_short(p.right(i)) {
        None
    } else {
        Some(ExportFault::RowNumber(i))
    }
}

fn capacity_refusal(j: u32, upper: Option<Frac>) -> Option<ExportFault>
    ensures { result ≡ capacity_refusal j upper }
{
    match upper {
        None => Some(ExportFault::NoCapacity(j)),
        Some(u) => {
            if u.num() < 0 {
                Some(ExportFault::Negative(j))
            } else {
                None
            }
        }
    }
}

// The refusal of column j.
fn column_refusal(p: &Problem, j: u32) -> Option<ExportFault>
    requires { IsNumber j (length p.now.columns) }
    ensures { result ≡ column_refusal j (column p.now (j - 1)) }
{
    figures_refusal(j, p.cost(j), p.lower(j), p.upper(j))
}

// The refusal of a column with this cost and these bounds.
fn figures_refusal(
    j: u32,
    cost: Frac,
    lower: Option<Frac>,
    upper: Option<Frac>,
) -> Option<ExportFault>
    ensures { result ≡ figures_refusal j cost lower upper }
{
    if is_short(cost) && is_short_bound(&lower) && is_short_bound(&upper) {
        capacity_refusal(j, upper)
    } else {
        Some(ExportFault::ColumnNumber(j))
    }
}

// The first refusal of a row.
fn first_of_rows(p: &Problem) -> Option<ExportFault>
    ensures { result ≡ first_refusal row_refusal 1 p.now.rows }
{
    for i in 0..p.rows() {
        if let Some(refusal) = row_refusal(p, i + 1) {
            return Some(refusal);
        }
    }
    None
}

// The first refusal of a column.
fn first_of_columns(p: &Problem) -> Option<ExportFault>
    ensures { result ≡ first_refusal column_refusal 1 p.now.columns }
{
    for j in 0..p.columns() {
        if let Some(refusal) = column_refusal(p, j + 1) {
            return Some(refusal);
        }
    }
    None
}

/// The first refusal of a problem, if it has one.
pub(crate) fn refusal_of(p: &Problem) -> Option<ExportFault>
    ensures { result ≡ refusal_of p.now }
{
    if p.nodes() < p.rows() || p.arcs() < p.columns() {
        return Some(ExportFault::Constraints);
    }
    match first_of_rows(p) {
        Some(refusal) => Some(refusal),
        None => first_of_columns(p),
    }
}
