// Lists of a state's numbers.
ghost use Rattle.std.specs.Prelude.{◌≡◌, ◌+◌, ◌<◌, ℕ, length, IfOk};
ghost use Rattle.nf_model.specs.Lists.{list_of};
ghost use Rattle.nf_model.specs.Program.{at};
ghost use Rattle.nf_simplex.specs.Lists.{padded};
ghost use Rattle.nf_basis.specs.declared.col.Col.TheVariants.{Given};
ghost use Rattle.nf_basis.specs.Kept.{IsPresent};

use nf_basis::{Basis, Col};
use nf_frac::Frac;
use nf_prob::{Fracs, Problem};
use std::alloc::{AllocError, Global};

/// The values of the given columns.
pub(crate) fn given_values<B: Basis>(
    alloc: Global,
    p: &Problem,
    basis: &B,
) -> Result<Fracs, AllocError>
    requires numbers { B.HasNumbers p.now basis.now }
    requires present { (j : ℕ) → j < length p.now.columns → IsPresent p.now (B.standing basis.now) (Given (j + 1)) }
    ensures { IfOk result (λ xs. xs ≡ list_of (length p.now.columns) (B.values p.now basis.now)) }
{
    let mut values = Fracs::new(alloc);
    for j in 0..p.columns() {
        values.push(basis.value(p, Col::Given(j + 1)))?;
    }
    Ok(values)
}

// The number at a place, and 0 where the list has none.
fn member(numbers: &[Frac], i: u32) -> Frac
    ensures { result ≡ at numbers.now i }
{
    match numbers.get(i as usize) {
        Some(number) => *number,
        None => Frac::zero(),
    }
}

/// These numbers by row, and 0 for each row that they lack.
pub(crate) fn by_row(alloc: Global, p: &Problem, numbers: &[Frac]) -> Result<Fracs, AllocError>
    ensures { IfOk result (λ ys. ys ≡ list_of (length p.now.rows) (padded (length numbers.now) (at numbers.now))) }
{
    let mut list = Fracs::new(alloc);
    for i in 0..p.rows() {
        list.push(member(numbers, i))?;
    }
    Ok(list)
}

/// A list of these numbers.
pub(crate) fn list(alloc: Global, numbers: &[Frac]) -> Result<Fracs, AllocError>
    ensures { IfOk result (λ xs. xs ≡ numbers.now) }
{
    let mut list = Fracs::new(alloc);
    for number in numbers {
        list.push(*number)?;
    }
    Ok(list)
}
