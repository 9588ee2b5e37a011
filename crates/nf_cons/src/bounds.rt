//! The bounds of nonarc variables.
ghost use Rattle.std.specs.Prelude.{◌≡◌, None, Some, MatchResult};
ghost use Rattle.nf_cons.specs.Bounds.{bounds_cross, crossed_at, first_bound_fault, nonarc_defaults};
ghost use Rattle.nf_cons.specs.Naming.{IsSound};

use crate::constraints::Constraints;
use crate::fault::{at, in_row};
use crate::places::{Home, RowFault};
use crate::taken::Figures;
use nf_cells::Bound;
use nf_network::defaults_of;
use nf_program::ProcOptions;
use nf_roles::DataKind;

/// What a nonarc variable has if no row gives it: the same as an arc.
pub fn nonarc_defaults(options: &ProcOptions) -> Figures
    ensures { result ≡ nonarc_defaults options.now }
{
    let arcs = defaults_of(options);
    Figures {
        cost: arcs.cost,
        lower: Some(arcs.lower),
        upper: arcs.upper,
    }
}

// Whether both bounds are there, and the upper bound is less than the lower bound.
fn bounds_cross(figures: Figures) -> bool
    ensures { result ≡ bounds_cross figures.lower figures.upper }
{
    match (figures.lower, figures.upper) {
        (Some(lower), Bound::Finite(upper)) => upper.thousandths < lower.thousandths,
        (None, _) | (_, Bound::Infinite) => false,
    }
}

// Where crossed bounds are reported: in the last row that gave one, or else where the variable first stands.
fn crossed_at(home: Home, bound_row: Option<u32>) -> RowFault
    ensures { result ≡ crossed_at home bound_row }
{
    let row = match bound_row {
        Some(row) => row,
        None => home.row,
    };
    in_row(row, at(home.place, DataKind::CrossedBounds))
}

/// Looks for the first nonarc variable whose bounds cross.
pub fn check_bounds(constraints: &Constraints, defaults: Figures) -> Result<(), RowFault>
    requires sound { IsSound constraints.now.variables }
    ensures { MatchResult result
        (λ _. first_bound_fault constraints.now.variables.arcs.count defaults constraints.now.variables.homes constraints.now.terms ≡ None)
        (λ f. first_bound_fault constraints.now.variables.arcs.count defaults constraints.now.variables.homes constraints.now.terms ≡ Some f) }
{
    for k in 0..constraints.variables.nonarcs() {
        let variable = constraints.variables.arcs() + k;
        if bounds_cross(constraints.terms.figures(variable, defaults)) {
            let home = constraints.variables.home(k);
            return Err(crossed_at(home, constraints.terms.bound_row(variable)));
        }
    }
    Ok(())
}
