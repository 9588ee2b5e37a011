//! The numbers of an arc.
ghost use Rattle.std.specs.Prelude.{◌≡◌, ◌≤◌, None, Some, MatchResult};
ghost use Rattle.nf_cells.specs.Values.{cell_now};
ghost use Rattle.nf_roles.specs.First.{first_of};
ghost use Rattle.nf_network.specs.Faults.{figure_faults, are_crossed};
ghost use Rattle.nf_network.specs.Rows.{arc_row_now};
ghost use Rattle.nf_network.specs.Arcs.{figures_of};

use crate::rows::{ArcRow, Defaults, Figures};
use nf_cells::{Bound, Cell};
use nf_frac::Amount;
use nf_program::Role;
use nf_roles::{CellFault, DataKind};

fn crossed(lower: Amount, upper: Bound) -> bool
    ensures { result ≡ are_crossed lower upper }
{
    match upper {
        Bound::Finite(upper) => upper.thousandths < lower.thousandths,
        Bound::Infinite => false,
    }
}

// A cell of this role that is no amount.
fn bad_amount(role: Role) -> CellFault
    ensures { result ≡ record { role = role; kind = DataKind.Amount } }
{
    CellFault {
        role,
        kind: DataKind::Amount,
    }
}

/// The numbers of a row, or the first fault of them.
pub(crate) fn read_figures(row: &ArcRow<'_>, defaults: &Defaults) -> Result<Figures, CellFault>
    ensures { MatchResult result
        (λ f. (first_of (figure_faults defaults.now (arc_row_now row.now)) ≡ None) × (f ≡ figures_of defaults.now (arc_row_now row.now)))
        (λ f. first_of (figure_faults defaults.now (arc_row_now row.now)) ≡ Some f) }
{
    let cost = match row.cost {
        Cell::Missing => defaults.cost,
        Cell::Bad => return Err(bad_amount(Role::Cost)),
        Cell::Is(cost) => cost,
    };
    let lower = match row.lower {
        Cell::Missing => defaults.lower,
        Cell::Bad => return Err(bad_amount(Role::Lo)),
        Cell::Is(lower) => lower,
    };
    let upper = match row.capacity {
        Cell::Missing => defaults.upper,
        Cell::Bad => return Err(bad_amount(Role::Capacity)),
        Cell::Is(upper) => upper,
    };
    if crossed(lower, upper) {
        return Err(CellFault {
            role: Role::Capacity,
            kind: DataKind::CrossedBounds,
        });
    }
    Ok(Figures { cost, lower, upper })
}
