//! The constraints of a sample.
ghost use Rattle.std.specs.Prelude.{◌≡◌, ◌<◌, ◌≤◌, ◌*◌, ◌+◌, ◌++◌, ◌∷◌, [], codes, length, decimal, nat_eq, if◌then◌else◌, IfOk, OnOk};
ghost use Rattle.nf_sample.specs.Draws.{state_after};
ghost use Rattle.nf_sample.specs.Rows.{rows_to, table_of};
ghost use Rattle.nf_sample.specs.Sample.{arc, constraint, constraints, constraints_header, constraints_table, cost_line, named};

use crate::draws::Draws;
use crate::rows::{begin, name, push_row};
use nf_table::Table;
use std::alloc::{AllocError, Global};

/// The table of the constraints, line by line: each over three arcs and a nonarc variable of its own, dear, that meets it
/// whatever the arcs carry.
pub(crate) fn constraints_table(
    alloc: Global,
    draws: &mut Draws,
    arcs: u32,
    count: u32,
) -> Result<Table, AllocError>
    requires some { 0 < arcs }
    requires few { (arcs ≤ 50000) × (count ≤ 50) }
    ensures { IfOk result (λ t. t ≡ constraints_table draws.old arcs count) }
{
    let mut table = begin(alloc, &["_ROW_", "_COLUMN_", "_COEF_", "_TYPE_", "_RHS_"])?;
    push_constraints(alloc, &mut table, draws, arcs, count)?;
    push_costs(alloc, &mut table, count)?;
    Ok(table)
}

// Adds the lines of all constraints.
fn push_constraints(
    alloc: Global,
    table: &mut Table,
    draws: &mut Draws,
    arcs: u32,
    count: u32,
) -> Result<(), AllocError>
    requires begun { table.old ≡ table_of constraints_header [] }
    requires arcs { (0 < arcs) × (arcs ≤ 50000) }
    requires few { count ≤ 50 }
    ensures rows { OnOk result (table.new ≡ table_of constraints_header (rows_to (constraints draws.old arcs) count)) }
    ensures count { OnOk result (length table.new.rows ≡ 4 * count) }
{
    for before in 0..count {
        push_constraint(alloc, table, draws, arcs, before + 1)?;
    }
    Ok(())
}

// Adds the lines of constraint k. The right side is drawn after the coefficients.
fn push_constraint(
    alloc: Global,
    table: &mut Table,
    draws: &mut Draws,
    arcs: u32,
    k: u32,
) -> Result<(), AllocError>
    requires begun { table.old ≡ table_of constraints_header table.old.rows }
    requires room { length table.old.rows ≤ 200 }
    requires within { k ≤ 50 }
    requires arcs { (0 < arcs) × (arcs ≤ 50000) }
    ensures rows { OnOk result (table.new ≡ table_of constraints_header (table.old.rows ++ constraint draws.old arcs k)) }
    ensures drawn { OnOk result (draws.new ≡ state_after draws.old 4) }
{
    let first = draws.below(3) + 1;
    let second = draws.below(3) + 1;
    let third = draws.below(3) + 1;
    let right = draws.below(50);
    push_first_term(alloc, table, k, 1 + 3 * k % arcs, first, right)?;
    push_term(alloc, table, k, 1 + (3 * k + 1) % arcs, second, "", "")?;
    push_term(alloc, table, k, 1 + (3 * k + 2) % arcs, third, "", "")?;
    push_variable(alloc, table, k)
}

// Adds the line of an arc in constraint k, with type and right side.
fn push_first_term(
    alloc: Global,
    table: &mut Table,
    k: u32,
    number: u32,
    coefficient: u32,
    right: u32,
) -> Result<(), AllocError>
    requires begun { table.old ≡ table_of constraints_header table.old.rows }
    requires room { length table.old.rows ≤ 400 }
    ensures { OnOk result (table.new ≡ table_of constraints_header (table.old.rows ++ (named (codes "r") k ∷ arc number ∷ decimal coefficient ∷ codes "LE" ∷ decimal right ∷ []) ∷ [])) }
{
    let right = format!(in alloc; "{right}")?;
    push_term(alloc, table, k, number, coefficient, "LE", right.as_str())
}

// Adds the line of an arc in constraint k, with the cells of type and right side.
fn push_term(
    alloc: Global,
    table: &mut Table,
    k: u32,
    number: u32,
    coefficient: u32,
    kind: &str,
    right: &str,
) -> Result<(), AllocError>
    requires begun { table.old ≡ table_of constraints_header table.old.rows }
    requires room { length table.old.rows ≤ 400 }
    ensures { OnOk result (table.new ≡ table_of constraints_header (table.old.rows ++ (named (codes "r") k ∷ arc number ∷ decimal coefficient ∷ kind.now ∷ right.now ∷ []) ∷ [])) }
{
    let row = name(alloc, "r", k)?;
    let arc = name(alloc, "x", number)?;
    let coefficient = format!(in alloc; "{coefficient}")?;
    push_row(
        table,
        &[
            row.as_str(),
            arc.as_str(),
            coefficient.as_str(),
            kind,
            right,
        ],
    )
}

// Adds the line of the nonarc variable of constraint k.
fn push_variable(alloc: Global, table: &mut Table, k: u32) -> Result<(), AllocError>
    requires begun { table.old ≡ table_of constraints_header table.old.rows }
    requires room { length table.old.rows ≤ 400 }
    ensures { OnOk result (table.new ≡ table_of constraints_header (table.old.rows ++ (named (codes "r") k ∷ named (codes "z") k ∷ codes "-1" ∷ [] ∷ [] ∷ []) ∷ [])) }
{
    let row = name(alloc, "r", k)?;
    let variable = name(alloc, "z", k)?;
    push_row(table, &[row.as_str(), variable.as_str(), "-1", "", ""])
}

// Adds the row of costs.
fn push_costs(alloc: Global, table: &mut Table, count: u32) -> Result<(), AllocError>
    requires begun { table.old ≡ table_of constraints_header table.old.rows }
    requires room { length table.old.rows ≤ 200 }
    requires few { count ≤ 50 }
    ensures { OnOk result (table.new ≡ table_of constraints_header (table.old.rows ++ rows_to cost_line count)) }
{
    for before in 0..count {
        push_cost(alloc, table, before + 1)?;
    }
    Ok(())
}

// Adds the line of the row of costs for the nonarc variable of constraint k.
fn push_cost(alloc: Global, table: &mut Table, k: u32) -> Result<(), AllocError>
    requires begun { table.old ≡ table_of constraints_header table.old.rows }
    requires room { length table.old.rows ≤ 400 }
    ensures { OnOk result (table.new ≡ table_of constraints_header (table.old.rows ++ cost_line k)) }
{
    let variable = name(alloc, "z", k)?;
    push_row(
        table,
        &["cost", variable.as_str(), "1000", type_of_cost(k), ""],
    )
}

// The row of costs has its type in its first line.
fn type_of_cost(k: u32) -> &'static str
    ensures { result.now ≡ (if nat_eq k 1 then codes "COST" else []) }
{
    if k == 1 { "COST" } else { "" }
}
