//! Adds the constraints to the problem and its labels.
ghost use Rattle.std.specs.Prelude.{true, ◌≡◌, ◌≤◌, ◌<◌, ◌+◌, ◌^◌, ◌++◌, IfOk, OnOk, length, map, option_map};
ghost use Rattle.std.specs.List.{All};
ghost use Rattle.nf_frac.specs.Amounts.{amount_value};
ghost use Rattle.nf_network.specs.Excess.{joined_below};
ghost use Rattle.nf_cons.specs.Bounds.{nonarc_defaults};
ghost use Rattle.nf_cons.specs.Constrained.{column_of, constrained_labels, constrained_program, nonarc_column_at, side_name, side_row, with_columns, with_rows};
ghost use Rattle.nf_cons.specs.Dense.{most_constraints};
ghost use Rattle.nf_cons.specs.Naming.{IsSound};
ghost use Rattle.nf_cons.specs.Making.{AreInOrder, AreReady, HasEntriesBelow, IsPlaced, IsPlain, are_apart, before, with_entries_of};

use crate::bounds::nonarc_defaults;
use crate::constraints::Constraints;
use nf_frac::{Amount, Frac};
use nf_labels::Labels;
use nf_network::{amount_value, in_sense, upper_of};
use nf_prob::ProblemBuilder;
use nf_program::ProcOptions;
use std::alloc::AllocError;

/// Adds the nonarc variables as columns, the constraints as rows, and the coefficients as entries.
pub fn add_constraints(
    builder: &mut ProblemBuilder,
    labels: &mut Labels,
    constraints: &Constraints,
    options: &ProcOptions,
) -> Result<(), AllocError>
    requires plain { IsPlain (record { program = builder.old; labels = labels.old }) }
    requires arcs { constraints.now.variables.arcs.count ≡ labels.old.own_arcs }
    requires ready { AreReady constraints.now.variables constraints.now.names constraints.now.sides.items constraints.now.terms }
    requires in_order { AreInOrder (nonarc_defaults options.now) constraints.now.variables.arcs.count constraints.now.terms (length constraints.now.variables.nonarcs) }
    ensures program { OnOk result (builder.new
        ≡ constrained_program options.now labels.old.own_arcs builder.old (length constraints.now.variables.nonarcs) constraints.now.sides.items constraints.now.terms) }
    ensures labels { OnOk result (labels.new ≡ constrained_labels labels.old (record {
      nonarcs = constraints.now.variables.nonarcs;
      names = constraints.now.names;
      sides = constraints.now.sides.items;
      lists = constraints.now.terms;
    })) }
{
    let columns = add_nonarcs(builder, constraints, options)?;
    let rows = add_sides(builder, constraints)?;
    add_coefficients(builder, constraints, columns, rows)?;
    label_nonarcs(labels, constraints)?;
    label_sides(labels, constraints)?;
    Ok(())
}

// Adds a column for each nonarc variable. Returns how many columns there were before, or how many arcs if there is none.
fn add_nonarcs(
    builder: &mut ProblemBuilder,
    constraints: &Constraints,
    options: &ProcOptions,
) -> Result<u32, AllocError>
    requires sound { IsSound constraints.now.variables }
    requires in_order { AreInOrder (nonarc_defaults options.now) constraints.now.variables.arcs.count constraints.now.terms (length constraints.now.variables.nonarcs) }
    requires few_rows { length builder.old.rows ≤ 2 ^ 20 }
    requires few_columns { length builder.old.columns ≤ 2 ^ 20 }
    ensures columns { OnOk result (builder.new ≡ with_columns builder.old
        (joined_below (length constraints.now.variables.nonarcs) (nonarc_column_at options.now constraints.now.variables.arcs.count constraints.now.terms))) }
    ensures before { IfOk result (λ n. n ≡ before (length constraints.now.variables.nonarcs) constraints.now.variables.arcs.count (length builder.old.columns)) }
{
    let defaults = nonarc_defaults(options);
    let mut before = constraints.variables.arcs() as u32;
    for k in 0..constraints.variables.nonarcs() {
        let variable = constraints.variables.arcs() + k;
        let figures = constraints.terms.figures(variable, defaults);
        let cost = in_sense(options.maximize, figures.cost);
        let lower = lower_of(figures.lower);
        let j = builder.add_column(0, 0, cost, lower, upper_of(figures.upper))?;
        before = j - 1 - k as u32;
    }
    Ok(before)
}

// Adds a row for each constraint. Returns how many rows there were before, or 0 if there is none.
fn add_sides(builder: &mut ProblemBuilder, constraints: &Constraints) -> Result<u32, AllocError>
    requires few_sides { length constraints.now.sides.items ≤ most_constraints }
    requires few_rows { length builder.old.rows ≤ 2 ^ 20 }
    requires few_columns { length builder.old.columns ≤ 2 ^ 21 }
    ensures rows { OnOk result (builder.new ≡ with_rows builder.old (map side_row constraints.now.sides.items)) }
    ensures before { IfOk result (λ n. n ≡ before (length constraints.now.sides.items) 0 (length builder.old.rows)) }
{
    let mut before = 0;
    for k in 0..constraints.sides.len() {
        let side = constraints.sides[k];
        let i = builder.add_row(side.kind, amount_value(side.right))?;
        before = i - 1 - k as u32;
    }
    Ok(before)
}

// Adds an entry for each coefficient, where there were so many columns and rows before.
fn add_coefficients(
    builder: &mut ProblemBuilder,
    constraints: &Constraints,
    columns: u32,
    rows: u32,
) -> Result<(), AllocError>
    requires sound { IsSound constraints.now.variables }
    requires few_rows { rows ≤ 2 ^ 20 }
    requires few_columns { columns ≤ 2 ^ 20 }
    requires room { rows + length constraints.now.sides.items ≤ length builder.old.rows }
    requires sides { 0 < length constraints.now.sides.items → builder.old.nodes ≤ rows }
    requires few_sides { length constraints.now.sides.items ≤ most_constraints }
    requires own { constraints.now.variables.arcs.count ≤ columns }
    requires wide { columns + length constraints.now.variables.nonarcs ≤ length builder.old.columns }
    requires placed { All (IsPlaced (constraints.now.variables.arcs.count + length constraints.now.variables.nonarcs) (length constraints.now.sides.items)) constraints.now.terms.coefficients }
    requires apart { are_apart constraints.now.terms.coefficients ≡ true }
    requires entries { 0 < length constraints.now.sides.items → All (HasEntriesBelow rows) builder.old.columns }
    ensures { OnOk result (builder.new ≡ with_entries_of constraints.now.variables.arcs.count columns rows builder.old constraints.now.terms.coefficients) }
{
    let arcs = constraints.variables.arcs();
    for k in 0..constraints.terms.coefficients().len() {
        let coefficient = constraints.terms.coefficients()[k];
        let j = column_number(coefficient.variable, arcs, columns);
        let i = rows + coefficient.constraint as u32 + 1;
        builder.add_entry(j, i, amount_value(coefficient.value))?;
    }
    Ok(())
}

// The number of the column of a variable: arcs come first, and nonarc variables after all arcs.
fn column_number(variable: usize, arcs: usize, columns: u32) -> u32
    requires arcs { arcs ≤ columns }
    requires few { columns ≤ 2 ^ 20 }
    requires variable { variable < arcs + 2 ^ 20 }
    ensures { result ≡ column_of arcs columns variable + 1 }
{
    if variable < arcs {
        variable as u32 + 1
    } else {
        columns + (variable - arcs) as u32 + 1
    }
}

// Labels the columns of nonarc variables.
fn label_nonarcs(labels: &mut Labels, constraints: &Constraints) -> Result<(), AllocError>
    requires few { length labels.old.columns + length constraints.now.variables.nonarcs ≤ 2 ^ 30 }
    ensures { OnOk result (labels.new ≡ record labels.old { columns = labels.old.columns ++ constraints.now.variables.nonarcs }) }
{
    for k in 0..constraints.variables.nonarcs() {
        labels.push_column(constraints.variables.nonarc(k))?;
    }
    Ok(())
}

// Labels the constraints.
fn label_sides(labels: &mut Labels, constraints: &Constraints) -> Result<(), AllocError>
    requires few { length labels.old.constraints + length constraints.now.sides.items ≤ 2 ^ 30 }
    requires named { All (λ s. s.name < length constraints.now.names) constraints.now.sides.items }
    ensures { OnOk result (labels.new ≡ record labels.old { constraints = labels.old.constraints ++ map (side_name constraints.now.names) constraints.now.sides.items }) }
{
    for k in 0..constraints.sides.len() {
        labels.push_constraint(constraints.names.get(constraints.sides[k].name))?;
    }
    Ok(())
}

// The lower bound of a variable, if it has one.
fn lower_of(lower: Option<Amount>) -> Option<Frac>
    ensures { result ≡ option_map amount_value lower }
{
    match lower {
        Some(amount) => Some(amount_value(amount)),
        None => None,
    }
}
