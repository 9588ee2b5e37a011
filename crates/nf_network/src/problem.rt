//! Makes the problem of nodes and arcs.
ghost use Rattle.std.specs.Prelude.{true, ◌≡◌, ◌≤◌, ◌<◌, ◌∷◌, ◌++◌, [], Some, IfOk, OnOk, if◌then◌else◌, length, get_or};
ghost use Rattle.nf_model.specs.Program.{IsAtMost};
ghost use Rattle.nf_prob.specs.Building.{empty_program, new_column};
ghost use Rattle.nf_network.specs.Excess.{balance_of, for_each, has_excess, joined_below};
ghost use Rattle.nf_network.specs.Faults.{most_arcs, most_nodes};
ghost use Rattle.nf_network.specs.Balanced.{IsWithin};
ghost use Rattle.nf_network.specs.Given.{IsEven};
ghost use Rattle.nf_network.specs.Making.{AreSound, IsOfArcs, column_at, nodes_program, with_arcs, with_excess};
ghost use Rattle.nf_network.specs.Network.{excess_column, excess_columns, excess_columns_at, program_of};
ghost use Rattle.nf_network.specs.Excess.{thousandths_of};
ghost use Rattle.nf_num.specs.Rational.{frac};

use crate::excess::{Balance, thousandths};
use crate::nodes::Nodes;
use crate::numbers::{amount_value, in_sense, upper_of};
use crate::pass::Arcs;
use nf_cells::Supply;
use nf_frac::Frac;
use nf_prob::ProblemBuilder;
use nf_program::ProcOptions;
use std::alloc::{AllocError, Global};

/// The problem of nodes and arcs: a row for each node and for `_EXCESS_`, a column for each arc and then for each excess
/// arc.
pub(crate) fn make_problem(
    alloc: Global,
    arcs: &Arcs,
    options: &ProcOptions,
) -> Result<ProblemBuilder, AllocError>
    requires { AreSound arcs.now.nodes arcs.now.keys arcs.now.figures.items }
    ensures { IfOk result (λ p. p ≡ program_of options.now (joined_below (length arcs.now.keys) (column_at options.now.maximize arcs.now.keys arcs.now.figures.items)) arcs.now.nodes.given) }
{
    let balance = Balance::of(&arcs.nodes, options.thrunet);
    let columns = arcs.keys.len() + arcs.nodes.len();
    let mut builder = ProblemBuilder::with_capacity(alloc, options.maximize, columns)?;
    add_nodes(&mut builder, &arcs.nodes)?;
    add_excess(&mut builder, &arcs.nodes, balance)?;
    add_arcs(&mut builder, arcs, options.maximize)?;
    add_excess_arcs(&mut builder, &arcs.nodes, balance)?;
    Ok(builder)
}

// Adds a row for each node.
fn add_nodes(builder: &mut ProblemBuilder, nodes: &Nodes) -> Result<(), AllocError>
    requires even { IsEven nodes.now }
    requires few { length nodes.now.names ≤ most_nodes }
    requires empty { builder.old ≡ empty_program builder.old.maximizes }
    ensures { OnOk result (builder.new ≡ nodes_program builder.old.maximizes nodes.now.given) }
{
    for i in 0..nodes.len() {
        let value = thousandths(nodes.value(i));
        builder.add_node(Frac::from_thousandths(i128::from(value)))?;
    }
    Ok(())
}

// Adds a row for `_EXCESS_`, where it is there.
fn add_excess(
    builder: &mut ProblemBuilder,
    nodes: &Nodes,
    balance: Balance,
) -> Result<(), AllocError>
    requires even { IsEven nodes.now }
    requires of_arcs { IsOfArcs builder.old }
    requires within { IsWithin most_nodes balance.total }
    ensures { OnOk result (builder.new ≡ with_excess builder.old balance nodes.now.given) }
{
    if !balance.has_excess(nodes) {
        return Ok(());
    }
    builder.add_node(Frac::from_thousandths(-balance.total))?;
    Ok(())
}

// Adds a column for each arc.
fn add_arcs(builder: &mut ProblemBuilder, arcs: &Arcs, maximize: bool) -> Result<(), AllocError>
    requires sound { AreSound arcs.now.nodes arcs.now.keys arcs.now.figures.items }
    requires of_arcs { IsOfArcs builder.old }
    requires no_columns { builder.old.columns ≡ [] }
    requires nodes { length arcs.now.nodes.names ≤ builder.old.nodes }
    ensures { OnOk result (builder.new ≡ with_arcs builder.old (joined_below (length arcs.now.keys) (column_at maximize arcs.now.keys arcs.now.figures.items))) }
{
    for i in 0..arcs.keys.len() {
        let (tail, head) = arcs.keys.ends(i);
        let figures = arcs.figures[i];
        let cost = in_sense(maximize, figures.cost);
        let lower = amount_value(figures.lower);
        add_arc(builder, tail, head, cost, lower, upper_of(figures.upper))?;
    }
    Ok(())
}

// Adds the excess arcs, where `_EXCESS_` is there.
fn add_excess_arcs(
    builder: &mut ProblemBuilder,
    nodes: &Nodes,
    balance: Balance,
) -> Result<(), AllocError>
    requires even { IsEven nodes.now }
    requires few { length nodes.now.names ≤ most_nodes }
    requires of_arcs { IsOfArcs builder.old }
    requires few_columns { length builder.old.columns ≤ most_arcs }
    requires excess { has_excess balance nodes.now.given ≡ true → length nodes.now.names < builder.old.nodes }
    ensures { OnOk result (builder.new ≡ with_arcs builder.old (excess_columns balance nodes.now.given)) }
{
    if !balance.has_excess(nodes) {
        return Ok(());
    }
    add_each_excess(builder, nodes, balance)
}

// Adds the excess arcs, by node number; `_EXCESS_` is the node behind the nodes.
fn add_each_excess(
    builder: &mut ProblemBuilder,
    nodes: &Nodes,
    balance: Balance,
) -> Result<(), AllocError>
    requires even { IsEven nodes.now }
    requires few { length nodes.now.names ≤ most_nodes }
    requires of_arcs { IsOfArcs builder.old }
    requires few_columns { length builder.old.columns ≤ most_arcs }
    requires excess { length nodes.now.names < builder.old.nodes }
    ensures { OnOk result (builder.new ≡ with_arcs builder.old (excess_columns balance nodes.now.given)) }
{
    for i in 0..nodes.len() {
        let value = nodes.value(i);
        add_excess_arc(builder, balance.sends(value), i, nodes.len())?;
        add_excess_arc(builder, balance.gets(value), nodes.len(), i)?;
    }
    Ok(())
}

// Adds an excess arc between two nodes, where it is to be there.
fn add_excess_arc(
    builder: &mut ProblemBuilder,
    is_there: bool,
    tail: usize,
    head: usize,
) -> Result<(), AllocError>
    requires of_arcs { IsOfArcs builder.old }
    requires tail { tail < builder.old.nodes }
    requires head { head < builder.old.nodes }
    ensures { OnOk result (builder.new ≡ with_arcs builder.old (if is_there then excess_column tail head ∷ [] else [])) }
{
    if !is_there {
        return Ok(());
    }
    add_arc(builder, tail, head, Frac::zero(), Frac::zero(), None)
}

// Adds an arc between two nodes, which count from 0.
fn add_arc(
    builder: &mut ProblemBuilder,
    tail: usize,
    head: usize,
    cost: Frac,
    lower: Frac,
    upper: Option<Frac>,
) -> Result<(), AllocError>
    requires of_arcs { IsOfArcs builder.old }
    requires tail { tail < builder.old.nodes }
    requires head { head < builder.old.nodes }
    requires ordered { IsAtMost upper lower }
    ensures { OnOk result (builder.new ≡ with_arcs builder.old (new_column (Some (record { tail = tail; head = head })) cost (Some lower) upper ∷ [])) }
{
    builder.add_column(tail as u32 + 1, head as u32 + 1, cost, Some(lower), upper)?;
    Ok(())
}
