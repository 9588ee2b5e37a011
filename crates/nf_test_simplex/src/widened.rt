// The start of stage two and its dense basis on one problem, against numbers found by hand.
ghost use Rattle.std.specs.Prelude.{◌≡◌, ◌+◌, ◌<◌, ◌≤◌, length, IfOk};
ghost use Rattle.nf_model.specs.Problem.{IsProblem};
ghost use Rattle.nf_basis.specs.Dense.{HoldsNumbers};

use crate::start::{open, rows_in};
use nf_basis::{Basis, Col, DenseBasis};
use nf_engine::Engine;
use nf_frac::{Frac, Steps};
use nf_price::{Queue, Rule};
use nf_prob::{Problem, ProblemBuilder, RowKind};
use nf_stage_two::{start_two, widen};
use std::alloc::Global;
use std::marker::Brand;
use std::sync::ledger::{Blank, Ledger};
use std::test::Fail;

// Adds a side row with one coefficient.
fn add_side(
    builder: &mut ProblemBuilder,
    kind: RowKind,
    right: i64,
    column: u32,
    coefficient: i64,
) -> Result<(), Fail>
    requires problem { IsProblem builder.old }
    requires column { (0 < column) × (column ≤ length builder.old.columns) }
    requires columns { length builder.old.columns ≤ 2 }
    requires rows { length builder.old.rows ≤ 8 }
    ensures columns { IfOk result (λ _. length builder.new.columns ≡ length builder.old.columns) }
    ensures rows { IfOk result (λ _. length builder.new.rows ≡ length builder.old.rows + 1) }
{
    let row = builder.add_row(kind, Frac::from_whole(right))?;
    builder.add_entry(column, row, Frac::from_whole(coefficient))?;
    Ok(())
}

// An arc from node 1, which has the supply 5, to node 2 with a flow x of 0 at least, and a variable z of 2 at least; x is
// at most 7, z at least 2, 3x is 10, and x at least 1.
fn problem(alloc: Global) -> Result<Problem, Fail> {
    let (zero, five) = (Frac::zero(), Frac::from_whole(5));
    let mut builder = ProblemBuilder::new(alloc, false);
    builder.add_node(five)?;
    builder.add_node(five.neg())?;
    builder.add_column(1, 2, Frac::from_whole(1), Some(zero), None)?;
    builder.add_column(0, 0, zero, Some(Frac::from_whole(2)), None)?;
    add_side(&mut builder, RowKind::Le, 7, 1, 1)?;
    add_side(&mut builder, RowKind::Ge, 2, 2, 1)?;
    add_side(&mut builder, RowKind::Eq, 10, 1, 3)?;
    add_side(&mut builder, RowKind::Ge, 1, 1, 1)?;
    Ok(builder.finish()?)
}

// A basic column with its value and its weight in the inverse column of node 2.
type Row = (Col, Frac, Frac);

// What the wide basis has by slot.
fn rows_of<L: Ledger>(
    alloc: Global,
    p: &Problem,
    wide: DenseBasis,
    steps: &mut Steps<L>,
) -> Result<Vec<Row>, Fail>
    requires numbers { HoldsNumbers p.now wide }
{
    let mut wide = wide;
    let rows = rows_in(p, wide.state());
    if rows < 2 {
        return Err(Fail::new("no second row"));
    }
    let mut room = vec![in alloc; Frac::zero(); rows as usize]?;
    wide.inverse_column(p, 2, room.as_mut_slice(), steps)?;
    let mut found = Vec::new(alloc);
    for slot in 0..rows {
        let col = wide.basic_at(slot);
        found.push((col, wide.value(p, col), room[slot as usize]))?;
    }
    Ok(found)
}

// The wide basis after one step of stage one, which brings the arc in.
fn widened<L: Ledger>(alloc: Global, p: &Problem, blank: Blank) -> Result<Vec<Row>, Fail>
    requires name { blank.name ≡ L.name }
    requires parts { blank.parts ≡ L.parts }
    requires some { 0 < blank.parts }
    requires few { length p.now.rows ≤ 1000 }
    requires nodes { p.now.nodes ≤ 1000 }
{
    let mut steps = Steps::<L>::new(blank);
    let basis = open::<DenseBasis, L>(alloc, p, &mut steps)?;
    let mut engine = Engine::new(alloc, p, basis, 0, 0, Queue::new(alloc)?)?;
    engine.step(p, Rule::First, &mut steps)?;
    let mut first = engine.into_basis();
    if first.state().stage() != 1 {
        return Err(Fail::new("no basis of stage one"));
    }
    let state = start_two(alloc, p, &first, &mut steps)?;
    let wide = widen(alloc, p, &mut first, state, &mut steps)?;
    rows_of(alloc, p, wide, &mut steps)
}

fn found(alloc: Global) -> Result<Vec<Row>, Fail> {
    let p = problem(alloc)?;
    if p.rows() > 1000 || p.nodes() > 1000 {
        return Err(Fail::new("too many rows"));
    }
    widened::<Brand>(alloc, &p, Blank::new(1))
}

#[test]
fn widens(rt: HostRuntime) -> Result<(), Fail> {
    // x stands at 5, so the rows lack 2, 0, -5 and -4; the second unit column is A1 less C1, and the slots of the side
    // rows undo C1's entries 1, 0, 3 and 1.
    let expected = [
        (Col::Artificial(1), 0, 1),
        (Col::Given(1), 5, -1),
        (Col::Slack(3), 2, 1),
        (Col::Artificial(4), 0, 0),
        (Col::Artificial(5), 5, -3),
        (Col::Slack(6), 4, -1),
    ];
    let rows = found(rt.alloc())?;
    assert_eq!(rt; rows.len(), 6);
    for (k, (col, value, weight)) in rows.iter().enumerate() {
        assert_eq!(rt; (*col, value.num(), weight.num()), expected[k]);
        assert_eq!(rt; (value.den(), weight.den()), (1, 1));
    }
    Ok(())
}
