// Bases restored from places set by hand.
ghost use Rattle.std.specs.Prelude.{◌≡◌, ◌≢◌, ◌<◌, ◌≤◌, false, length, IfOk, IsTrue};
ghost use Rattle.nf_simplex.specs.Layout.{layout_of};
ghost use Rattle.nf_simplex.specs.Columns.{all_columns, col_at};
ghost use Rattle.nf_simplex.specs.Place as model;
ghost use Rattle.nf_simplex.specs.Place.{count_basic};
ghost use Rattle.nf_simplex.specs.Standing.{place_at, rows_of};
ghost use Rattle.nf_basis.specs.Names.{col_of, named};
ghost use Rattle.nf_basis.specs.Kept.{IsStateOf, number};

use crate::plain::check_numbers;
use crate::start::rows_in;
use nf_basis::{Basis, Col, DenseBasis, Place, RestoreFault, State, Weights};
use nf_frac::{Frac, Steps};
use nf_prob::{Problem, ProblemBuilder, RowKind};
use std::alloc::Global;
use std::marker::Brand;
use std::sync::ledger::{Blank, Ledger};
use std::test::Fail;

// Arcs 1 and 2 from node 1, which has the supply 5, to node 2, with the costs 1 and 3; three times the flow of arc 1 is at
// most 7.
pub(crate) fn with_side_row(alloc: Global) -> Result<Problem, Fail> {
    let (zero, five) = (Frac::zero(), Frac::from_whole(5));
    let mut builder = ProblemBuilder::new(alloc, false);
    builder.add_node(five)?;
    builder.add_node(five.neg())?;
    builder.add_column(1, 2, Frac::from_whole(1), Some(zero), None)?;
    builder.add_column(1, 2, Frac::from_whole(3), Some(zero), None)?;
    builder.add_row(RowKind::Le, Frac::from_whole(7))?;
    builder.add_entry(1, 3, Frac::from_whole(3))?;
    Ok(builder.finish()?)
}

// The column with a number, from 0.
fn column_at(p: &Problem, at: usize) -> Col
    requires within { at < all_columns (layout_of p.now) }
    ensures column { col_of result ≡ col_at (layout_of p.now) at }
    ensures named { 0 < named result }
    ensures number { number p.now result ≡ at }
{
    let (columns, sides) = (p.columns() as usize, (p.rows() - p.nodes()) as usize);
    if at < columns {
        return Col::Given(at as u32 + 1);
    }
    if at < columns + sides {
        return Col::Slack(p.nodes() + (at - columns) as u32 + 1);
    }
    Col::Artificial((at - columns - sides) as u32 + 1)
}

fn is_basic(p: &Problem, state: &State, at: usize) -> bool
    requires state { IsStateOf p.now state.now }
    requires within { at < all_columns (layout_of p.now) }
    ensures basic { IsTrue result → place_at state.now.standing at ≡ model.Basic }
    ensures other { result ≡ false → place_at state.now.standing at ≢ model.Basic }
{
    match state.place(column_at(p, at)) {
        Place::Basic => true,
        _ => false,
    }
}

fn basic_count(p: &Problem, state: &State) -> usize
    requires state { IsStateOf p.now state.now }
    ensures { result ≡ count_basic (all_columns (layout_of p.now)) (place_at state.now.standing) }
{
    let (rows, sides) = (p.rows() as usize, (p.rows() - p.nodes()) as usize);
    let mut basic = 0usize;
    for at in 0..p.columns() as usize + sides + rows {
        if is_basic(p, state, at) {
            basic += 1;
        }
    }
    basic
}

// The state of a stage with these columns basic, where they are as many as its rows.
pub(crate) fn with_basics(
    alloc: Global,
    p: &Problem,
    stage: u8,
    basics: &[Col],
) -> Result<State, Fail>
    requires { (0 < stage) × (stage ≤ 2) }
    ensures state { IfOk result (IsStateOf p.now) }
    ensures as_many { IfOk result (λ s. count_basic (all_columns (layout_of p.now)) (place_at s.standing) ≡ rows_of p.now s.standing) }
    ensures few { IfOk result (λ s. rows_of p.now s.standing ≤ 1000) }
{
    let mut state = State::new(alloc, p, stage)?;
    for col in basics {
        match state.place(*col) {
            Place::Lower => state.set_place(p, *col, Place::Basic),
            _ => return Err(Fail::new("no column at its lower bound")),
        }
    }
    let rows = rows_in(p, &state);
    if rows > 1000 || basic_count(p, &state) != rows as usize {
        return Err(Fail::new("no basis"));
    }
    Ok(state)
}

// The dependent column and the weights of those before it; or none, where the basis of these columns has right numbers.
fn restored<L: Ledger>(
    alloc: Global,
    stage: u8,
    basics: &[Col],
    blank: Blank,
) -> Result<Option<(Col, Weights)>, Fail>
    requires stage { (0 < stage) × (stage ≤ 2) }
    requires name { blank.name ≡ L.name }
    requires parts { blank.parts ≡ L.parts }
    requires some { 0 < blank.parts }
{
    let mut steps = Steps::<L>::new(blank);
    let p = with_side_row(alloc)?;
    let state = with_basics(alloc, &p, stage, basics)?;
    match DenseBasis::restore(alloc, &p, state, &mut steps) {
        Ok(basis) => {
            let mut basis = basis;
            check_numbers(alloc, &p, &mut basis, &mut steps)?;
            Ok(None)
        }
        Err(RestoreFault::Dependent { column, weights }) => Ok(Some((column, weights))),
        Err(RestoreFault::Passed(passed)) => Err(passed.into()),
        Err(RestoreFault::NoMemory) => Err(Fail::new("no memory")),
    }
}

fn found(alloc: Global, stage: u8, basics: &[Col]) -> Result<Option<(Col, Weights)>, Fail>
    requires stage { (0 < stage) × (stage ≤ 2) }
{
    restored::<Brand>(alloc, stage, basics, Blank::new(1))
}

#[test]
fn restores_a_basis(rt: HostRuntime) -> Result<(), Fail> {
    let basics = [Col::Given(1), Col::Given(2), Col::Artificial(1)];
    let dependent = found(rt.alloc(), 2, basics.as_slice())?;
    assert!(rt; dependent.is_none());
    Ok(())
}

#[test]
fn tells_the_dependent_column(rt: HostRuntime) -> Result<(), Fail> {
    let basics = [Col::Given(1), Col::Given(2)];
    let Some((column, weights)) = found(rt.alloc(), 1, basics.as_slice())? else {
        return Err(Fail::new("a basis"));
    };
    assert_eq!(rt; column, Col::Given(2));
    assert_eq!(rt;
        weights.items(),
        [(Col::Given(1), Frac::from_whole(1))].as_slice()
    );
    Ok(())
}
