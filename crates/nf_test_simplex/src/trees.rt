// Tree views of bases set by hand.
ghost use Rattle.std.specs.Prelude.{◌≡◌, ◌<◌, ◌≤◌, length, IfOk};
ghost use Rattle.nf_prob.specs.Building.{empty_program};
ghost use Rattle.nf_view.specs.View.{HasVertices};

use crate::restored::{with_basics, with_side_row};
use nf_basis::{Basis, Col, DenseBasis};
use nf_frac::{Frac, Steps};
use nf_prob::{Problem, ProblemBuilder};
use nf_view::{TreeView, tree_view};
use std::alloc::Global;
use std::marker::Brand;
use std::sync::ledger::{Blank, Ledger};
use std::test::Fail;

fn add_nodes(builder: &mut ProblemBuilder, nodes: u32) -> Result<(), Fail>
    requires empty { builder.old ≡ empty_program builder.old.maximizes }
    requires few { nodes ≤ 9 }
    ensures nodes { IfOk result (λ _. builder.new.nodes ≡ nodes) }
    ensures rows { IfOk result (λ _. length builder.new.rows ≡ nodes) }
    ensures columns { IfOk result (λ _. length builder.new.columns ≡ 0) }
    ensures arcs { IfOk result (λ _. builder.new.arcs ≡ 0) }
{
    for i in 0..nodes {
        builder.add_node(Frac::zero())?;
    }
    Ok(())
}

// Adds arcs with these tails and heads.
fn add_arcs(builder: &mut ProblemBuilder, nodes: u32, ends: &[(u32, u32)]) -> Result<(), Fail>
    requires few { nodes ≤ 9 }
    requires few_arcs { length ends.now ≤ 9 }
    requires nodes { builder.old.nodes ≡ nodes }
    requires rows { length builder.old.rows ≡ nodes }
    requires columns { length builder.old.columns ≡ 0 }
    requires arcs { builder.old.arcs ≡ 0 }
    ensures nodes { IfOk result (λ _. builder.new.nodes ≡ nodes) }
{
    for i in 0..ends.len() {
        let (tail, head) = ends[i];
        if tail == 0 || nodes < tail || head == 0 || nodes < head {
            return Err(Fail::new("no node"));
        }
        builder.add_column(tail, head, Frac::zero(), Some(Frac::zero()), None)?;
    }
    Ok(())
}

fn network(alloc: Global, nodes: u32, ends: &[(u32, u32)]) -> Result<Problem, Fail>
    requires few { nodes ≤ 9 }
    requires few_arcs { length ends.now ≤ 9 }
    ensures nodes { IfOk result (λ p. p.nodes ≡ nodes) }
{
    let mut builder = ProblemBuilder::new(alloc, false);
    add_nodes(&mut builder, nodes)?;
    add_arcs(&mut builder, nodes, ends)?;
    Ok(builder.finish()?)
}

// The tree view of the state of a stage with these columns basic, where they are a basis.
fn view_of<L: Ledger>(
    alloc: Global,
    p: &Problem,
    stage: u8,
    basics: &[Col],
    blank: Blank,
) -> Result<TreeView, Fail>
    requires stage { (0 < stage) × (stage ≤ 2) }
    requires name { blank.name ≡ L.name }
    requires parts { blank.parts ≡ L.parts }
    requires some { 0 < blank.parts }
    ensures vertices { IfOk result (HasVertices p.now.nodes) }
{
    let mut steps = Steps::<L>::new(blank);
    let state = with_basics(alloc, p, stage, basics)?;
    let basis = DenseBasis::restore(alloc, p, state, &mut steps)?;
    Ok(tree_view(alloc, p, basis.state())?)
}

fn view(alloc: Global, p: &Problem, stage: u8, basics: &[Col]) -> Result<TreeView, Fail>
    requires stage { (0 < stage) × (stage ≤ 2) }
    ensures vertices { IfOk result (HasVertices p.now.nodes) }
{
    view_of::<Brand>(alloc, p, stage, basics, Blank::new(1))
}

#[test]
fn shows_one_arc(rt: HostRuntime) -> Result<(), Fail> {
    let basics = [Col::Given(1), Col::Artificial(1)];
    let p = network(rt.alloc(), 2, [(1, 2)].as_slice())?;
    let tree = view(rt.alloc(), &p, 1, basics.as_slice())?;
    assert_eq!(rt; tree.predecessors(), [0, 1].as_slice());
    assert_eq!(rt; tree.next_nodes(), [2, 0].as_slice());
    assert_eq!(rt; tree.sizes(), [2, 1].as_slice());
    assert_eq!(rt; tree.arcs(), [0, 1].as_slice());
    Ok(())
}

#[test]
fn shows_children_by_number(rt: HostRuntime) -> Result<(), Fail> {
    let ends = [(3, 5), (1, 3), (5, 2), (4, 3), (6, 5)];
    let basics = [
        Col::Given(1),
        Col::Given(2),
        Col::Given(3),
        Col::Given(4),
        Col::Given(5),
        Col::Artificial(3),
    ];
    let p = network(rt.alloc(), 6, ends.as_slice())?;
    let tree = view(rt.alloc(), &p, 1, basics.as_slice())?;
    assert_eq!(rt; tree.predecessors(), [3, 5, 0, 3, 3, 5].as_slice());
    assert_eq!(rt; tree.next_nodes(), [4, 6, 1, 5, 2, 0].as_slice());
    assert_eq!(rt; tree.sizes(), [1, 1, 6, 1, 3, 1].as_slice());
    assert_eq!(rt; tree.arcs(), [2, 3, 0, 4, 1, 5].as_slice());
    Ok(())
}

#[test]
fn shows_several_children_of_the_root(rt: HostRuntime) -> Result<(), Fail> {
    let basics = [
        Col::Given(1),
        Col::Artificial(1),
        Col::Artificial(2),
        Col::Artificial(3),
    ];
    let p = network(rt.alloc(), 4, [(4, 2), (1, 2)].as_slice())?;
    let tree = view(rt.alloc(), &p, 1, basics.as_slice())?;
    assert_eq!(rt; tree.predecessors(), [0, 0, 0, 2].as_slice());
    assert_eq!(rt; tree.next_nodes(), [2, 4, 0, 3].as_slice());
    assert_eq!(rt; tree.sizes(), [1, 2, 1, 1].as_slice());
    assert_eq!(rt; tree.arcs(), [0, 0, 0, 1].as_slice());
    Ok(())
}

#[test]
fn leaves_out_an_arc_that_closes_a_cycle(rt: HostRuntime) -> Result<(), Fail> {
    let p = with_side_row(rt.alloc())?;
    let basics = [Col::Given(1), Col::Given(2), Col::Artificial(1)];
    let tree = view(rt.alloc(), &p, 2, basics.as_slice())?;
    assert_eq!(rt; tree.pred.as_slice(), [0, 0, 1].as_slice());
    assert_eq!(rt; tree.arc.as_slice(), [0, 0, 1].as_slice());
    Ok(())
}
