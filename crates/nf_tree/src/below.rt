// The subtree of a node, whose numbers rise by one number.
ghost use Rattle.std.specs.Prelude.{◌≡◌, suc, ◌+◌, ◌-◌, ◌*◌, ◌<◌, ◌≤◌, length, set, slice_index, IfOk, IfErr};
ghost use Rattle.nf_num.specs.Rational.{◌+ℚ◌};
ghost use Rattle.nf_model.specs.Program.{at};
ghost use Rattle.nf_frac.specs.declared.passed.Op.TheVariants.{Add};
ghost use Rattle.nf_frac.specs.Range.{Passes};
ghost use Rattle.nf_simplex.specs.StageOf.{StageOne};
ghost use Rattle.nf_basis.specs.Kept.{IsStateOf};
ghost use Rattle.nf_tree.specs.Duals.{IsRaisedBelow, PassesRaised};
ghost use Rattle.nf_tree.specs.Links.{IsTreeOf};

use crate::ends::number_in;
use nf_basis::{Col, State};
use nf_frac::{Frac, Passed, Steps};
use nf_links::{Field, Links};
use nf_prob::Problem;
use std::sync::ledger::Ledger;

// Adds a number to that of a node, and returns the next vertex in preorder.
fn raise<L: Ledger>(
    links: &Links,
    node: u32,
    number: Frac,
    out: &mut [Frac],
    steps: &mut Steps<L>,
) -> Result<u32, Passed>
    requires node { (0 < node) × (node ≤ length out.old) }
    requires links { length links.now.thread ≡ suc (length out.old) }
    ensures raised { IfOk result (λ _. out.new ≡ set out.old (node - 1) (at out.old (node - 1) +ℚ number)) }
    ensures next { IfOk result (λ v. v ≡ slice_index links.now.thread node) }
    ensures passed { IfErr result (λ c. (c ≡ record { op = Add; left = at out.old (node - 1); right = number }) × Passes Add (at out.old (node - 1)) number) }
    ensures long { length out.new ≡ length out.old }
    ensures cost { steps.new ≤ steps.old + 2 }
{
    let here = number_in(out, node as usize - 1);
    out[node as usize - 1] = here.add(number, steps)?;
    Ok(links.get(Field::Thread, node, steps))
}

/// Adds a number to those of a node and of all nodes that have it on their way to the root: in preorder they are the
/// vertices from it on up to the first that is not deeper.
///
/// `Passed` only if such a sum overflows 128 bits. At most three steps a node.
pub(crate) fn raise_below<L: Ledger>(
    p: &Problem,
    state: &State,
    slots: &[Col],
    order: &[usize],
    links: &Links,
    top: u32,
    number: Frac,
    out: &mut [Frac],
    steps: &mut Steps<L>,
) -> Result<(), Passed>
    requires state { IsStateOf p.now state.now }
    requires stage { state.now.standing.stage ≡ StageOne }
    requires tree { IsTreeOf p.now state.now.standing slots.now order.now links.now }
    requires node { (0 < top) × (top ≤ p.now.nodes) }
    requires places { length out.old ≡ p.now.nodes }
    ensures raised { IfOk result (λ _. IsRaisedBelow p.now.nodes (slice_index links.now.pred) top number out.old out.new) }
    ensures passed { IfErr result (PassesRaised p.now.nodes out.old number) }
    ensures long { length out.new ≡ length out.old }
    ensures cost { steps.new ≤ steps.old + 3 * p.now.nodes }
{
    let level = links.get(Field::Depth, top, steps);
    let mut u = raise(links, top, number, out, steps)?;
    for k in 1..out.len() {
        if links.get(Field::Depth, u, steps) <= level {
            return Ok(());
        }
        u = raise(links, u, number, out, steps)?;
    }
    Ok(())
}
