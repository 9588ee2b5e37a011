// The solution of a tree for given rests of its nodes.
ghost use Rattle.std.specs.Prelude.{◌≡◌, ◌≢◌, ℕ, suc, ◌+◌, ◌-◌, ◌*◌, ◌^◌, ◌<◌, ◌≤◌, length, set, slice_index, IfOk, IfErr};
ghost use Rattle.nf_num.specs.Rational.{ℚ, ◌*ℚ◌};
ghost use Rattle.nf_model.specs.Program.{at};
ghost use Rattle.nf_simplex.specs.StageOf.{StageOne};
ghost use Rattle.nf_basis.specs.Kept.{IsPresent, IsStateOf};
ghost use Rattle.nf_basis.specs.Numbers.{in_slot, slot_number};
ghost use Rattle.nf_tree.specs.Network.{turn};
ghost use Rattle.nf_tree.specs.Vertices.{tail_at};
ghost use Rattle.nf_tree.specs.Links.{IsTreeOf};
ghost use Rattle.nf_tree.specs.Rests.{GiveAt, IsGathered, IsHandedOn, PassesOnPaths, PassesUp};

use crate::ends::number_in;
use crate::potentials::turned;
use nf_basis::{Col, State};
use nf_frac::{Frac, Passed, Steps};
use nf_links::{Field, Links};
use nf_prob::Problem;
use std::sync::ledger::Ledger;

// Adds the number of a node to that of its predecessor, unless that is the root.
fn hand_on<L: Ledger>(
    links: &Links,
    node: u32,
    right: &mut [Frac],
    steps: &mut Steps<L>,
) -> Result<(), Passed>
    requires node { (0 < node) × (node ≤ length right.old) }
    requires links { length links.now.pred ≡ suc (length right.old) }
    requires before { slice_index links.now.pred node ≤ length right.old }
    ensures handed { IfOk result (λ _. IsHandedOn links.now node right.old right.new) }
    ensures passed { IfErr result (PassesUp links.now node right.old) }
    ensures long { length right.new ≡ length right.old }
    ensures cost { steps.new ≤ steps.old + 2 }
{
    let before = links.get(Field::Pred, node, steps);
    if before == 0 {
        return Ok(());
    }
    let there = number_in(right, before as usize - 1);
    let here = number_in(right, node as usize - 1);
    right[before as usize - 1] = there.add(here, steps)?;
    Ok(())
}

// Sums the rests over subtrees: against the preorder, each node's sum is added to its predecessor's.
fn gather<L: Ledger>(
    p: &Problem,
    state: &State,
    slots: &[Col],
    order: &[usize],
    links: &Links,
    right: &mut [Frac],
    steps: &mut Steps<L>,
) -> Result<(), Passed>
    requires tree { IsTreeOf p.now state.now.standing slots.now order.now links.now }
    requires places { length right.old ≡ p.now.nodes }
    requires few { p.now.nodes < 2 ^ 31 }
    ensures gathered { IfOk result (λ _. IsGathered p.now order.now links.now (at right.old) (at right.new) p.now.nodes) }
    ensures passed { IfErr result (PassesOnPaths p.now.nodes links.now (at right.old)) }
    ensures long { length right.new ≡ length right.old }
    ensures cost { steps.new ≤ steps.old + 2 * p.now.nodes }
{
    let many = right.len();
    for k in 0..many {
        hand_on(links, order[many - k] as u32, right, steps)?;
    }
    Ok(())
}

// Negates the numbers of the nodes to which their columns lead.
fn turn_all(p: &Problem, state: &State, slots: &[Col], right: &mut [Frac])
    requires state { IsStateOf p.now state.now }
    requires stage { state.now.standing.stage ≡ StageOne }
    requires slots { length slots.now ≡ p.now.nodes }
    requires present { (k : ℕ) → k < p.now.nodes → IsPresent p.now state.now.standing (in_slot slots.now k) }
    requires places { length right.old ≡ p.now.nodes }
    ensures turned { (i : ℕ) → i < p.now.nodes → at right.new i ≡ turn (tail_at p.now state.now.standing) (slot_number p.now slots.now) i *ℚ at right.old i }
    ensures long { length right.new ≡ length right.old }
{
    let _rows = p.rows();
    for i in 0..right.len() {
        let number = number_in(right, i);
        right[i] = turned(p, state, slots, i as u32 + 1, number);
    }
}

/// Replaces the rests of the nodes by the weights of the columns in the slots that give them: the sum over a node's
/// subtree, negated if its column leads to it.
///
/// `Passed` only if the sum of two nodes' sums overflows 128 bits. At most two steps a node.
pub(crate) fn tree_solve<L: Ledger>(
    p: &Problem,
    state: &State,
    slots: &[Col],
    order: &[usize],
    links: &Links,
    right: &mut [Frac],
    steps: &mut Steps<L>,
) -> Result<(), Passed>
    requires state { IsStateOf p.now state.now }
    requires stage { state.now.standing.stage ≡ StageOne }
    requires slots { length slots.now ≡ p.now.nodes }
    requires present { (k : ℕ) → k < p.now.nodes → IsPresent p.now state.now.standing (in_slot slots.now k) }
    requires tree { IsTreeOf p.now state.now.standing slots.now order.now links.now }
    requires places { length right.old ≡ p.now.nodes }
    ensures solved { IfOk result (λ _. GiveAt p.now state.now.standing slots.now (at right.old) right.new) }
    ensures passed { IfErr result (PassesOnPaths p.now.nodes links.now (at right.old)) }
    ensures long { length right.new ≡ length right.old }
    ensures cost { steps.new ≤ steps.old + 2 * p.now.nodes }
{
    let _rows = p.rows();
    gather(p, state, slots, order, links, right, steps)?;
    turn_all(p, state, slots, right);
    Ok(())
}
