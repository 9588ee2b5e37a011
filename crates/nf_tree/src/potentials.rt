// Potentials: the cost of the path from the root to each node.
ghost use Rattle.std.specs.Prelude.{◌≡◌, ◌≢◌, ℕ, suc, ◌+◌, ◌-◌, ◌*◌, ◌^◌, ◌<◌, ◌≤◌, length, set, slice_index, IfOk, IfErr};
ghost use Rattle.nf_num.specs.Rational.{ℚ, ◌*ℚ◌};
ghost use Rattle.nf_model.specs.Program.{at};
ghost use Rattle.nf_simplex.specs.StageOf.{StageOne};
ghost use Rattle.nf_basis.specs.Kept.{IsPresent, IsStateOf};
ghost use Rattle.nf_basis.specs.Numbers.{in_slot, slot_number};
ghost use Rattle.nf_tree.specs.Network.{turn};
ghost use Rattle.nf_tree.specs.Vertices.{tail_at};
ghost use Rattle.nf_tree.specs.Links.{ArePricesOf, IsTreeOf, PassesAlong};

use crate::ends::{column_in, number_in, tail_of};
use nf_basis::{Col, State};
use nf_frac::{Frac, Passed, Steps};
use nf_links::{Field, Links};
use nf_prob::Problem;
use std::sync::ledger::Ledger;

/// A number, negated if the column in the slot of a node leads to the node.
pub(crate) fn turned(p: &Problem, state: &State, slots: &[Col], node: u32, number: Frac) -> Frac
    requires state { IsStateOf p.now state.now }
    requires stage { state.now.standing.stage ≡ StageOne }
    requires slots { length slots.now ≡ p.now.nodes }
    requires node { (0 < node) × (node ≤ p.now.nodes) }
    requires present { IsPresent p.now state.now.standing (in_slot slots.now (node - 1)) }
    ensures { result ≡ turn (tail_at p.now state.now.standing) (slot_number p.now slots.now) (node - 1) *ℚ number }
{
    if tail_of(p, state, column_in(slots, node as usize - 1)) == node {
        number
    } else {
        number.neg()
    }
}

// The potential of a node from that of its predecessor.
fn price<L: Ledger>(
    p: &Problem,
    state: &State,
    slots: &[Col],
    order: &[usize],
    links: &Links,
    costs: &[Frac],
    node: u32,
    out: &mut [Frac],
    steps: &mut Steps<L>,
) -> Result<(), Passed>
    requires state { IsStateOf p.now state.now }
    requires stage { state.now.standing.stage ≡ StageOne }
    requires slots { length slots.now ≡ p.now.nodes }
    requires present { (k : ℕ) → k < p.now.nodes → IsPresent p.now state.now.standing (in_slot slots.now k) }
    requires tree { IsTreeOf p.now state.now.standing slots.now order.now links.now }
    requires node { (0 < node) × (node ≤ p.now.nodes) }
    requires costs { length costs.now ≡ p.now.nodes }
    requires places { length out.old ≡ p.now.nodes }
    requires known { (pot : ℕ → ℚ) → ArePricesOf p.now state.now.standing slots.now links.now (at costs.now) pot → 0 < slice_index links.now.pred node → at out.old (slice_index links.now.pred node - 1) ≡ pot (slice_index links.now.pred node) }
    ensures value { (pot : ℕ → ℚ) → ArePricesOf p.now state.now.standing slots.now links.now (at costs.now) pot → IfOk result (λ _. out.new ≡ set out.old (node - 1) (pot node)) }
    ensures passed { (pot : ℕ → ℚ) → ArePricesOf p.now state.now.standing slots.now links.now (at costs.now) pot → IfErr result (PassesAlong p.now state.now.standing slots.now links.now (at costs.now) pot) }
    ensures long { length out.new ≡ length out.old }
    ensures cost { steps.new ≤ steps.old + 2 }
{
    let before = links.get(Field::Pred, node, steps);
    let cost = turned(p, state, slots, node, number_in(costs, node as usize - 1));
    if before == 0 {
        out[node as usize - 1] = cost;
        return Ok(());
    }
    let so_far = number_in(out, before as usize - 1);
    out[node as usize - 1] = so_far.add(cost, steps)?;
    Ok(())
}

/// The potentials of the nodes, by row, for these costs of the columns in the slots: in preorder, the potential of the
/// predecessor and the cost of the column between, negated if that leads to the node.
///
/// `Passed` only if such a sum overflows 128 bits. At most two steps a node.
pub(crate) fn potentials<L: Ledger>(
    p: &Problem,
    state: &State,
    slots: &[Col],
    order: &[usize],
    links: &Links,
    costs: &[Frac],
    out: &mut [Frac],
    steps: &mut Steps<L>,
) -> Result<(), Passed>
    requires state { IsStateOf p.now state.now }
    requires stage { state.now.standing.stage ≡ StageOne }
    requires slots { length slots.now ≡ p.now.nodes }
    requires present { (k : ℕ) → k < p.now.nodes → IsPresent p.now state.now.standing (in_slot slots.now k) }
    requires tree { IsTreeOf p.now state.now.standing slots.now order.now links.now }
    requires costs { length costs.now ≡ p.now.nodes }
    requires places { length out.old ≡ p.now.nodes }
    ensures value { (pot : ℕ → ℚ) → ArePricesOf p.now state.now.standing slots.now links.now (at costs.now) pot → IfOk result (λ _. (i : ℕ) → i < p.now.nodes → at out.new i ≡ pot (suc i)) }
    ensures passed { (pot : ℕ → ℚ) → ArePricesOf p.now state.now.standing slots.now links.now (at costs.now) pot → IfErr result (PassesAlong p.now state.now.standing slots.now links.now (at costs.now) pot) }
    ensures long { length out.new ≡ length out.old }
    ensures cost { steps.new ≤ steps.old + 2 * p.now.nodes }
{
    let _rows = p.rows();
    for k in 0..slots.len() {
        price(
            p,
            state,
            slots,
            order,
            links,
            costs,
            order[k + 1] as u32,
            out,
            steps,
        )?;
    }
    Ok(())
}
