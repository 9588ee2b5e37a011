// Paths in a tree: the weights of its columns along the path between two vertices.
ghost use Rattle.std.specs.Prelude.{◌≡◌, ◌≢◌, ℕ, suc, ◌+◌, ◌-◌, ◌*◌, ◌^◌, ◌<◌, ◌≤◌, length, set, slice_index, Bool, cond, ◌==◌};
ghost use Rattle.nf_num.specs.Rational.{neg_ℚ, one_ℚ, zero_ℚ};
ghost use Rattle.nf_model.specs.Program.{at};
ghost use Rattle.nf_sums.specs.Terms.{with_sign};
ghost use Rattle.nf_simplex.specs.StageOf.{StageOne};
ghost use Rattle.nf_basis.specs.Kept.{IsPresent, IsStateOf};
ghost use Rattle.nf_basis.specs.Numbers.{in_slot, slot_number};
ghost use Rattle.nf_tree.specs.Network.{turn};
ghost use Rattle.nf_tree.specs.Vertices.{tail_at};
ghost use Rattle.nf_tree.specs.Links.{AreSlotsOf, AreZeros, GiveBetween, IsMidway, IsTreeOf, ListsWeights};

use crate::ends::{column_in, tail_of};
use nf_basis::{Col, State};
use nf_frac::{Frac, Steps};
use nf_links::{Field, Links};
use nf_prob::Problem;
use std::sync::ledger::Ledger;

/// 1 if the column in the slot of a node leads away from it, and -1 if it leads to it.
pub(crate) fn turn_of(p: &Problem, state: &State, slots: &[Col], node: u32) -> Frac
    requires state { IsStateOf p.now state.now }
    requires stage { state.now.standing.stage ≡ StageOne }
    requires slots { length slots.now ≡ p.now.nodes }
    requires node { (0 < node) × (node ≤ p.now.nodes) }
    requires present { IsPresent p.now state.now.standing (in_slot slots.now (node - 1)) }
    ensures { result ≡ turn (tail_at p.now state.now.standing) (slot_number p.now slots.now) (node - 1) }
{
    let one = Frac::from_whole(1);
    if tail_of(p, state, column_in(slots, node as usize - 1)) == node {
        one
    } else {
        one.neg()
    }
}

// Writes the weight of a node's column on a path that goes up it, or down it, and returns the node's predecessor.
fn pass<L: Ledger>(
    p: &Problem,
    state: &State,
    slots: &[Col],
    links: &Links,
    node: u32,
    down: bool,
    out: &mut [Frac],
    steps: &mut Steps<L>,
) -> u32
    requires state { IsStateOf p.now state.now }
    requires stage { state.now.standing.stage ≡ StageOne }
    requires slots { length slots.now ≡ p.now.nodes }
    requires node { (0 < node) × (node ≤ p.now.nodes) }
    requires present { IsPresent p.now state.now.standing (in_slot slots.now (node - 1)) }
    requires links { length links.now.pred ≡ suc p.now.nodes }
    requires places { length out.old ≡ p.now.nodes }
    ensures out { out.new ≡ set out.old (node - 1) (with_sign down (turn (tail_at p.now state.now.standing) (slot_number p.now slots.now) (node - 1))) }
    ensures before { result ≡ slice_index links.now.pred node }
    ensures cost { steps.new ≡ steps.old + 1 }
{
    let turn = turn_of(p, state, slots, node);
    out[node as usize - 1] = if down { turn.neg() } else { turn };
    links.get(Field::Pred, node, steps)
}

// The same on the way up, where the tails of the columns in the slots are known.
fn rise<L: Ledger>(
    p: &Problem,
    state: &State,
    slots: &[Col],
    tails: &[usize],
    links: &Links,
    node: u32,
    out: &mut [Frac],
    steps: &mut Steps<L>,
) -> u32
    requires node { (0 < node) × (node ≤ p.now.nodes) }
    requires many { length tails.now ≡ p.now.nodes }
    requires tails { (i : ℕ) → i < p.now.nodes → slice_index tails.now i ≡ tail_at p.now state.now.standing (slot_number p.now slots.now i) }
    requires links { length links.now.pred ≡ suc p.now.nodes }
    requires places { length out.old ≡ p.now.nodes }
    ensures out { out.new ≡ set out.old (node - 1) (turn (tail_at p.now state.now.standing) (slot_number p.now slots.now) (node - 1)) }
    ensures before { result ≡ slice_index links.now.pred node }
    ensures cost { steps.new ≡ steps.old + 1 }
{
    let slot = node as usize - 1;
    out[slot] = turn_by(tails[slot], node as usize);
    links.get(Field::Pred, node, steps)
}

// 1 for a column whose tail is its node, and else -1.
fn turn_by(tail: usize, node: usize) -> Frac
    ensures { result ≡ cond (tail == node) one_ℚ (neg_ℚ one_ℚ) }
{
    let one = Frac::from_whole(1);
    if tail == node { one } else { one.neg() }
}

/// Writes the weights of a node's inverse column, those of the path from it to the root, into a list of zeros, and the
/// slots of this path into `trail`. It returns how many they are.
pub(crate) fn climb<L: Ledger>(
    p: &Problem,
    state: &State,
    slots: &[Col],
    tails: &[usize],
    order: &[usize],
    links: &Links,
    from: u32,
    out: &mut [Frac],
    trail: &mut [usize],
    steps: &mut Steps<L>,
) -> usize
    requires state { IsStateOf p.now state.now }
    requires stage { state.now.standing.stage ≡ StageOne }
    requires slots { length slots.now ≡ p.now.nodes }
    requires present { (k : ℕ) → k < p.now.nodes → IsPresent p.now state.now.standing (in_slot slots.now k) }
    requires tree { IsTreeOf p.now state.now.standing slots.now order.now links.now }
    requires many { length tails.now ≡ p.now.nodes }
    requires tails { (i : ℕ) → i < p.now.nodes → slice_index tails.now i ≡ tail_at p.now state.now.standing (slot_number p.now slots.now i) }
    requires from { from ≤ p.now.nodes }
    requires zeros { AreZeros p.now.nodes out.old }
    requires room { length trail.old ≡ p.now.nodes }
    ensures long { length out.new ≡ p.now.nodes }
    ensures gives { GiveBetween p.now state.now.standing slots.now from 0 out.new }
    ensures room { length trail.new ≡ p.now.nodes }
    ensures within { result ≤ p.now.nodes }
    ensures slots { AreSlotsOf p.now.nodes trail.new result }
    ensures listed { ListsWeights trail.new 0 result out.new }
    ensures cost { steps.new ≤ steps.old + p.now.nodes }
{
    // There are fewer nodes than 2^31, so their slots can be counted.
    let _rows = p.rows();
    let (mut u, mut count) = (from, 0);
    while u != 0 {
        trail[count] = u as usize - 1;
        count += 1;
        u = rise(p, state, slots, tails, links, u, out, steps);
    }
    count
}

/// Sets the weights in the first slots of the trail back to 0; all others are 0.
pub(crate) fn wipe(trail: &[usize], count: usize, out: &mut [Frac])
    requires within { count ≤ length trail.now }
    requires slots { AreSlotsOf (length out.old) trail.now count }
    requires listed { ListsWeights trail.now 0 count out.old }
    ensures zeros { AreZeros (length out.old) out.new }
{
    for k in 0..count {
        out[trail[k]] = Frac::zero();
    }
}

// Sets all to 0.
fn clear(out: &mut [Frac])
    ensures zeros { (k : ℕ) → at out.new k ≡ zero_ℚ }
    ensures long { length out.new ≡ length out.old }
{
    for k in 0..out.len() {
        out[k] = Frac::zero();
    }
}

/// The weights of the columns in the slots that take one unit from one vertex to another: 1 and -1 on the path between
/// them, and 0 elsewhere. It goes up from the deeper of the two until both are the same: the join of the cycle.
pub(crate) fn path_between<L: Ledger>(
    p: &Problem,
    state: &State,
    slots: &[Col],
    order: &[usize],
    links: &Links,
    from: u32,
    to: u32,
    out: &mut [Frac],
    steps: &mut Steps<L>,
)
    requires state { IsStateOf p.now state.now }
    requires stage { state.now.standing.stage ≡ StageOne }
    requires slots { length slots.now ≡ p.now.nodes }
    requires present { (k : ℕ) → k < p.now.nodes → IsPresent p.now state.now.standing (in_slot slots.now k) }
    requires tree { IsTreeOf p.now state.now.standing slots.now order.now links.now }
    requires from { from ≤ p.now.nodes }
    requires to { to ≤ p.now.nodes }
    requires places { length out.old ≡ p.now.nodes }
    ensures long { length out.new ≡ p.now.nodes }
    ensures gives { GiveBetween p.now state.now.standing slots.now from to out.new }
    ensures cost { steps.new ≤ steps.old + 6 * p.now.nodes + 2 }
{
    clear(out);
    let (mut u, mut v) = (from, to);
    while u != v {
        let high = links.get(Field::Depth, u, steps);
        let other = links.get(Field::Depth, v, steps);
        if high >= other {
            u = pass(p, state, slots, links, u, false, out, steps);
        } else {
            v = pass(p, state, slots, links, v, true, out, steps);
        }
    }
}
