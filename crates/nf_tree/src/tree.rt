//! The tree of a state of stage one.
ghost use Rattle.std.specs.Prelude.{◌≡◌, ◌≢◌, ℕ, suc, ◌+◌, ◌-◌, ◌*◌, ◌<◌, ◌≤◌, length, slice_index_or, IfOk, IfErr, IsTrue};
ghost use Rattle.nf_num.specs.Rational.{zero_ℚ};
ghost use Rattle.nf_model.specs.Program.{at};
ghost use Rattle.nf_sums.specs.Terms.{PassesIn};
ghost use Rattle.nf_simplex.specs.StageOf.{StageOne};
ghost use Rattle.nf_simplex.specs.Place as model;
ghost use Rattle.nf_simplex.specs.Standing.{IsBasisOf};
ghost use Rattle.nf_basis.specs.Kept.{IsBoundOf, IsNonbasic, IsPresent, IsStateOf};
ghost use Rattle.nf_basis.specs.Numbers.{AreDualsByRow, AreEntriesBySlot, AreInverseWeights, AreSlotsBelow, IsInverseColumnBySlot, ListBasics, in_slot};
ghost use Rattle.nf_basis.specs.Arising.{StateTerms};
ghost use Rattle.nf_basis.specs.Dense.{HasBasics};
ghost use Rattle.nf_basis.specs.Duals.{after_pivot};
ghost use Rattle.nf_tree.specs.Duals.{KeepsDuals};
ghost use Rattle.nf_tree.specs.Held.{HasRoom, HoldsTree, KeepsAllButDuals};
ghost use Rattle.nf_tree.specs.Links.{AreEndsOf, IsTreeOf};

use crate::duals::Duals;
use crate::ends::{column_in, head_of, tail_of};
use crate::moving::{entries_of, exchange, shift};
use crate::path::{climb, path_between, wipe};
use crate::plant::{arrange, arrange_numbers, copy};
use crate::span::Span;
use nf_basis::{
    Basis, Col, Phase, Place, RestoreFault, State, bound, list_basics, other_bound, refusal,
};
use nf_frac::{Frac, Passed, Steps};
use nf_links::Links;
use nf_prob::Problem;
use std::alloc::Global;
use std::sync::ledger::Ledger;

/// A basis of stage one as a spanning tree over the nodes and a root: an arc joins its ends, and an artificial its node
/// with the root. Slot i has the column between node i + 1 and its predecessor. The links are made anew after each pivot,
/// and of the duals those of the subtree below the leaving column change. Its unit is `16 * (m + 1)` for m rows.
#[derive(Drop)]
pub struct Tree {
    pub(crate) state: State,
    pub(crate) slots: Vec<Col>,
    // Of the basic columns, by slot.
    pub(crate) values: Vec<Frac>,
    pub(crate) span: Span,
    pub(crate) keys: Vec<Col>,
    pub(crate) work: Vec<Frac>,
    // Of a path to the root: the weights by slot, which are all 0 between calls, and its slots.
    pub(crate) weights: Vec<Frac>,
    pub(crate) trail: Vec<usize>,
    // The duals of phase one, and of phase two.
    pub(crate) one: Duals,
    pub(crate) two: Duals,
}

// The numbers of the chosen slots.
fn pick(numbers: &[Frac], chosen: &[u32], out: &mut [Frac])
    requires chosen { AreSlotsBelow (length numbers.now) chosen.now }
    requires places { length out.old ≡ length chosen.now }
    ensures { (k : ℕ) → k < length chosen.now → at out.new k ≡ at numbers.now (slice_index_or chosen.now k 0) }
{
    for k in 0..chosen.len() {
        out[k] = numbers[chosen[k] as usize];
    }
}

// Whether a column is in the slot of a vertex; the root, 0, has none.
fn is_in_slot_of(slots: &[Col], vertex: usize, col: Col) -> bool
    requires within { vertex ≤ length slots.now }
    ensures yes { IsTrue result → (0 < vertex) × (in_slot slots.now (vertex - 1) ≡ col) }
    ensures no { 0 < vertex → in_slot slots.now (vertex - 1) ≡ col → IsTrue result }
{
    if vertex == 0 {
        return false;
    }
    column_in(slots, vertex - 1) == col
}

impl Tree {
    // The slot of a basic column: that of the node at one of its ends.
    fn slot_at_ends(&self, p: &Problem, col: Col) -> usize
        requires numbers { HoldsTree p.now self.now }
        requires present { IsPresent p.now self.now.state.standing col }
        requires listed { (k : ℕ) × (k < p.now.nodes) × (in_slot self.now.slots.items k ≡ col) }
        ensures within { result < p.now.nodes }
        ensures column { in_slot self.now.slots.items result ≡ col }
    {
        let tail = tail_of(p, &self.state, col) as usize;
        let head = head_of(p, &self.state, col) as usize;
        if is_in_slot_of(self.slots.as_slice(), tail, col) {
            tail - 1
        } else {
            head - 1
        }
    }

    /// The links of the tree.
    pub fn links(&self) -> &Links
        ensures { result.now ≡ self.now.span.grove.links }
    {
        &self.span.grove.links
    }

    // Makes the tree of the columns in the slots, and puts each into the slot of its node.
    pub(crate) fn replant<L: Ledger>(&mut self, p: &Problem, steps: &mut Steps<L>)
        requires state { IsStateOf p.now self.old.state }
        requires stage { self.old.state.standing.stage ≡ StageOne }
        requires held { HasBasics p.now self.old.state.standing self.old.slots.items self.old.values.items }
        requires one { KeepsDuals p.now self.old.state.standing Phase.One self.old.one }
        requires two { KeepsDuals p.now self.old.state.standing Phase.Two self.old.two }
        requires ends { AreEndsOf p.now self.old.state.standing self.old.slots.items p.now.nodes self.old.span.tails.items self.old.span.heads.items self.old.span.names.items }
        requires room { HasRoom p.now.nodes self.old }
        ensures numbers { HoldsTree p.now self.new }
        ensures state { self.new.state ≡ self.old.state }
        ensures cost { steps.new ≤ steps.old + 33 * suc p.now.nodes }
    {
        copy(
            self.slots.as_slice(),
            self.values.as_slice(),
            &mut self.keys,
            &mut self.work,
        );
        let _joined = self
            .span
            .regrow(p, &self.state, self.keys.as_slice(), steps);
        let key = self.span.grove.key.as_slice();
        arrange(self.keys.as_slice(), key, &mut self.slots);
        arrange_numbers(self.work.as_slice(), key, &mut self.values);
        let (keys, slots) = (self.keys.as_slice(), self.slots.as_slice());
        self.span.follow(p, &self.state, keys, slots, steps);
    }

    // The inverse column of a row, which counts from 1: the path from its node to the root.
    pub(crate) fn root_path<L: Ledger>(
        &self,
        p: &Problem,
        row: u32,
        out: &mut [Frac],
        steps: &mut Steps<L>,
    )
        requires numbers { HoldsTree p.now self.now }
        requires present { (0 < row) × (row ≤ p.now.nodes) }
        requires places { length out.old ≡ p.now.nodes }
        ensures weights { IsInverseColumnBySlot p.now self.now.state.standing self.now.slots.items row out.new }
        ensures cost { steps.new ≤ steps.old + 6 * p.now.nodes + 2 }
    {
        path_between(
            p,
            &self.state,
            self.slots.as_slice(),
            self.span.grove.order.as_slice(),
            &self.span.grove.links,
            row,
            0,
            out,
            steps,
        );
    }

    // The weights of chosen slots in an inverse column: only the path to the root is walked, there and back.
    pub(crate) fn root_weights<L: Ledger>(
        &mut self,
        p: &Problem,
        row: u32,
        chosen: &[u32],
        out: &mut [Frac],
        steps: &mut Steps<L>,
    )
        requires numbers { HoldsTree p.now self.old }
        requires present { (0 < row) × (row ≤ p.now.nodes) }
        requires chosen { AreSlotsBelow p.now.nodes chosen.now }
        requires places { length out.old ≡ length chosen.now }
        ensures numbers { HoldsTree p.now self.new }
        ensures state { self.new.state ≡ self.old.state }
        ensures slots { self.new.slots.items ≡ self.old.slots.items }
        ensures values { self.new.values.items ≡ self.old.values.items }
        ensures weights { AreInverseWeights p.now self.old.state.standing self.old.slots.items row chosen.now out.new }
        ensures cost { steps.new ≤ steps.old + p.now.nodes }
    {
        let count = climb(
            p,
            &self.state,
            self.slots.as_slice(),
            self.span.tails.as_slice(),
            self.span.grove.order.as_slice(),
            &self.span.grove.links,
            row,
            self.weights.as_mut_slice(),
            self.trail.as_mut_slice(),
            steps,
        );
        pick(self.weights.as_slice(), chosen, out);
        wipe(self.trail.as_slice(), count, self.weights.as_mut_slice());
    }

    // The duals of a phase, by row: only the first call computes them.
    pub(crate) fn price_all<L: Ledger>(
        &mut self,
        p: &Problem,
        phase: Phase,
        out: &mut [Frac],
        steps: &mut Steps<L>,
    ) -> Result<(), Passed>
        requires numbers { HoldsTree p.now self.old }
        requires places { length out.old ≡ p.now.nodes }
        ensures numbers { IfOk result (λ _. HoldsTree p.now self.new) }
        ensures state { self.new.state ≡ self.old.state }
        ensures slots { self.new.slots.items ≡ self.old.slots.items }
        ensures values { self.new.values.items ≡ self.old.values.items }
        ensures duals { IfOk result (λ _. AreDualsByRow p.now self.old.state.standing phase out.new) }
        ensures passed { IfErr result (PassesIn (StateTerms p.now self.old.state.standing)) }
        ensures cost { steps.new ≤ steps.old + 2 * p.now.nodes }
    {
        let (state, slots) = (&self.state, self.slots.as_slice());
        let (order, links) = (self.span.grove.order.as_slice(), &self.span.grove.links);
        let work = &mut self.work;
        match phase {
            Phase::One => {
                let one = &mut self.one;
                one.read(p, state, slots, order, links, Phase::One, work, out, steps)
            }
            Phase::Two => {
                let two = &mut self.two;
                two.read(p, state, slots, order, links, Phase::Two, work, out, steps)
            }
        }
    }

    // Changes the duals of both phases by a pivot in which a column enters for the one in a slot. `work` has its entries.
    // The state, the slots and the links are those before the pivot.
    pub(crate) fn shift_duals<L: Ledger>(
        &mut self,
        p: &Problem,
        entering: Col,
        slot: usize,
        steps: &mut Steps<L>,
    ) -> Result<(), Passed>
        requires state { IsStateOf p.now self.old.state }
        requires stage { self.old.state.standing.stage ≡ StageOne }
        requires basis { IsBasisOf p.now self.old.state.standing }
        requires listed { ListBasics p.now self.old.state.standing self.old.slots.items }
        requires tree { IsTreeOf p.now self.old.state.standing self.old.slots.items self.old.span.grove.order.items self.old.span.grove.links }
        requires one { KeepsDuals p.now self.old.state.standing Phase.One self.old.one }
        requires two { KeepsDuals p.now self.old.state.standing Phase.Two self.old.two }
        requires entering { IsNonbasic p.now self.old.state.standing entering }
        requires within { slot < p.now.nodes }
        requires entries { AreEntriesBySlot p.now self.old.state.standing self.old.slots.items entering self.old.work.items }
        requires long { length self.old.work.items ≡ p.now.nodes }
        requires entry { at self.old.work.items slot ≢ zero_ℚ }
        ensures one { (to : model.Place) → IsBoundOf p.now (in_slot self.old.slots.items slot) to → IfOk result (λ _. KeepsDuals p.now (after_pivot p.now self.old.state.standing entering (in_slot self.old.slots.items slot) to) Phase.One self.new.one) }
        ensures two { (to : model.Place) → IsBoundOf p.now (in_slot self.old.slots.items slot) to → IfOk result (λ _. KeepsDuals p.now (after_pivot p.now self.old.state.standing entering (in_slot self.old.slots.items slot) to) Phase.Two self.new.two) }
        ensures kept { KeepsAllButDuals self.old self.new }
        ensures passed { IfErr result (PassesIn (StateTerms p.now self.old.state.standing)) }
        ensures cost { steps.new ≤ steps.old + 6 * p.now.nodes + 4 }
    {
        let (state, slots, work) = (&self.state, self.slots.as_slice(), self.work.as_slice());
        let (order, links) = (self.span.grove.order.as_slice(), &self.span.grove.links);
        let one = &mut self.one;
        one.pivot(
            p,
            state,
            slots,
            order,
            links,
            Phase::One,
            entering,
            slot,
            work,
            steps,
        )?;
        let two = &mut self.two;
        two.pivot(
            p,
            state,
            slots,
            order,
            links,
            Phase::Two,
            entering,
            slot,
            work,
            steps,
        )?;
        Ok(())
    }
}

impl Basis for Tree {
    ghost use Rattle.std.specs.Prelude.{◌≡◌};
    ghost use Rattle.nf_basis.specs.Dense.{spread_values};
    ghost use Rattle.nf_simplex.specs.StageOf.{StageOne};
    ghost use Rattle.nf_tree.specs.Held.{HoldsTree, tree_unit};

    ghost standing = { λ b. b.state.standing };

    ghost slots = { λ b. b.slots.items };

    ghost values = { λ p b. spread_values p b.state.standing b.slots.items b.values.items };

    ghost HasNumbers = { HoldsTree };

    ghost Takes = { λ p n. n ≡ StageOne };

    ghost unit = { tree_unit };

    ghost sound = { λ p b h. record { problem = h.state.problem; state = h.state.fits; basis = h.held.basis; listed = h.held.listed; values = h.held.values } };

    // If the basic columns do not join all vertices, a load by exchanges finds the first dependent one.
    fn restore<L: Ledger>(
        alloc: Global,
        p: &Problem,
        state: State,
        steps: &mut Steps<L>,
    ) -> Result<Self, RestoreFault> {
        let keys = list_basics(alloc, p, &state)?;
        let mut tree = Tree::with_keys(alloc, p, state, keys)?;
        if !tree.join(p, steps) {
            return Err(refusal(alloc, p, &tree.state, steps));
        }
        tree.settle(p, steps)?;
        Ok(tree)
    }

    fn state(&self) -> &State {
        &self.state
    }

    fn basic_at(&self, slot: u32) -> Col {
        self.slots[slot as usize]
    }

    fn value(&self, p: &Problem, col: Col) -> Frac {
        match self.state.place(col) {
            Place::Lower => bound(p, &self.state, col, Place::Lower),
            Place::Upper => bound(p, &self.state, col, Place::Upper),
            Place::Zero => Frac::zero(),
            Place::Basic => self.values[self.slot_at_ends(p, col)],
            // No present column is absent.
            Place::Absent => Frac::zero(),
        }
    }

    fn column<L: Ledger>(
        &mut self,
        p: &Problem,
        col: Col,
        out: &mut [Frac],
        steps: &mut Steps<L>,
    ) -> Result<(), Passed> {
        entries_of(
            p,
            &self.state,
            self.slots.as_slice(),
            self.values.as_slice(),
            self.span.grove.order.as_slice(),
            &self.span.grove.links,
            col,
            out,
            steps,
        );
        Ok(())
    }

    fn duals<L: Ledger>(
        &mut self,
        p: &Problem,
        phase: Phase,
        out: &mut [Frac],
        steps: &mut Steps<L>,
    ) -> Result<(), Passed> {
        self.price_all(p, phase, out, steps)
    }

    fn inverse_column<L: Ledger>(
        &mut self,
        p: &Problem,
        row: u32,
        out: &mut [Frac],
        steps: &mut Steps<L>,
    ) -> Result<(), Passed> {
        self.root_path(p, row, out, steps);
        Ok(())
    }

    fn inverse_weights<L: Ledger>(
        &mut self,
        p: &Problem,
        row: u32,
        chosen: &[u32],
        out: &mut [Frac],
        steps: &mut Steps<L>,
    ) -> Result<(), Passed> {
        self.root_weights(p, row, chosen, out, steps);
        Ok(())
    }

    fn pivot<L: Ledger>(
        &mut self,
        p: &Problem,
        entering: Col,
        slot: u32,
        to: Place,
        steps: &mut Steps<L>,
    ) -> Result<(), Passed> {
        let at = slot as usize;
        exchange(
            p,
            &self.state,
            self.slots.as_slice(),
            self.span.grove.order.as_slice(),
            &self.span.grove.links,
            self.values.as_mut_slice(),
            self.work.as_mut_slice(),
            entering,
            at,
            to,
            steps,
        )?;
        self.shift_duals(p, entering, at, steps)?;
        let leaving = self.slots[at];
        self.span
            .put(p, &self.state, self.slots.as_slice(), at, entering);
        self.state.set_place(p, entering, Place::Basic);
        self.state.set_place(p, leaving, to);
        self.slots[at] = entering;
        self.replant(p, steps);
        Ok(())
    }

    fn flip<L: Ledger>(
        &mut self,
        p: &Problem,
        entering: Col,
        steps: &mut Steps<L>,
    ) -> Result<(), Passed> {
        shift(
            p,
            &self.state,
            self.slots.as_slice(),
            self.span.grove.order.as_slice(),
            &self.span.grove.links,
            self.values.as_mut_slice(),
            self.work.as_mut_slice(),
            entering,
            steps,
        )?;
        let to = other_bound(self.state.place(entering));
        self.state.set_place(p, entering, to);
        Ok(())
    }
}
