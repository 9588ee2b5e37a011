// The tree of a saved state: its basic columns joined, and then their values.
ghost use Rattle.std.specs.Prelude.{◌≡◌, suc, ◌+◌, ◌*◌, ◌≤◌, length, IfOk, IfErr, IsTrue};
ghost use Rattle.nf_sums.specs.Terms.{PassesIn};
ghost use Rattle.nf_simplex.specs.Layout.{layout_of};
ghost use Rattle.nf_simplex.specs.Columns.{all_columns};
ghost use Rattle.nf_simplex.specs.Place.{count_basic};
ghost use Rattle.nf_simplex.specs.StageOf.{StageOne};
ghost use Rattle.nf_simplex.specs.Standing.{IsBasisOf, place_at, rows_of};
ghost use Rattle.nf_basis.specs.Kept.{IsStateOf};
ghost use Rattle.nf_basis.specs.Numbers.{ListBasics};
ghost use Rattle.nf_basis.specs.Arising.{LoadTerms};
ghost use Rattle.nf_basis.specs.AtBounds.{rests_cost};
ghost use Rattle.nf_tree.specs.Duals.{KeepsDuals};
ghost use Rattle.nf_tree.specs.Held.{HasRoom, HoldsTree, IsPlanted};
ghost use Rattle.nf_tree.specs.Links.{AreZeros};

use crate::duals::Duals;
use crate::plant::arrange;
use crate::solving::tree_solve;
use crate::span::Span;
use crate::tree::Tree;
use nf_basis::{Col, Phase, State, rests_at_bounds};
use nf_frac::{Frac, Passed, Steps};
use nf_prob::Problem;
use std::alloc::{AllocError, Global};
use std::sync::ledger::Ledger;

// Room for n columns.
fn no_columns(alloc: Global, n: u32) -> Result<Vec<Col>, AllocError>
    ensures { IfOk result (λ v. length v.items ≡ n) }
{
    let columns = vec![in alloc; Col::Given(0); n as usize]?;
    Ok(columns)
}

// Room for n numbers.
fn no_numbers(alloc: Global, n: u32) -> Result<Vec<Frac>, AllocError>
    ensures { IfOk result (λ v. length v.items ≡ n) }
{
    let numbers = vec![in alloc; Frac::zero(); n as usize]?;
    Ok(numbers)
}

// Weights of n slots, all of them 0.
fn no_weights(alloc: Global, n: u32) -> Result<Vec<Frac>, AllocError>
    ensures { IfOk result (λ v. AreZeros n v.items) }
{
    let weights = vec![in alloc; Frac::zero(); n as usize]?;
    Ok(weights)
}

// Room for a path of n slots.
fn no_trail(alloc: Global, n: u32) -> Result<Vec<usize>, AllocError>
    ensures { IfOk result (λ v. length v.items ≡ n) }
{
    let trail = vec![in alloc; 0; n as usize]?;
    Ok(trail)
}

impl Tree {
    // These keys, with room for their slots, their values and their links.
    pub(crate) fn with_keys(
        alloc: Global,
        p: &Problem,
        state: State,
        keys: Vec<Col>,
    ) -> Result<Tree, AllocError>
        requires keys { length keys.items ≡ p.now.nodes }
        ensures state { IfOk result (λ b. b.state ≡ state) }
        ensures keys { IfOk result (λ b. b.keys.items ≡ keys.items) }
        ensures slots { IfOk result (λ b. length b.slots.items ≡ p.now.nodes) }
        ensures values { IfOk result (λ b. length b.values.items ≡ p.now.nodes) }
        ensures one { IfOk result (λ b. KeepsDuals p.now state.standing Phase.One b.one) }
        ensures two { IfOk result (λ b. KeepsDuals p.now state.standing Phase.Two b.two) }
        ensures room { IfOk result (HasRoom p.now.nodes) }
    {
        let n = p.nodes();
        Ok(Tree {
            state,
            slots: no_columns(alloc, n)?,
            values: no_numbers(alloc, n)?,
            span: Span::new(alloc, n)?,
            keys,
            work: no_numbers(alloc, n)?,
            weights: no_weights(alloc, n)?,
            trail: no_trail(alloc, n)?,
            one: Duals::unknown(alloc, n)?,
            two: Duals::unknown(alloc, n)?,
        })
    }

    // Makes the tree of the keys, and puts each into the slot of its node. It returns false if they do not join all
    // vertices.
    pub(crate) fn join<L: Ledger>(&mut self, p: &Problem, steps: &mut Steps<L>) -> bool
        requires state { IsStateOf p.now self.old.state }
        requires stage { self.old.state.standing.stage ≡ StageOne }
        requires as_many { count_basic (all_columns (layout_of p.now)) (place_at self.old.state.standing) ≡ rows_of p.now self.old.state.standing }
        requires keys { ListBasics p.now self.old.state.standing self.old.keys.items }
        requires slots { length self.old.slots.items ≡ p.now.nodes }
        requires values { length self.old.values.items ≡ p.now.nodes }
        requires one { KeepsDuals p.now self.old.state.standing Phase.One self.old.one }
        requires two { KeepsDuals p.now self.old.state.standing Phase.Two self.old.two }
        requires room { HasRoom p.now.nodes self.old }
        ensures planted { IsTrue result → IsPlanted p.now self.new }
        ensures joined { IsBasisOf p.now self.old.state.standing → IsTrue result }
        ensures state { self.new.state ≡ self.old.state }
        ensures cost { steps.new ≤ steps.old + 33 * suc p.now.nodes }
    {
        if !self
            .span
            .rebuild(p, &self.state, self.keys.as_slice(), steps)
        {
            return false;
        }
        arrange(
            self.keys.as_slice(),
            self.span.grove.key.as_slice(),
            &mut self.slots,
        );
        let (keys, slots) = (self.keys.as_slice(), self.slots.as_slice());
        self.span.follow(p, &self.state, keys, slots, steps);
        true
    }

    // Finds the values by slot: the weights that give the rests at the nodes while nonbasic columns are at their bounds.
    pub(crate) fn settle<L: Ledger>(
        &mut self,
        p: &Problem,
        steps: &mut Steps<L>,
    ) -> Result<(), Passed>
        requires planted { IsPlanted p.now self.old }
        ensures numbers { IfOk result (λ _. HoldsTree p.now self.new) }
        ensures state { self.new.state ≡ self.old.state }
        ensures passed { IfErr result (PassesIn (LoadTerms p.now self.old.state.standing)) }
        ensures cost { steps.new ≤ steps.old + rests_cost p.now p.now.nodes + 2 * p.now.nodes }
    {
        rests_at_bounds(p, &self.state, &mut self.values, steps)?;
        tree_solve(
            p,
            &self.state,
            self.slots.as_slice(),
            self.span.grove.order.as_slice(),
            &self.span.grove.links,
            self.values.as_mut_slice(),
            steps,
        )?;
        Ok(())
    }
}
