// What a tree offers besides the calls of a basis: its cycles, solutions and potentials.
ghost use Rattle.std.specs.Prelude.{◌≡◌, ℕ, suc, ◌+◌, ◌*◌, ◌<◌, ◌≤◌, length, IfOk, IfErr};
ghost use Rattle.nf_num.specs.Rational.{ℚ};
ghost use Rattle.nf_model.specs.Program.{at};
ghost use Rattle.nf_sums.specs.Terms.{PassesIn, Is};
ghost use Rattle.nf_simplex.specs.Standing.{stage_of};
ghost use Rattle.nf_basis.specs.Kept.{IsPresent, number};
ghost use Rattle.nf_tree.specs.Held.{HoldsLinks};
ghost use Rattle.nf_tree.specs.Links.{ArePricesOf, PassesAlong};
ghost use Rattle.nf_tree.specs.Rests.{GiveAt, rest_paths};

use crate::ends::{head_of, tail_of};
use crate::path::path_between;
use crate::potentials::potentials;
use crate::solving::tree_solve;
use crate::tree::Tree;
use nf_basis::Col;
use nf_frac::{Frac, Passed, Steps};
use nf_prob::Problem;
use std::sync::ledger::Ledger;

impl Tree {
    /// The weights of the columns in the slots that give what a column has at the nodes: those of the path from its tail
    /// to its head, which closes a cycle with it.
    pub fn cycle<L: Ledger>(&self, p: &Problem, col: Col, out: &mut [Frac], steps: &mut Steps<L>)
        requires links { HoldsLinks p.now self.now }
        requires present { IsPresent p.now self.now.state.standing col }
        requires places { length out.old ≡ p.now.nodes }
        ensures weights { GiveAt p.now self.now.state.standing self.now.slots.items ((stage_of p.now self.now.state.standing).entry (number p.now col)) out.new }
        ensures cost { steps.new ≤ steps.old + 16 * suc p.now.nodes }
    {
        let from = tail_of(p, &self.state, col);
        let to = head_of(p, &self.state, col);
        path_between(
            p,
            &self.state,
            self.slots.as_slice(),
            self.span.grove.order.as_slice(),
            &self.span.grove.links,
            from,
            to,
            out,
            steps,
        );
    }

    /// Replaces the rests of the nodes by the weights of the columns in the slots that give them.
    ///
    /// `Passed` only if the sum of two sums of rests, which have no rest in common, overflows 128 bits.
    pub fn tree_solve<L: Ledger>(
        &self,
        p: &Problem,
        right: &mut [Frac],
        steps: &mut Steps<L>,
    ) -> Result<(), Passed>
        requires links { HoldsLinks p.now self.now }
        requires places { length right.old ≡ p.now.nodes }
        ensures solved { IfOk result (λ _. GiveAt p.now self.now.state.standing self.now.slots.items (at right.old) right.new) }
        ensures passed { IfErr result (PassesIn (Is (rest_paths p.now.nodes (at right.old)))) }
        ensures cost { steps.new ≤ steps.old + 16 * suc p.now.nodes }
    {
        tree_solve(
            p,
            &self.state,
            self.slots.as_slice(),
            self.span.grove.order.as_slice(),
            &self.span.grove.links,
            right,
            steps,
        )?;
        Ok(())
    }

    /// The potentials of the nodes, by row, for these costs of the columns in the slots.
    ///
    /// `Passed` only if the cost of a column, or its negative, added to a potential overflows 128 bits.
    pub fn potentials<L: Ledger>(
        &self,
        p: &Problem,
        costs: &[Frac],
        out: &mut [Frac],
        steps: &mut Steps<L>,
    ) -> Result<(), Passed>
        requires links { HoldsLinks p.now self.now }
        requires costs { length costs.now ≡ p.now.nodes }
        requires places { length out.old ≡ p.now.nodes }
        ensures value { (pot : ℕ → ℚ) → ArePricesOf p.now self.now.state.standing self.now.slots.items self.now.span.grove.links (at costs.now) pot → IfOk result (λ _. (i : ℕ) → i < p.now.nodes → at out.new i ≡ pot (suc i)) }
        ensures passed { (pot : ℕ → ℚ) → ArePricesOf p.now self.now.state.standing self.now.slots.items self.now.span.grove.links (at costs.now) pot → IfErr result (PassesAlong p.now self.now.state.standing self.now.slots.items self.now.span.grove.links (at costs.now) pot) }
        ensures cost { steps.new ≤ steps.old + 16 * suc p.now.nodes }
    {
        potentials(
            p,
            &self.state,
            self.slots.as_slice(),
            self.span.grove.order.as_slice(),
            &self.span.grove.links,
            costs,
            out,
            steps,
        )?;
        Ok(())
    }
}
