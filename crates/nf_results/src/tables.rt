//! The output tables of a state.
ghost use Rattle.std.specs.Prelude.{true, ◌≡◌, IfOk, is_some};
ghost use Rattle.nf_labels.specs.Labels.{AreLabelsOf};
ghost use Rattle.nf_basis.specs.Kept.{IsStateOf};
ghost use Rattle.nf_results.specs.Results.{AreResults};
ghost use Rattle.nf_results.specs.Tables.{IsArcout, IsConout, IsDualout, IsNodeout};

use crate::results::Results;
use nf_basis::State;
use nf_labels::Labels;
use nf_prob::Problem;
use nf_table::Table;
use std::alloc::{AllocError, Global};

/// The output tables of the state that the results are of. `future` says whether the columns of FUTURE1, for ARCOUT and
/// NODEOUT, or of FUTURE2, for CONOUT and DUALOUT, are there.
impl Results {
    /// ARCOUT: the arcs, by number.
    ///
    /// `AllocError` if out of memory.
    pub fn arcout(
        &self,
        alloc: Global,
        p: &Problem,
        labels: &Labels,
        state: &State,
        future: bool,
    ) -> Result<Table, AllocError>
        requires labels { AreLabelsOf labels.now p.now }
        requires state { IsStateOf p.now state.now }
        requires results { AreResults p.now state.now.standing self.now }
        ensures table { IfOk result (IsArcout p.now labels.now state.now.standing self.now.best future) }
    {
        nf_out::arcout(alloc, p, labels, state, &self.by_arc(), future)
    }

    /// NODEOUT: the nodes, by number. Its columns of FUTURE1 are those of the tree view.
    ///
    /// `AllocError` if out of memory.
    pub fn nodeout(
        &self,
        alloc: Global,
        p: &Problem,
        labels: &Labels,
        state: &State,
        future: bool,
    ) -> Result<Table, AllocError>
        requires labels { AreLabelsOf labels.now p.now }
        requires state { IsStateOf p.now state.now }
        requires results { AreResults p.now state.now.standing self.now }
        requires tree { future ≡ true → is_some self.now.tree ≡ true }
        ensures table { IfOk result (IsNodeout p.now labels.now state.now.standing self.now.best future) }
    {
        let places = self.places(future);
        nf_out::nodeout(alloc, p, labels, state, &self.by_row(), &places, future)
    }

    /// CONOUT: the arcs and nonarc variables, by number.
    ///
    /// `AllocError` if out of memory.
    pub fn conout(
        &self,
        alloc: Global,
        p: &Problem,
        labels: &Labels,
        state: &State,
        future: bool,
    ) -> Result<Table, AllocError>
        requires labels { AreLabelsOf labels.now p.now }
        requires state { IsStateOf p.now state.now }
        requires results { AreResults p.now state.now.standing self.now }
        ensures table { IfOk result (IsConout p.now labels.now state.now.standing self.now.best future) }
    {
        nf_out::conout(alloc, p, labels, state, &self.by_arc(), future)
    }

    /// DUALOUT: the nodes and constraints, by number. Its columns of FUTURE2 but the status are those of the tree view.
    ///
    /// `AllocError` if out of memory.
    pub fn dualout(
        &self,
        alloc: Global,
        p: &Problem,
        labels: &Labels,
        state: &State,
        future: bool,
    ) -> Result<Table, AllocError>
        requires labels { AreLabelsOf labels.now p.now }
        requires state { IsStateOf p.now state.now }
        requires results { AreResults p.now state.now.standing self.now }
        requires tree { future ≡ true → is_some self.now.tree ≡ true }
        ensures table { IfOk result (IsDualout p.now labels.now state.now.standing self.now.best future) }
    {
        let places = self.places(future);
        nf_out::dualout(alloc, p, labels, state, &self.by_row(), &places, future)
    }
}
