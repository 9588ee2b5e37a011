//! What holds of all runs.
ghost use Rattle.nf_engine.specs.Laws.{RunsAreDetermined, StepsAreDetermined};

/// A point with a lexicographically feasible state has at most one step, and a run from it has one halt and one end.
/// It computes nothing: a caller's proof cites its clauses.
pub fn runs_are_determined()
    ensures steps { StepsAreDetermined }
    ensures runs { RunsAreDetermined }
{}
