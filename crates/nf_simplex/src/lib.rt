//! The simplex method over linear programs: stages, states, their numbers, the step; definitions and laws. It computes
//! nothing.
//!
//! A program has two stages: the network alone, and then the whole. A state of a stage puts each of its columns at a
//! bound or among the basic ones. This crate says in specs/ what the numbers of a state are, which column enters, what
//! the next state is and when a state has ended. Each function promises a law of these: a caller's proof cites its
//! clause.
#![tactic(auto)]

ghost use Rattle.nf_simplex.specs.Laws.{DualsAreUnique, EligibleWouldLower, FirstIsFeasible, FrontIsPicked, InfeasibleHasGap, NextIsUnique, OptimalIsBest, SecondIsFeasible, StepsLower, TidiedIsUnique, UnboundedHasRay, ValuesAreUnique, WeightsAreUnique};

/// A basis has one list of values, one list of weights for each right side, and one list of duals for each phase.
pub fn numbers_are_unique()
    ensures values { ValuesAreUnique }
    ensures weights { WeightsAreUnique }
    ensures duals { DualsAreUnique }
{}

/// A lexicographically feasible state and an entering column have at most one next state.
///
/// The lexicographic rule of G. B. Dantzig, A. Orden and P. Wolfe, 1955, for bounded columns.
pub fn next_is_unique()
    ensures law { NextIsUnique }
{}

/// A column that is eligible can enter in a direction that lowers the costs, and its step leads to a lexicographically
/// feasible state with a lexicographically less objective vector; so no state comes twice.
///
/// G. B. Dantzig, A. Orden and P. Wolfe, The generalized simplex method, 1955.
pub fn steps_lower()
    ensures enters { EligibleWouldLower }
    ensures lowers { StepsLower }
{}

/// A queue is tidied in one way, and what the rule QUEUE picks is the front of the tidied queue.
pub fn queue_is_determined()
    ensures tidied { TidiedIsUnique }
    ensures front { FrontIsPicked }
{}

/// The starts of both stages are lexicographically feasible states.
pub fn starts_are_feasible()
    ensures first { FirstIsFeasible }
    ensures second { SecondIsFeasible }
{}

/// The values and printed duals of a state that has ended optimal, with no stage two to come, are a valid certificate.
pub fn optimal_is_best()
    ensures law { OptimalIsBest }
{}

/// The duals of phase one of a state that has ended infeasible are a valid certificate, and its gap is the sum of the
/// artificials.
pub fn infeasible_has_gap()
    ensures law { InfeasibleHasGap }
{}

/// The values of a state that has ended unbounded, with no stage two to come, and what the columns do while the picked
/// one moves, are a valid certificate; its rate is that column's reduced cost in phase two, negated where it moves
/// down.
pub fn unbounded_has_ray()
    ensures law { UnboundedHasRay }
{}
