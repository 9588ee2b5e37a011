//! The values that rows give variables: coefficients of constraints, or costs and bounds.
ghost use Rattle.std.specs.Prelude.{◌≡◌, ◌++◌, ◌∷◌, [], None, MatchResult, OnErr};
ghost use Rattle.nf_cons.specs.Bounds.{bound_row, cost_or, figures_of, later_row, lower_or, upper_or};
ghost use Rattle.nf_cons.specs.Places.{IsFaultOf, first_of};
ghost use Rattle.nf_cons.specs.Terms.{gift_faults, no_lists, term_faults, with_coefficient, with_given};

use crate::fault::at;
use crate::gifts::Gifts;
use crate::places::PlacedFault;
use crate::row_type::RowType;
use crate::taken::{Coefficient, Figures, Term};
use crate::value::Value;
use nf_cells::Bound;
use nf_frac::Amount;
use nf_roles::DataKind;
use std::alloc::Global;
use std::marker::Model;

/// The coefficients of constraints so far, and the costs and bounds that rows of data give nonarc variables.
pub struct Terms {
    coefficients: Vec<Coefficient>,
    costs: Gifts,
    lowers: Gifts,
    uppers: Gifts,
}

// A function of its own, so that the proofs of callers do not go through its parts.
impl Drop for Terms {
    fn drop(self) {
        let Terms {
            coefficients: _,
            costs: _,
            lowers: _,
            uppers: _,
        } = self;
    }
}

// Gives a nonarc variable a cost or a bound.
fn give(gifts: &mut Gifts, term: Term, row: u32) -> Result<(), PlacedFault>
    ensures answer { MatchResult result
        (λ _. (first_of (gift_faults term gifts.old) ≡ None) × (gifts.new ≡ gifts.old ++ (term.variable, (term.value, row)) ∷ []))
        (IsFaultOf (first_of (gift_faults term gifts.old))) }
    ensures unchanged { OnErr result (gifts.new ≡ gifts.old) }
{
    if term.is_arc {
        return Err(at(term.named_at, DataKind::ArcHere));
    }
    match gifts.give(term.variable, term.value, row) {
        Ok(true) => Ok(()),
        Ok(false) => Err(at(term.named_at, DataKind::RepeatedCoefficient)),
        Err(_) => Err(at(term.named_at, DataKind::NoMemory)),
    }
}

// The cost of a gift, or a default.
fn cost_or(gift: Option<(Value, u32)>, default: Amount) -> Amount
    ensures { result ≡ cost_or default gift }
{
    match gift {
        Some((Value::Finite(amount), _)) => amount,
        Some((Value::NoUpper | Value::NoLower, _)) | None => default,
    }
}

// The lower bound of a gift, which may be none, or a default.
fn lower_or(gift: Option<(Value, u32)>, default: Option<Amount>) -> Option<Amount>
    ensures { result ≡ lower_or default gift }
{
    match gift {
        Some((Value::Finite(amount), _)) => Some(amount),
        Some((Value::NoLower, _)) => None,
        Some((Value::NoUpper, _)) | None => default,
    }
}

// The upper bound of a gift, which may be none, or a default.
fn upper_or(gift: Option<(Value, u32)>, default: Bound) -> Bound
    ensures { result ≡ upper_or default gift }
{
    match gift {
        Some((Value::Finite(amount), _)) => Bound::Finite(amount),
        Some((Value::NoUpper, _)) => Bound::Infinite,
        Some((Value::NoLower, _)) | None => default,
    }
}

// The later of the rows of two gifts.
fn later_row(lower: Option<(Value, u32)>, upper: Option<(Value, u32)>) -> Option<u32>
    ensures { result ≡ later_row lower upper }
{
    match (lower, upper) {
        (Some((_, lower)), Some((_, upper))) => Some(if lower < upper { upper } else { lower }),
        (Some((_, row)), None) | (None, Some((_, row))) => Some(row),
        (None, None) => None,
    }
}

impl Model for Terms {
    ghost use Rattle.nf_cons.specs.Terms.{TermLists};

    ghost Value = { TermLists };

    ghost view = { λ t. record { coefficients = t.coefficients.items; costs = t.costs; lowers = t.lowers; uppers = t.uppers } };
}

impl Terms {
    pub fn new(alloc: Global) -> Terms
        ensures { result ≡ no_lists }
    {
        Terms {
            coefficients: Vec::new(alloc),
            costs: Gifts::new(alloc),
            lowers: Gifts::new(alloc),
            uppers: Gifts::new(alloc),
        }
    }

    // Adds a coefficient of a constraint.
    fn add(&mut self, term: Term, value: Amount, constraint: usize) -> Result<(), PlacedFault>
        requires value { term.value ≡ Value.Finite value }
        ensures answer { MatchResult result (λ _. self.new ≡ with_coefficient self.old term constraint) (λ f. f.kind ≡ DataKind.NoMemory) }
        ensures unchanged { OnErr result (self.new ≡ self.old) }
    {
        let coefficient = Coefficient {
            variable: term.variable,
            constraint,
            value,
        };
        match self.coefficients.push(coefficient) {
            Ok(()) => Ok(()),
            Err(_) => Err(at(term.named_at, DataKind::NoMemory)),
        }
    }

    /// Takes the value that a row of this type gives a variable. A row of a constraint has the constraint's number; rows
    /// count from 1. After a fault nothing has changed.
    pub fn take(
        &mut self,
        row_type: RowType,
        term: Term,
        constraint: usize,
        row: u32,
    ) -> Result<(), PlacedFault>
        ensures answer { MatchResult result
            (λ _. (first_of (term_faults row_type term self.old) ≡ None)
            × (self.new ≡ with_given self.old (record { row_type = row_type; term = term; constraint = constraint; row = row })))
            (IsFaultOf (first_of (term_faults row_type term self.old))) }
        ensures unchanged { OnErr result (self.new ≡ self.old) }
    {
        match (row_type, term.value) {
            (RowType::Le | RowType::Ge | RowType::Eq, Value::Finite(value)) => {
                self.add(term, value, constraint)
            }
            (RowType::Cost, Value::Finite(_)) => give(&mut self.costs, term, row),
            (RowType::Lower, Value::Finite(_) | Value::NoLower) => {
                give(&mut self.lowers, term, row)
            }
            (RowType::Upper, Value::Finite(_) | Value::NoUpper) => {
                give(&mut self.uppers, term, row)
            }
            (_, Value::NoUpper | Value::NoLower) => Err(at(term.given_at, DataKind::Amount)),
        }
    }

    /// The coefficients of constraints.
    pub fn coefficients(&self) -> &[Coefficient]
        ensures { result.now ≡ self.now.coefficients }
    {
        self.coefficients.as_slice()
    }

    /// The cost and bounds of a nonarc variable.
    pub fn figures(&self, variable: usize, defaults: Figures) -> Figures
        ensures { result ≡ figures_of defaults self.now variable }
    {
        Figures {
            cost: cost_or(self.costs.get(variable), defaults.cost),
            lower: lower_or(self.lowers.get(variable), defaults.lower),
            upper: upper_or(self.uppers.get(variable), defaults.upper),
        }
    }

    /// The last row that gave a bound of a variable.
    pub fn bound_row(&self, variable: usize) -> Option<u32>
        ensures { result ≡ bound_row self.now variable }
    {
        later_row(self.lowers.get(variable), self.uppers.get(variable))
    }
}
