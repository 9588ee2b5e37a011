//! A second pass over the lines of sparse CONDATA, with the types of all constraints known.
ghost use Rattle.std.specs.Prelude.{◌≡◌, ◌≤◌, ◌<◌, None, Some, MatchResult, get_or, length};
ghost use Rattle.nf_cells.specs.declared.values.Cell.TheVariants.{Is};
ghost use Rattle.nf_cons.specs.Places.{IsFaultOf, first_of};
ghost use Rattle.nf_cons.specs.Terms.{term_faults, with_given};
ghost use Rattle.nf_cons_sparse.specs.Sparse.{line_term, value_faults};
ghost use Rattle.nf_cons_sparse.specs.TypedState.{number_faults_now, typed_faults_now, with_number, with_taken};

use crate::given::{GivenRow, TakenLine};
use nf_cons::{
    Constraints, DataColumn, MOST_CONSTRAINTS, PlacedFault, RowType, SideRow, Term, Value, at_role,
    may_be, side_kind,
};
use nf_frac::Amount;
use nf_program::Role;
use nf_roles::DataKind;
use std::marker::Model;

/// The constraints of the lines so far: the type of a constraint that is given none, and the number that each constraint
/// has among those that are rows of the problem.
#[derive(Drop)]
pub struct TypedLines {
    pub default: RowType,
    pub constraints: Constraints,
    pub numbers: Vec<usize>,
}

impl Model for TypedLines {
    ghost use Rattle.nf_cons_sparse.specs.TypedState.{TypedState};

    ghost Value = { TypedState };

    ghost view = { λ l. record {
      default = l.default;
      variables = l.constraints.variables;
      names = l.constraints.names;
      sides = l.constraints.sides.items;
      lists = l.constraints.terms;
      numbers = l.numbers.items;
    } };
}

impl TypedLines {
    /// Takes a line again, which counts from 1, with what all lines give its constraint.
    pub(crate) fn take(
        &mut self,
        line: TakenLine,
        given: GivenRow,
        number: u32,
    ) -> Result<(), PlacedFault>
        requires row { line.row ≤ length self.old.numbers }
        ensures { MatchResult result
            (λ _. (first_of (typed_faults_now self.old line given) ≡ None) × (self.new ≡ with_taken self.old line given number))
            (IsFaultOf (first_of (typed_faults_now self.old line given))) }
    {
        let row_type = given.row_type.unwrap_or(self.default);
        match self.number_row(line.row, row_type, given.right) {
            Ok(()) => {}
            Err(fault) => return Err(fault),
        }
        let Some(value) = line.coef else {
            return Ok(());
        };
        match line.variable {
            Some(variable) => self.take_term(line.row, row_type, variable, value, number),
            None => check_value(row_type, value),
        }
    }

    // Numbers a constraint where this line is its first.
    fn number_row(
        &mut self,
        row: usize,
        row_type: RowType,
        right: Option<Amount>,
    ) -> Result<(), PlacedFault>
        ensures { MatchResult result
            (λ _. (first_of (number_faults_now self.old row row_type) ≡ None) × (self.new ≡ with_number self.old row row_type right))
            (IsFaultOf (first_of (number_faults_now self.old row row_type))) }
    {
        if row < self.numbers.len() {
            return Ok(());
        }
        let number = self.constraints.sides.len();
        let Ok(()) = self.numbers.push(number) else {
            return Err(at_role(Role::Row, DataKind::NoMemory));
        };
        let Some(kind) = side_kind(row_type) else {
            return Ok(());
        };
        if number >= MOST_CONSTRAINTS {
            return Err(at_role(Role::Row, DataKind::LimitPassed));
        }
        let side = SideRow {
            name: row,
            kind,
            right: right.unwrap_or(Amount { thousandths: 0 }),
        };
        match self.constraints.sides.push(side) {
            Ok(()) => Ok(()),
            Err(_) => Err(at_role(Role::Row, DataKind::NoMemory)),
        }
    }

    // Takes the value that a line gives a variable.
    fn take_term(
        &mut self,
        row: usize,
        row_type: RowType,
        variable: usize,
        value: Value,
        number: u32,
    ) -> Result<(), PlacedFault>
        requires row { row < length self.old.numbers }
        ensures { MatchResult result
            (λ _. (first_of (term_faults row_type (line_term self.old.variables.arcs.count variable value) self.old.lists) ≡ None)
            × (self.new ≡ record self.old {
              lists = with_given self.old.lists
                  (record { row_type = row_type; term = line_term self.old.variables.arcs.count variable value; constraint = get_or self.old.numbers row 0; row = number });
            }))
            (IsFaultOf (first_of (term_faults row_type (line_term self.old.variables.arcs.count variable value) self.old.lists))) }
    {
        let term = Term {
            variable,
            is_arc: self.constraints.variables.is_arc(variable),
            value,
            named_at: DataColumn::OfRole(Role::Column),
            given_at: DataColumn::OfRole(Role::Coef),
        };
        let constraint = self.numbers[row];
        self.constraints
            .terms
            .take(row_type, term, constraint, number)
    }
}

// A value without a variable must be one that a row of this type may give.
fn check_value(row_type: RowType, value: Value) -> Result<(), PlacedFault>
    ensures { MatchResult result (λ _. first_of (value_faults row_type (Is value)) ≡ None) (IsFaultOf (first_of (value_faults row_type (Is value)))) }
{
    if may_be(row_type, value) {
        Ok(())
    } else {
        Err(at_role(Role::Coef, DataKind::Amount))
    }
}
