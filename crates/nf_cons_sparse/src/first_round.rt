//! A first pass over the lines of sparse CONDATA.
ghost use Rattle.std.specs.Prelude.{◌≡◌, ◌≤◌, ◌<◌, ◌++◌, ◌∷◌, [], if◌then◌else◌, None, MatchResult, get_or, length};
ghost use Rattle.nf_cells.specs.Names.{place_of, with_name};
ghost use Rattle.nf_cells.specs.Values.{cell_now};
ghost use Rattle.nf_roles.specs.Roles.{HasColumnsBelow};
ghost use Rattle.nf_network.specs.Arcs.{said};
ghost use Rattle.nf_cons.specs.Dense.{most_coefficients};
ghost use Rattle.nf_cons.specs.Naming.{IsSound};
ghost use Rattle.nf_cons.specs.Places.{IsFaultOf, first_of};
ghost use Rattle.nf_cons_sparse.specs.LineState.{IsKept, cell_faults, cell_number, cell_variables, column_faults, given_with, gives_pair, line_taken, pair_faults, pair_of, with_column, line_faults_now, name_faults_now, no_given, righted, typed, variable_now, variables_with, with_line};
ghost use Rattle.nf_cons_sparse.specs.Sparse.{as_right, is_right, line_now, right_faults, row_faults, sparse_line, type_faults, value_if};

use crate::given::{GivenRow, TakenLine};
use crate::pairs::Pairs;
use crate::sparse_line::{Line, read_line};
use nf_cells::{Cell, Names};
use nf_cons::{
    DataColumn, Home, MOST_COEFFICIENTS, PlacedFault, RowType, Value, Variables, at_role,
    is_same_type,
};
use nf_frac::Amount;
use nf_program::Role;
use nf_roles::{DataKind, Roles};
use nf_table::Table;
use std::alloc::Global;
use std::marker::Model;

/// The lines so far: the type of a constraint that is given none, the constraints by name, each with what it is given, the variables, which variables have coefficients
/// in which constraint, and each line by numbers.
#[derive(Drop)]
pub struct Lines {
    pub default: RowType,
    pub names: Names,
    pub given: Vec<GivenRow>,
    pub variables: Variables,
    pub pairs: Pairs,
    pub taken: Vec<TakenLine>,
}

impl Model for Lines {
    ghost use Rattle.nf_cons_sparse.specs.LineState.{LineState};

    ghost Value = { LineState };

    ghost view = { λ l. record { default = l.default; names = l.names; given = l.given.items; variables = l.variables; pairs = l.pairs; taken = l.taken.items } };
}

// Whether a line has `_RHS_` in the place of a variable.
fn is_right(line: &Line<'_>) -> bool
    ensures { result ≡ is_right (line_now line.now) }
{
    match line.column {
        Cell::Is(name) => name == b"_RHS_".as_slice(),
        Cell::Missing | Cell::Bad => false,
    }
}

// The value of a cell that is not bad.
fn value_in(cell: Cell<Value>) -> Option<Value>
    ensures { result ≡ value_if cell }
{
    match cell {
        Cell::Is(value) => Some(value),
        Cell::Missing | Cell::Bad => None,
    }
}

// A coefficient as a right side: INF and -INF are none.
fn as_right(cell: Cell<Value>) -> Cell<Amount>
    ensures { result ≡ as_right cell }
{
    match cell {
        Cell::Missing => Cell::Missing,
        Cell::Is(Value::Finite(amount)) => Cell::Is(amount),
        Cell::Bad | Cell::Is(Value::NoUpper | Value::NoLower) => Cell::Bad,
    }
}

impl Lines {
    pub(crate) fn new(alloc: Global, default: RowType, variables: Variables) -> Lines
        ensures { result ≡ record { default = default; names = []; given = []; variables = variables; pairs = []; taken = [] } }
    {
        Lines {
            default,
            names: Names::new(alloc),
            given: Vec::new(alloc),
            variables,
            pairs: Pairs::new(alloc),
            taken: Vec::new(alloc),
        }
    }

    /// Takes a line, which counts from 1.
    pub(crate) fn take_line(
        &mut self,
        roles: &Roles,
        table: &Table,
        number: u32,
    ) -> Result<(), PlacedFault>
        requires columns { HasColumnsBelow roles.now (length table.now.header) }
        requires row { number ≤ length table.now.rows }
        requires kept { IsKept self.old }
        ensures { MatchResult result
            (λ _. (first_of (line_faults_now self.old number (sparse_line roles.now (get_or (table.now.header ∷ table.now.rows) number []))) ≡ None)
            × (self.new ≡ with_line self.old number (sparse_line roles.now (get_or (table.now.header ∷ table.now.rows) number []))))
            (IsFaultOf (first_of (line_faults_now self.old number (sparse_line roles.now (get_or (table.now.header ∷ table.now.rows) number []))))) }
    {
        let line = read_line(roles, table, number);
        let row = match self.name_row(line.row) {
            Ok(row) => row,
            Err(fault) => return Err(fault),
        };
        match self.give_type(row, line.row_type) {
            Ok(()) => {}
            Err(fault) => return Err(fault),
        }
        let taken = match self.take_column(row, &line, number) {
            Ok(taken) => taken,
            Err(fault) => return Err(fault),
        };
        match self.give_right(row, line.right, Role::Rhs) {
            Ok(()) => {}
            Err(fault) => return Err(fault),
        }
        match self.taken.push(taken) {
            Ok(()) => Ok(()),
            Err(_) => Err(at_role(Role::Row, DataKind::NoMemory)),
        }
    }

    // The number of the constraint that a cell names. It is added if it is new.
    fn name_row(&mut self, cell: Cell<&[u8]>) -> Result<usize, PlacedFault>
        requires each { length self.old.given ≡ length self.old.names }
        ensures { MatchResult result
            (λ i. (first_of (row_faults (cell_now cell.entry)) ≡ None) × (i ≡ place_of (said [] (cell_now cell.entry)) self.old.names) × (i < length self.new.given)
            × (self.new ≡ record self.old { names = with_name self.old.names (said [] (cell_now cell.entry)); given = given_with self.old (said [] (cell_now cell.entry)) }))
            (IsFaultOf (first_of (row_faults (cell_now cell.entry)))) }
    {
        let Cell::Is(name) = cell else {
            return Err(at_role(Role::Row, DataKind::BadName));
        };
        let Ok(number) = self.names.number(name) else {
            return Err(at_role(Role::Row, DataKind::NoMemory));
        };
        if number < self.given.len() {
            return Ok(number);
        }
        let Ok(()) = self.given.push(GivenRow {
            row_type: None,
            right: None,
        })
        else {
            return Err(at_role(Role::Row, DataKind::NoMemory));
        };
        Ok(number)
    }

    // Gives a constraint the type in a cell.
    fn give_type(&mut self, row: usize, cell: Cell<RowType>) -> Result<(), PlacedFault>
        requires row { row < length self.old.given }
        ensures { MatchResult result
            (λ _. (first_of (type_faults (get_or self.old.given row no_given).row_type cell) ≡ None) × (self.new ≡ record self.old { given = typed self.old.given row cell }))
            (IsFaultOf (first_of (type_faults (get_or self.old.given row no_given).row_type cell))) }
    {
        let row_type = match cell {
            Cell::Missing => return Ok(()),
            Cell::Bad => return Err(at_role(Role::ConKind, DataKind::UnknownKind)),
            Cell::Is(row_type) => row_type,
        };
        match self.given[row].row_type {
            Some(before) => {
                if is_same_type(before, row_type) {
                    Ok(())
                } else {
                    Err(at_role(Role::ConKind, DataKind::TwoKinds))
                }
            }
            None => {
                self.given[row].row_type = Some(row_type);
                Ok(())
            }
        }
    }

    // Gives a constraint the right side in the cell of a role.
    fn give_right(&mut self, row: usize, cell: Cell<Amount>, role: Role) -> Result<(), PlacedFault>
        requires row { row < length self.old.given }
        ensures { MatchResult result
            (λ _. (first_of (right_faults role (get_or self.old.given row no_given).right cell) ≡ None) × (self.new ≡ record self.old { given = righted self.old.given row cell }))
            (IsFaultOf (first_of (right_faults role (get_or self.old.given row no_given).right cell))) }
    {
        let right = match cell {
            Cell::Missing => return Ok(()),
            Cell::Bad => return Err(at_role(role, DataKind::Amount)),
            Cell::Is(right) => right,
        };
        match self.given[row].right {
            Some(before) => {
                if before.thousandths == right.thousandths {
                    Ok(())
                } else {
                    Err(at_role(role, DataKind::TwoRightSides))
                }
            }
            None => {
                self.given[row].right = Some(right);
                Ok(())
            }
        }
    }

    // Takes what COLUMN and COEF say.
    fn take_column(
        &mut self,
        row: usize,
        line: &Line<'_>,
        number: u32,
    ) -> Result<TakenLine, PlacedFault>
        requires row { row < length self.old.given }
        requires sound { IsSound self.old.variables }
        ensures { MatchResult result
            (λ t. (first_of (column_faults self.old row number (line_now line.now)) ≡ None) × (t ≡ line_taken self.old row (line_now line.now))
            × (self.new ≡ with_column self.old row number (line_now line.now)))
            (IsFaultOf (first_of (column_faults self.old row number (line_now line.now)))) }
    {
        if is_right(line) {
            return match self.give_right(row, as_right(line.coef), Role::Coef) {
                Ok(()) => Ok(TakenLine {
                    row,
                    variable: None,
                    coef: None,
                }),
                Err(fault) => Err(fault),
            };
        }
        let variable = match self.name_variable(line.column, number) {
            Ok(variable) => variable,
            Err(fault) => return Err(fault),
        };
        if matches!(line.coef, Cell::Bad) {
            return Err(at_role(Role::Coef, DataKind::Amount));
        }
        let taken = TakenLine {
            row,
            variable,
            coef: value_in(line.coef),
        };
        match self.add_pair(&taken) {
            Ok(()) => Ok(taken),
            Err(fault) => Err(fault),
        }
    }

    // The number of the variable in a cell, where there is one.
    fn name_variable(
        &mut self,
        cell: Cell<&[u8]>,
        number: u32,
    ) -> Result<Option<usize>, PlacedFault>
        requires sound { IsSound self.old.variables }
        ensures { MatchResult result
            (λ v. (first_of (cell_faults self.old.variables number (cell_now cell.entry)) ≡ None) × (v ≡ cell_number self.old.variables (cell_now cell.entry))
            × (self.new ≡ record self.old { variables = cell_variables self.old.variables number (cell_now cell.entry) }))
            (IsFaultOf (first_of (cell_faults self.old.variables number (cell_now cell.entry)))) }
    {
        let Cell::Is(name) = cell else {
            return Ok(None);
        };
        let home = Home {
            row: number,
            place: DataColumn::OfRole(Role::Column),
        };
        match self.variables.number(name, false, home) {
            Ok(variable) => Ok(Some(variable)),
            Err(fault) => Err(fault),
        }
    }

    // Notes that a constraint has a coefficient of a variable, where the line gives one.
    fn add_pair(&mut self, taken: &TakenLine) -> Result<(), PlacedFault>
        ensures { MatchResult result
            (λ _. (first_of (pair_faults self.old.pairs taken.now) ≡ None)
            × (self.new ≡ record self.old { pairs = if gives_pair taken.now then self.old.pairs ++ pair_of taken.now ∷ [] else self.old.pairs }))
            (IsFaultOf (first_of (pair_faults self.old.pairs taken.now))) }
    {
        let (Some(variable), Some(_)) = (taken.variable, taken.coef) else {
            return Ok(());
        };
        match self.pairs.add(taken.row, variable) {
            Ok(true) => {}
            Ok(false) => return Err(at_role(Role::Column, DataKind::RepeatedCoefficient)),
            Err(_) => return Err(at_role(Role::Column, DataKind::NoMemory)),
        }
        if self.pairs.len() > MOST_COEFFICIENTS {
            return Err(at_role(Role::Coef, DataKind::LimitPassed));
        }
        Ok(())
    }
}
