//! The rows of dense CONDATA.
ghost use Rattle.std.specs.Prelude.{IfOk, false, codes, decimal, ◌≡◌, ◌≤◌, ◌<◌, ◌+◌, ◌^◌, ◌++◌, ◌∷◌, [], None, MatchResult, get_or, length, pos};
ghost use Rattle.nf_cells.specs.Values.{cell_now};
ghost use Rattle.nf_roles.specs.First.{first_below};
ghost use Rattle.nf_roles.specs.Roles.{HasColumnsBelow};
ghost use Rattle.nf_network.specs.Arcs.{said};
ghost use Rattle.nf_cons.specs.Dense.{cell_fault_at, cell_faults, given_by, givens, most_coefficients, name_faults, right_faults, row_fault_at, row_name, side_if, sides, type_at, type_faults};
ghost use Rattle.nf_cons.specs.Passing.{IsAfterRows, dense_now, state_with};
ghost use Rattle.nf_network.specs.Faults.{is_bad};
ghost use Rattle.nf_cons.specs.Places.{IsFaultOf, fault_if, first_of};
ghost use Rattle.nf_cons.specs.Terms.{lists_of};
ghost use Rattle.nf_cons.specs.Types.{side_kind};

use crate::constraints::Constraints;
use crate::fault::{at, at_role};
use crate::places::{DataColumn, PlacedFault};
use crate::row_type::{RowType, side_kind, type_cell};
use crate::taken::{MOST_COEFFICIENTS, MOST_CONSTRAINTS, SideRow, Term};
use crate::value::{Value, value_cell};
use nf_cells::{Cell, amount_cell, name_cell};
use nf_frac::Amount;
use nf_program::Role;
use nf_roles::{DataKind, Roles};
use nf_table::Table;
use std::alloc::{AllocError, Global};
use std::marker::Model;

/// Dense CONDATA as its rows are read: the variables of its columns, the type of a row that gives none, the constraints so
/// far, and how many coefficients they gave.
#[derive(Drop)]
pub(crate) struct DenseRows {
    pub(crate) numbers: Vec<usize>,
    pub(crate) default: RowType,
    pub(crate) constraints: Constraints,
    pub(crate) count: usize,
}

impl Model for DenseRows {
    ghost use Rattle.nf_cons.specs.Passing.{DenseState};

    ghost Value = { DenseState };

    ghost view = { λ r. record {
      numbers = r.numbers.items;
      default = r.default;
      variables = r.constraints.variables;
      names = r.constraints.names;
      sides = r.constraints.sides.items;
      lists = r.constraints.terms;
      count = r.count;
    } };
}

// The name of a row: without one it is `_OBSn_`, where n is its number.
fn read_name(alloc: Global, cell: Cell<&[u8]>, row: u32) -> Result<Vec<u8>, PlacedFault>
    ensures { MatchResult result
        (λ v. (is_bad (cell_now cell.entry) ≡ false) × (v.items ≡ row_name row (cell_now cell.entry)))
        (IsFaultOf (fault_if (is_bad (cell_now cell.entry)) (DataColumn.OfRole Role.Row) DataKind.BadName)) }
{
    let name = match cell {
        Cell::Bad => return Err(at_role(Role::Row, DataKind::BadName)),
        Cell::Is(name) => Vec::from_slice(alloc, name),
        Cell::Missing => row_text(alloc, row),
    };
    match name {
        Ok(name) => Ok(name),
        Err(_) => Err(at_role(Role::Row, DataKind::NoMemory)),
    }
}

// The name of a row without one.
fn row_text(alloc: Global, row: u32) -> Result<Vec<u8>, AllocError>
    ensures { IfOk result (λ v. v.items ≡ codes "_OBS" ++ (decimal row ++ codes "_")) }
{
    let text = format!(in alloc; "_OBS{row}_")?;
    Vec::from_slice(alloc, text.as_bytes())
}

// The right side in a cell; that of a row of data is not used.
fn right_side(cell: Cell<Amount>) -> Result<Amount, PlacedFault>
    ensures { MatchResult result
        (λ a. (first_of (right_faults cell) ≡ None) × (a ≡ said (record { thousandths = pos 0 }) cell))
        (IsFaultOf (first_of (right_faults cell))) }
{
    match cell {
        Cell::Missing => Ok(Amount { thousandths: 0 }),
        Cell::Bad => Err(at_role(Role::Rhs, DataKind::Amount)),
        Cell::Is(right) => Ok(right),
    }
}

impl DenseRows {
    /// Takes row k, from 0.
    pub(crate) fn take_row(
        &mut self,
        alloc: Global,
        roles: &Roles,
        table: &Table,
        k: u32,
    ) -> Result<(), PlacedFault>
        requires columns { HasColumnsBelow roles.now (length table.now.header) }
        requires row { k < length table.now.rows }
        requires fits { k + 1 < 2 ^ 32 }
        requires each { length self.old.numbers ≡ length roles.now.variables }
        requires after { IsAfterRows (dense_now roles.now table.now self.old) k self.old }
        ensures { MatchResult result
            (λ _. (row_fault_at (dense_now roles.now table.now self.old) k ≡ None)
            × IsAfterRows (dense_now roles.now table.now self.old) (k + 1) self.new
            × (self.new ≡ record self.old { names = self.new.names; sides = self.new.sides; lists = self.new.lists; count = self.new.count }))
            (IsFaultOf (row_fault_at (dense_now roles.now table.now self.old) k)) }
    {
        let row = k + 1;
        let name = match self.name_row(alloc, name_cell(roles.cell(table, row, Role::Row)), row) {
            Ok(name) => name,
            Err(fault) => return Err(fault),
        };
        let row_type = match self.type_row(type_cell(roles.cell(table, row, Role::ConKind))) {
            Ok(row_type) => row_type,
            Err(fault) => return Err(fault),
        };
        let right = match right_side(amount_cell(roles.cell(table, row, Role::Rhs))) {
            Ok(right) => right,
            Err(fault) => return Err(fault),
        };
        match self.take_cells(roles, table, k, row_type) {
            Ok(()) => {}
            Err(fault) => return Err(fault),
        }
        match self.add_side(name, row_type, right) {
            Ok(()) => Ok(()),
            Err(fault) => Err(fault),
        }
    }

    // The number of the name of a row, which must be new.
    fn name_row(&mut self, alloc: Global, cell: Cell<&[u8]>, row: u32) -> Result<usize, PlacedFault>
        ensures { MatchResult result
            (λ k. (first_of (name_faults self.old.names row (cell_now cell.entry)) ≡ None) × (k ≡ length self.old.names)
            × (self.new ≡ record self.old { names = self.old.names ++ row_name row (cell_now cell.entry) ∷ [] }))
            (IsFaultOf (first_of (name_faults self.old.names row (cell_now cell.entry)))) }
    {
        let name = match read_name(alloc, cell, row) {
            Ok(name) => name,
            Err(fault) => return Err(fault),
        };
        let before = self.constraints.names.len();
        let Ok(number) = self.constraints.names.number(&name) else {
            return Err(at_role(Role::Row, DataKind::NoMemory));
        };
        if number < before {
            return Err(at_role(Role::Row, DataKind::RepeatedRow));
        }
        Ok(number)
    }

    // The type of a row: there may be no more constraints than there may be.
    fn type_row(&self, cell: Cell<RowType>) -> Result<RowType, PlacedFault>
        ensures { MatchResult result
            (λ t. (first_of (type_faults self.now.default (length self.now.sides) cell) ≡ None) × (t ≡ said self.now.default cell))
            (IsFaultOf (first_of (type_faults self.now.default (length self.now.sides) cell))) }
    {
        let row_type = match cell {
            Cell::Missing => self.default,
            Cell::Bad => return Err(at_role(Role::ConKind, DataKind::UnknownKind)),
            Cell::Is(row_type) => row_type,
        };
        if side_kind(row_type).is_some() && self.constraints.sides.len() >= MOST_CONSTRAINTS {
            return Err(at_role(Role::Row, DataKind::LimitPassed));
        }
        Ok(row_type)
    }

    // Adds a constraint, where the row is one.
    fn add_side(&mut self, name: usize, row_type: RowType, right: Amount) -> Result<(), PlacedFault>
        ensures { MatchResult result
            (λ _. self.new ≡ record self.old { sides = self.old.sides ++ side_if name right (side_kind row_type) })
            (IsFaultOf None) }
    {
        let Some(kind) = side_kind(row_type) else {
            return Ok(());
        };
        match self.constraints.sides.push(SideRow { name, kind, right }) {
            Ok(()) => Ok(()),
            Err(_) => Err(at_role(Role::Row, DataKind::NoMemory)),
        }
    }

    // Takes the cells of row k, from the left.
    fn take_cells(
        &mut self,
        roles: &Roles,
        table: &Table,
        k: u32,
        row_type: RowType,
    ) -> Result<(), PlacedFault>
        requires columns { HasColumnsBelow roles.now (length table.now.header) }
        requires row { k < length table.now.rows }
        requires fits { k + 1 < 2 ^ 32 }
        requires each { length self.old.numbers ≡ length roles.now.variables }
        requires row_type { row_type ≡ type_at (dense_now roles.now table.now self.old) k }
        requires sides { self.old.sides ≡ sides (dense_now roles.now table.now self.old) k }
        requires lists { self.old.lists ≡ lists_of (givens (dense_now roles.now table.now self.old) k) }
        requires count { self.old.count ≡ length (givens (dense_now roles.now table.now self.old) k) }
        requires few { self.old.count ≤ most_coefficients }
        ensures { MatchResult result
            (λ _. (first_below (length self.old.numbers) (cell_fault_at (dense_now roles.now table.now self.old) k) ≡ None)
            × (self.new ≡ record self.old {
              lists = lists_of (givens (dense_now roles.now table.now self.old) (k + 1));
              count = length (givens (dense_now roles.now table.now self.old) (k + 1));
            })
            × (self.new.count ≤ most_coefficients))
            (IsFaultOf (first_below (length self.old.numbers) (cell_fault_at (dense_now roles.now table.now self.old) k))) }
    {
        for i in 0..self.numbers.len() {
            let column = roles.variables()[i];
            let cell = value_cell(table.cell(k + 1, column));
            match self.take_cell(i, column, cell, row_type, k + 1) {
                Ok(()) => {}
                Err(fault) => return Err(fault),
            }
        }
        Ok(())
    }

    // Takes the cell of a variable.
    fn take_cell(
        &mut self,
        i: usize,
        column: u32,
        cell: Cell<Value>,
        row_type: RowType,
        row: u32,
    ) -> Result<(), PlacedFault>
        requires number { i < length self.old.numbers }
        requires count { self.old.count ≤ most_coefficients }
        ensures { let v = get_or self.old.numbers i 0 in
            MatchResult result
            (λ _. (first_of (cell_faults row_type self.old.variables.arcs.count column v self.old.lists self.old.count cell) ≡ None)
            × (self.new ≡ state_with self.old (given_by row_type self.old.variables.arcs.count column v (length self.old.sides) row cell)))
            (IsFaultOf (first_of (cell_faults row_type self.old.variables.arcs.count column v self.old.lists self.old.count cell))) }
    {
        let place = DataColumn::Column(column);
        let value = match cell {
            Cell::Missing => return Ok(()),
            Cell::Bad => return Err(at(place, DataKind::Amount)),
            Cell::Is(value) => value,
        };
        let variable = self.numbers[i];
        let term = Term {
            variable,
            is_arc: self.constraints.variables.is_arc(variable),
            value,
            named_at: place,
            given_at: place,
        };
        let constraint = self.constraints.sides.len();
        match self.constraints.terms.take(row_type, term, constraint, row) {
            Ok(()) => {}
            Err(fault) => return Err(fault),
        }
        if self.count >= MOST_COEFFICIENTS {
            return Err(at(place, DataKind::LimitPassed));
        }
        self.count += 1;
        Ok(())
    }
}
