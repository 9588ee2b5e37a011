//! The header of dense CONDATA: its variables.
ghost use Rattle.std.specs.Prelude.{◌≡◌, ◌≤◌, ◌++◌, ◌∷◌, [], None, MatchResult, length};
ghost use Rattle.nf_cells.specs.Cells.{value_of};
ghost use Rattle.nf_roles.specs.Roles.{HasColumnsBelow};
ghost use Rattle.nf_cons.specs.Dense.{first_header_fault, mentions};
ghost use Rattle.nf_cons.specs.Naming.{IsSound, number_now, with_mention};
ghost use Rattle.nf_cons.specs.Passing.{IsHeaderRead, column_faults_now};
ghost use Rattle.nf_cons.specs.Places.{IsFaultOf, IsRowFaultOf, first_of};
ghost use Rattle.nf_cons.specs.Variables.{Mention, arcs_of};

use crate::arcs::arc_names;
use crate::fault::{at, in_row, no_memory};
use crate::places::{DataColumn, Home, PlacedFault, RowFault};
use crate::variables::Variables;
use nf_cells::{Names, is_missing, trimmed};
use nf_labels::Labels;
use nf_roles::{DataKind, Roles};
use nf_table::Table;
use std::alloc::Global;

/// The variables of a header: the number of each column's variable, from the left.
#[derive(Drop)]
pub(crate) struct Header {
    pub(crate) variables: Variables,
    pub(crate) numbers: Vec<usize>,
}

/// Reads the variables of a header after the arcs of these labels, or finds its first fault.
pub(crate) fn read_header(
    alloc: Global,
    labels: &Labels,
    roles: &Roles,
    table: &Table,
) -> Result<Header, RowFault>
    requires arcs { labels.now.own_arcs ≤ length labels.now.columns }
    requires columns { HasColumnsBelow roles.now (length table.now.header) }
    ensures { MatchResult result
        (λ h. (first_header_fault (arcs_of labels.now) (mentions roles.now table.now.header) ≡ None)
        × IsHeaderRead (arcs_of labels.now) (mentions roles.now table.now.header) h.variables h.numbers.items)
        (IsRowFaultOf (first_header_fault (arcs_of labels.now) (mentions roles.now table.now.header))) }
{
    let Ok(arcs) = arc_names(alloc, labels) else {
        return Err(no_memory());
    };
    let mut header = Header {
        variables: Variables::new(alloc, arcs),
        numbers: Vec::new(alloc),
    };
    let mut seen = Names::new(alloc);
    for i in 0..roles.variables().len() {
        let column = roles.variables()[i];
        match take_column(&mut header, &mut seen, table.cell(0, column), column) {
            Ok(()) => {}
            Err(fault) => return Err(in_row(0, fault)),
        }
    }
    Ok(header)
}

// Takes a column, where the earlier ones have the variables `seen`.
fn take_column(
    header: &mut Header,
    seen: &mut Names,
    cell: &[u8],
    column: u32,
) -> Result<(), PlacedFault>
    requires sound { IsSound header.old.variables }
    ensures { let m : Mention = record { variable = value_of cell.now; home = record { row = 0; place = DataColumn.Column column } } in
        MatchResult result
        (λ _. (first_of (column_faults_now header.old.variables seen.old m) ≡ None)
        × (header.new.variables ≡ with_mention header.old.variables m) × (seen.new ≡ seen.old ++ m.variable ∷ [])
        × (header.new.numbers.items ≡ header.old.numbers.items ++ number_now header.old.variables m.variable ∷ []))
        (IsFaultOf (first_of (column_faults_now header.old.variables seen.old m))) }
{
    let place = DataColumn::Column(column);
    let name = trimmed(cell);
    if is_missing(name) {
        return Err(at(place, DataKind::BadName));
    }
    let before = seen.len();
    let Ok(taken) = seen.number(name) else {
        return Err(at(place, DataKind::NoMemory));
    };
    let home = Home { row: 0, place };
    let number = match header.variables.number(name, taken < before, home) {
        Ok(number) => number,
        Err(fault) => return Err(fault),
    };
    match header.numbers.push(number) {
        Ok(()) => Ok(()),
        Err(_) => Err(at(place, DataKind::NoMemory)),
    }
}
