//! The table of the arcs.
ghost use Rattle.std.specs.Prelude.{◌≡◌, ◌<◌, ◌≤◌, ◌+◌, ◌-◌, ◌^◌, ◌++◌, ◌∷◌, [], length, IfOk, OnOk};
ghost use Rattle.std.specs.Fmt.{signed_decimal};
ghost use Rattle.nf_table.specs.Making.{empty_table, with_cell};
ghost use Rattle.nf_dimacs.specs.Tables.{arc_row, arcs_header, arcs_table, table_of};

use crate::line::Arc;
use itoa::Buffer;
use nf_table::Table;
use std::alloc::{AllocError, Global};

/// The table of arcs, a row for each, named by its number.
pub(crate) fn arcs_table(alloc: Global, arcs: &[Arc]) -> Result<Table, AllocError>
    requires few { length arcs.now < 2 ^ 31 }
    ensures { IfOk result (λ t. t ≡ arcs_table arcs.now) }
{
    let mut table = Table::new(alloc);
    push_header(&mut table)?;
    push_arcs(alloc, &mut table, arcs)?;
    Ok(table)
}

fn push_header(table: &mut Table) -> Result<(), AllocError>
    requires { table.old ≡ empty_table }
    ensures { OnOk result (table.new ≡ table_of arcs_header []) }
{
    table.push_cell("_FROM_".as_bytes())?;
    table.push_cell("_TO_".as_bytes())?;
    table.push_cell("_NAME_".as_bytes())?;
    table.push_cell("_COST_".as_bytes())?;
    table.push_cell("_CAPAC_".as_bytes())?;
    table.push_cell("_LO_".as_bytes())?;
    table.end_row()
}

fn push_arcs(alloc: Global, table: &mut Table, arcs: &[Arc]) -> Result<(), AllocError>
    requires begun { table.old ≡ table_of arcs_header [] }
    requires few { length arcs.now < 2 ^ 31 }
    ensures { OnOk result (table.new ≡ arcs_table arcs.now) }
{
    for (i, arc) in arcs.iter().enumerate() {
        push_arc(alloc, table, i as u32 + 1, arc)?;
    }
    Ok(())
}

fn push_arc(alloc: Global, table: &mut Table, number: u32, arc: &Arc) -> Result<(), AllocError>
    requires begun { table.old ≡ table_of arcs_header table.old.rows }
    requires room { length table.old.rows < 2 ^ 31 }
    ensures { OnOk result (table.new ≡ table_of arcs_header (table.old.rows ++ arc_row number arc.now ∷ [])) }
{
    let name = format!(in alloc; "x{number}")?;
    push_number(table, arc.tail)?;
    push_number(table, arc.head)?;
    table.push_cell(name.as_str().as_bytes())?;
    push_number(table, arc.cost)?;
    push_number(table, arc.capacity)?;
    push_number(table, arc.lower)?;
    table.end_row()
}

/// Adds a number to the row in hand.
pub(crate) fn push_number(table: &mut Table, number: i32) -> Result<(), AllocError>
    requires room { length table.old.hand < 2 ^ 31 }
    ensures { OnOk result (table.new ≡ with_cell table.old (signed_decimal number)) }
{
    table.push_cell(Buffer::new().format(number).as_bytes())
}
