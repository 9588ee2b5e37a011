//! A pass over the rows of ARCDATA.
ghost use Rattle.std.specs.Prelude.{◌≡◌, ◌≤◌, ◌<◌, ◌+◌, ◌^◌, ◌⊎◌, ◌++◌, ◌∷◌, [], true, false, None, Some, length, take, get_or, IfErr, IfOk, OnOk, MatchResult};
ghost use Rattle.nf_roles.specs.Roles.{HasColumnsBelow};
ghost use Rattle.nf_cells.specs.Names.{is_once};
ghost use Rattle.nf_cells.specs.Values.{cell_now};
ghost use Rattle.nf_roles.specs.First.{first_of, fault_if, IsFaultOf};
ghost use Rattle.nf_network.specs.Faults.{is_bad, arc_fault_at, first_arc_fault};
ghost use Rattle.nf_network.specs.Given.{IsEven};
ghost use Rattle.nf_network.specs.Arcs.{arc_name, head_of, said as said_of, tail_of};
ghost use Rattle.nf_network.specs.Pass.{EndsNamed, IsAfter, ends_faults, ends_given, give_faults};
ghost use Rattle.nf_network.specs.Repeats.{AreClearBut, IsStopped, IsStoppedIn, repeat_fault};
ghost use Rattle.nf_network.specs.Rows.{arc_rows};
ghost use Rattle.nf_network.specs.Rows.{arc_row_now};

use crate::figures::read_figures;
use crate::keys::ArcKeys;
use crate::nodes::{Nodes, no_memory};
use crate::repeats::first_repeat;
use crate::row_cells::read_arc_row;
use crate::rows::{ArcRow, Defaults, Figures};
use nf_cells::{Cell, Name};
use nf_program::Role;
use nf_roles::{CellFault, DataKind, Roles};
use nf_table::Table;
use std::alloc::{AllocError, Global};

const MOST_ARCS: usize = 200_000;

/// A fault and its row, which counts from 1.
#[derive(Clone, Copy, Debug)]
pub struct RowFault {
    pub row: u32,
    pub fault: CellFault,
}

/// The arcs and nodes of the rows so far.
#[derive(Drop)]
pub struct Arcs {
    pub nodes: Nodes,
    pub keys: ArcKeys,
    pub figures: Vec<Figures>,
}

// The numbers of both ends. Arcs mostly stand by their tails, so the tail is tried with that of the arc above.
fn name_ends(
    nodes: &mut Nodes,
    row: &ArcRow<'_>,
    above: Option<usize>,
) -> Result<(usize, usize), CellFault>
    requires even { IsEven nodes.old }
    requires once { is_once nodes.old.names ≡ true }
    ensures { MatchResult result (λ e. EndsNamed nodes.old (arc_row_now row.now) nodes.new e.0 e.1)
        (IsFaultOf (first_of (ends_faults nodes.old.names (arc_row_now row.now)))) }
{
    let tail = match nodes.name(Role::TailNode, row.tail, above) {
        Ok(tail) => tail,
        Err(fault) => return Err(fault),
    };
    match nodes.name(Role::HeadNode, row.head, None) {
        Ok(head) => Ok((tail, head)),
        Err(fault) => Err(fault),
    }
}

// The name of an arc whose ends and name are not bad.
pub(crate) fn name_of_arc(alloc: Global, tail: &[u8], head: &[u8]) -> Result<Name, AllocError>
    ensures { IfOk result (λ v. v ≡ tail.now ++ 95 ∷ head.now) }
{
    let mut name = Name::from_slice(alloc, tail)?;
    name.extend_from_slice(b"_")?;
    name.extend_from_slice(head)?;
    Ok(name)
}

// Gives both ends what the row says.
fn give_ends(nodes: &mut Nodes, tail: usize, head: usize, row: &ArcRow<'_>) -> Result<(), CellFault>
    requires even { IsEven nodes.old }
    requires tail { tail < length nodes.old.names }
    requires head { head < length nodes.old.names }
    ensures { MatchResult result (λ _. (first_of (give_faults nodes.old tail head (arc_row_now row.now)) ≡ None) × (nodes.new ≡ ends_given nodes.old tail head (arc_row_now row.now)))
        (λ f. first_of (give_faults nodes.old tail head (arc_row_now row.now)) ≡ Some f) }
{
    match nodes.give(tail, Role::Supply, row.supply) {
        Ok(()) => {}
        Err(fault) => return Err(fault),
    }
    nodes.give(head, Role::Demand, row.demand)
}

// The bytes of a name, or none.
fn said<'a>(cell: Cell<&'a [u8]>) -> &'a [u8]
    ensures { result.now ≡ said_of [] (cell_now cell.entry) }
{
    match cell {
        Cell::Is(name) => name,
        Cell::Missing | Cell::Bad => &[],
    }
}

// Adds an arc that has no name of its own.
fn push_unnamed(
    alloc: Global,
    keys: &mut ArcKeys,
    tail: usize,
    head: usize,
    row: &ArcRow<'_>,
) -> Result<(), AllocError>
    requires room { length keys.old < 2 ^ 30 }
    ensures added { OnOk result (keys.new ≡ keys.old ++ record { tail = tail; head = head; name = tail_of (arc_row_now row.now) ++ 95 ∷ head_of (arc_row_now row.now) } ∷ []) }
    ensures kept { IfErr result (λ _. keys.new ≡ keys.old) }
{
    let name = name_of_arc(alloc, said(row.tail), said(row.head))?;
    keys.push(tail, head, name.as_slice())
}

// Adds the arc of a row whose ends have these numbers.
fn add_key(
    alloc: Global,
    keys: &mut ArcKeys,
    tail: usize,
    head: usize,
    row: &ArcRow<'_>,
) -> Result<(), CellFault>
    requires room { length keys.old < 2 ^ 30 }
    ensures { MatchResult result
        (λ _. (is_bad (arc_row_now row.now).name ≡ false) × (keys.new ≡ keys.old ++ record { tail = tail; head = head; name = arc_name (arc_row_now row.now) } ∷ []))
        (λ f. IsFaultOf (fault_if (is_bad (arc_row_now row.now).name) Role.ArcName DataKind.BadName) f × (keys.new ≡ keys.old)) }
{
    let added = match row.name {
        Cell::Missing => push_unnamed(alloc, keys, tail, head, row),
        Cell::Is(name) => keys.push(tail, head, name),
        Cell::Bad => {
            return Err(CellFault {
                role: Role::ArcName,
                kind: DataKind::BadName,
            });
        }
    };
    match added {
        Ok(()) => Ok(()),
        Err(_) => Err(no_memory(Role::ArcName)),
    }
}

impl Arcs {
    // No arcs and no nodes, with room for so many arcs and for so many cells of ID columns.
    fn with_room(alloc: Global, arcs: usize, ids: usize) -> Result<Arcs, AllocError>
        ensures { IfOk result (λ a. (a.nodes ≡ record { names = []; given = [] }) × (a.keys ≡ []) × (a.figures.items ≡ [])) }
    {
        let keys = ArcKeys::with_room(alloc, arcs, ids)?;
        let figures = Vec::with_capacity(alloc, arcs)?;
        Ok(Arcs {
            nodes: Nodes::new(alloc),
            keys,
            figures,
        })
    }

    // Takes the row behind the first `i` ones. Whether its arc repeats another is left open.
    fn take_row(
        &mut self,
        alloc: Global,
        roles: &Roles,
        table: &Table,
        defaults: &Defaults,
        i: u32,
    ) -> Result<(), CellFault>
        requires below { HasColumnsBelow roles.now (length table.now.header) }
        requires row { i < length table.now.rows }
        requires fits { i + 1 < 2 ^ 32 }
        requires after { IsAfter defaults.now (take i (arc_rows roles.now table.now.rows)) self.old.nodes self.old.keys self.old.figures.items }
        ensures { MatchResult result
            (λ _. (arc_fault_at defaults.now (arc_rows roles.now table.now.rows) i ≡ repeat_fault (arc_rows roles.now table.now.rows) i)
            × IsAfter defaults.now (take (i + 1) (arc_rows roles.now table.now.rows)) self.new.nodes self.new.keys self.new.figures.items)
            (λ f. IsStopped defaults.now (arc_rows roles.now table.now.rows) i f self.new.keys) }
    {
        let row = read_arc_row(roles, table, i + 1);
        if self.keys.len() >= MOST_ARCS {
            return Err(CellFault {
                role: Role::TailNode,
                kind: DataKind::LimitPassed,
            });
        }
        let (tail, head) = match name_ends(&mut self.nodes, &row, self.keys.last_tail()) {
            Ok(ends) => ends,
            Err(fault) => return Err(fault),
        };
        match add_key(alloc, &mut self.keys, tail, head, &row) {
            Ok(()) => {}
            Err(fault) => return Err(fault),
        }
        let figures = match read_figures(&row, defaults) {
            Ok(figures) => figures,
            Err(fault) => return Err(fault),
        };
        match give_ends(&mut self.nodes, tail, head, &row) {
            Ok(()) => {}
            Err(fault) => return Err(fault),
        }
        match self.figures.push(figures) {
            Ok(()) => Ok(()),
            Err(_) => Err(no_memory(Role::TailNode)),
        }
    }

    // Takes all rows, up to the first fault. Whether arcs repeat others is left open.
    fn take_rows(
        &mut self,
        alloc: Global,
        roles: &Roles,
        table: &Table,
        defaults: &Defaults,
    ) -> Result<(), RowFault>
        requires below { HasColumnsBelow roles.now (length table.now.header) }
        requires empty { IsAfter defaults.now [] self.old.nodes self.old.keys self.old.figures.items }
        ensures { MatchResult result
            (λ _. AreClearBut defaults.now (arc_rows roles.now table.now.rows) (length (arc_rows roles.now table.now.rows))
            × IsAfter defaults.now (arc_rows roles.now table.now.rows) self.new.nodes self.new.keys self.new.figures.items)
            (λ e. IsStoppedIn defaults.now (arc_rows roles.now table.now.rows) e.row e.fault self.new.keys) }
    {
        for i in 0..table.rows() {
            match self.take_row(alloc, roles, table, defaults, i) {
                Ok(()) => {}
                Err(fault) => return Err(RowFault { row: i + 1, fault }),
            }
        }
        Ok(())
    }

    // Takes all rows, or tells their first fault. Repeated arcs are looked for at the end, or where another fault ends the
    // pass.
    fn take_all(
        &mut self,
        alloc: Global,
        roles: &Roles,
        table: &Table,
        defaults: &Defaults,
    ) -> Result<(), RowFault>
        requires below { HasColumnsBelow roles.now (length table.now.header) }
        requires few { length table.now.rows < 2 ^ 32 }
        requires empty { IsAfter defaults.now [] self.old.nodes self.old.keys self.old.figures.items }
        ensures { MatchResult result
            (λ _. (first_arc_fault defaults.now (arc_rows roles.now table.now.rows) ≡ None)
            × IsAfter defaults.now (arc_rows roles.now table.now.rows) self.new.nodes self.new.keys self.new.figures.items)
            (λ e. (e.fault.kind ≡ DataKind.NoMemory) ⊎ (first_arc_fault defaults.now (arc_rows roles.now table.now.rows) ≡ Some (e.row, e.fault))) }
    {
        let taken = self.take_rows(alloc, roles, table, defaults);
        let Ok(repeat) = first_repeat(alloc, &self.keys) else {
            return Err(RowFault {
                row: 1,
                fault: no_memory(Role::ArcName),
            });
        };
        match (repeat, taken) {
            (Some(j), _) => Err(RowFault {
                row: j as u32 + 1,
                fault: CellFault {
                    role: Role::ArcName,
                    kind: DataKind::RepeatedArc,
                },
            }),
            (None, Err(fault)) => Err(fault),
            (None, Ok(())) => Ok(()),
        }
    }
}

/// The arcs of ARCDATA, with the nodes that they name and what these are given; or the first fault.
///
/// Repeated arcs are looked for at the end, or where another fault ends the pass; one in an earlier row, or in this row
/// before its figures, is the first fault all the same.
pub fn read_arcs(
    alloc: Global,
    roles: &Roles,
    table: &Table,
    defaults: &Defaults,
) -> Result<Arcs, RowFault>
    requires { HasColumnsBelow roles.now (length table.now.header) }
    ensures { MatchResult result
        (λ a. (first_arc_fault defaults.now (arc_rows roles.now table.now.rows) ≡ None)
        × IsAfter defaults.now (arc_rows roles.now table.now.rows) a.nodes a.keys a.figures.items)
        (λ e. (e.fault.kind ≡ DataKind.NoMemory) ⊎ (first_arc_fault defaults.now (arc_rows roles.now table.now.rows) ≡ Some (e.row, e.fault))) }
{
    let rows = (table.rows() as usize).min(MOST_ARCS);
    let ids = rows.saturating_mul(roles.ids().len());
    let Ok(mut arcs) = Arcs::with_room(alloc, rows, ids) else {
        return Err(RowFault {
            row: 1,
            fault: no_memory(Role::TailNode),
        });
    };
    match arcs.take_all(alloc, roles, table, defaults) {
        Ok(()) => Ok(arcs),
        Err(fault) => Err(fault),
    }
}
