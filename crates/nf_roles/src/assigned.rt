//! Gives the columns of a table their roles.
ghost use Rattle.std.specs.Prelude.{◌≡◌, ◌⊎◌, ◌<◌, ◌^◌, ◌++◌, ◌∷◌, [], Err, IfOk, OnOk, IfSome, if◌then◌else◌, length, get_or};
ghost use Rattle.std.specs.List.{find, list_any};
ghost use Rattle.nf_roles.specs.First.{all_with, first_with};
ghost use Rattle.nf_roles.specs.Roles.{HasColumnsBelow};
ghost use Rattle.nf_roles.specs.Sets.{needed, same_role};
ghost use Rattle.nf_roles.specs.Assigned.{columns_due, has_two, header_of, is_lacked, is_listed, is_missing, is_second, has_column, has_statement, is_variable, may_lack, reserved_column, role_column, roles_by, roles_due};
ghost use Rattle.nf_roles.specs.Lookups.{cells_or_none};

use crate::columns::{SetKind, is_same};
use crate::fault::RoleFault;
use crate::found::TableColumns;
use crate::named::{NamedColumn, NamedColumns, has_statement};
use crate::reserved::{is_reserved, is_reserved_for};
use crate::roles::Roles;
use nf_io::Text;
use nf_program::{Program, Role};
use nf_table::Table;
use smallvec::SmallVec;
use std::alloc::{AllocError, Global};

/// The roles that a program's role statements give the columns of a table.
///
/// A role has the column that its statement names, without regard to ASCII case, else the first with a reserved name of
/// it. In dense CONDATA the statements COLUMN and COEF are not looked at, in sparse CONDATA VAR is not. The variables of
/// dense CONDATA are the columns that VAR names, or, without VAR, those that no statement names; one with a reserved name
/// of CONDATA is never a variable. `cons` is the table of CONDATA, where the program has one: it is looked at only where
/// `set` is `Arcs`, and there only for the names of ID statements.
///
/// The faults are those of `RoleFault`, of which the first in the order of its variants is told.
#[tactic(auto, unfolding(crate::specs::Assigned::roles_due))]
pub fn assign(
    alloc: Global,
    program: &Program,
    table: &Table,
    set: SetKind,
    cons: Option<&Table>,
) -> Result<Roles, RoleFault>
    ensures answer { (result ≡ Err RoleFault.NoMemory) ⊎ (result ≡ roles_due set table.now.header (header_of cons.entry) program.now.roles) }
    ensures columns { IfOk result (λ r. HasColumnsBelow r (length table.now.header)) }
{
    let names = NamedColumns::of(alloc, program, set)?;
    assign_named(alloc, &names, table, set, cons)
}

// The roles by the columns that statements of this set name.
fn assign_named(
    alloc: Global,
    names: &NamedColumns,
    table: &Table,
    set: SetKind,
    cons: Option<&Table>,
) -> Result<Roles, RoleFault>
    ensures answer { (result ≡ Err RoleFault.NoMemory) ⊎ (result ≡ roles_by set table.now.header (header_of cons.entry) names.now) }
    ensures columns { IfOk result (λ r. HasColumnsBelow r (length table.now.header)) }
{
    if let Some(lacked) = first_lacked(alloc, set, table, cons, names)? {
        return Err(RoleFault::NoColumn(Text::from_slice(alloc, lacked.name.bytes())?));
    }
    if let Some(column) = first_with_two(alloc, set, table, names)? {
        return Err(RoleFault::TwoRoles(Text::from_slice(alloc, table.cell(0, column))?));
    }
    if let Some(role) = first_missing(set, table, names.items()) {
        return Err(RoleFault::MissingRole(role));
    }
    let roles = roles_of_columns(alloc, set, table, names)?;
    Ok(roles)
}

// The first named column that is lacked.
fn first_lacked(
    alloc: Global,
    set: SetKind,
    table: &Table,
    cons: Option<&Table>,
    names: &NamedColumns,
) -> Result<Option<NamedColumn>, AllocError>
    ensures { IfOk result (λ n. n ≡ find (is_lacked set table.now.header (header_of cons.entry)) names.now) }
{
    let here = names.in_table(alloc, table)?;
    match cons {
        Some(cons) => {
            let there = names.in_table(alloc, cons)?;
            first_lacked_of(alloc, set, &here, Some(&there), names.items())
        }
        None => first_lacked_of(alloc, set, &here, None, names.items()),
    }
}

// The first of these named columns that is lacked.
fn first_lacked_of(
    alloc: Global,
    set: SetKind,
    table: &TableColumns<'_>,
    cons: Option<&TableColumns<'_>>,
    names: &[NamedColumn],
) -> Result<Option<NamedColumn>, AllocError>
    ensures { IfOk result (λ n. n ≡ find (is_lacked set table.now (cells_or_none cons.entry)) names.now) }
{
    for named in names {
        if is_lacked(alloc, set, table, cons, named)? {
            return Ok(Some(*named));
        }
    }
    Ok(None)
}

// Whether the table has no such column, and that is a fault.
fn is_lacked(
    alloc: Global,
    set: SetKind,
    table: &TableColumns<'_>,
    cons: Option<&TableColumns<'_>>,
    named: &NamedColumn,
) -> Result<bool, AllocError>
    ensures { IfOk result (λ b. b ≡ is_lacked set table.now (cells_or_none cons.entry) named.now) }
{
    let column = table.column(alloc, named.name.bytes())?;
    let may_lack = may_lack(alloc, set, cons, named)?;
    Ok(column.is_none() && !may_lack)
}

// Whether it is no fault that the table has no such column.
fn may_lack(
    alloc: Global,
    set: SetKind,
    cons: Option<&TableColumns<'_>>,
    named: &NamedColumn,
) -> Result<bool, AllocError>
    ensures { IfOk result (λ b. b ≡ may_lack set (cells_or_none cons.entry) named.now) }
{
    match set {
        SetKind::Arcs => {
            if is_same(named.role, Role::Id) {
                has_column(alloc, cons, named)
            } else {
                Ok(false)
            }
        }
        SetKind::Nodes => Ok(false),
        SetKind::Dense | SetKind::Sparse => Ok(is_same(named.role, Role::Id)),
    }
}

// Whether a table that may be absent has such a column.
fn has_column(
    alloc: Global,
    cons: Option<&TableColumns<'_>>,
    named: &NamedColumn,
) -> Result<bool, AllocError>
    ensures { IfOk result (λ b. b ≡ has_column (cells_or_none cons.entry) named.now.name) }
{
    let Some(cons) = cons else {
        return Ok(false);
    };
    let column = cons.column(alloc, named.name.bytes())?;
    Ok(column.is_some())
}

// The first column from the left with two roles.
fn first_with_two(
    alloc: Global,
    set: SetKind,
    table: &Table,
    names: &NamedColumns,
) -> Result<Option<u32>, AllocError>
    ensures first { IfOk result (λ f. f ≡ first_with (length table.now.header) (has_two set table.now.header names.now)) }
    ensures within { IfOk result (λ f. IfSome f (λ c. c < length table.now.header)) }
{
    for column in 0..table.width() {
        if has_two(alloc, set, table, names, column)? {
            return Ok(Some(column));
        }
    }
    Ok(None)
}

fn has_two(
    alloc: Global,
    set: SetKind,
    table: &Table,
    names: &NamedColumns,
    column: u32,
) -> Result<bool, AllocError>
    requires { column < length table.now.header }
    ensures { IfOk result (λ b. b ≡ has_two set table.now.header names.now column) }
{
    let uses = names.uses(alloc, table.cell(0, column))?;
    Ok(uses.is_twice || is_second_of_any(table, names.items(), column, set.roles()))
}

// Whether a column is the second reserved one of any of these roles.
fn is_second_of_any(table: &Table, names: &[NamedColumn], column: u32, roles: &[Role]) -> bool
    requires { column < length table.now.header }
    ensures { result ≡ list_any (is_second table.now.header names.now column) roles.now }
{
    for role in roles {
        if is_second(table, names, column, *role) {
            return true;
        }
    }
    false
}

// Whether a column is the second reserved one of a role without a statement.
fn is_second(table: &Table, names: &[NamedColumn], column: u32, role: Role) -> bool
    requires { column < length table.now.header }
    ensures { result ≡ is_second table.now.header names.now column role }
{
    if !is_reserved_for(role, table.cell(0, column)) || has_statement(names, role) {
        return false;
    }
    match reserved_column(table, role) {
        Some(first) => first < column,
        None => false,
    }
}

// The first column with a reserved name of a role.
fn reserved_column(table: &Table, role: Role) -> Option<u32>
    ensures first { result ≡ reserved_column table.now.header role }
    ensures within { IfSome result (λ c. c < length table.now.header) }
{
    for column in 0..table.width() {
        if is_reserved_for(role, table.cell(0, column)) {
            return Some(column);
        }
    }
    None
}

// The first needed role without a column.
fn first_missing(set: SetKind, table: &Table, names: &[NamedColumn]) -> Option<Role>
    ensures { result ≡ find (is_missing set table.now.header names.now) (needed set) }
{
    for role in set.needed() {
        if column_of(set, table, names, *role).is_none() {
            return Some(*role);
        }
    }
    None
}

// The column of a role.
fn column_of(set: SetKind, table: &Table, names: &[NamedColumn], role: Role) -> Option<u32>
    ensures column { result ≡ role_column set table.now.header names.now role }
    ensures within { IfSome result (λ c. c < length table.now.header) }
{
    if !set.has(role) {
        return None;
    }
    match statement_of(names, role) {
        Some(named) => table.column(named.name.bytes()),
        None => reserved_column(table, role),
    }
}

// The first column that a statement of this role names.
fn statement_of(names: &[NamedColumn], role: Role) -> Option<NamedColumn>
    ensures { result ≡ find (λ n. same_role role n.role) names.now }
{
    for named in names {
        if is_same(role, named.role) {
            return Some(*named);
        }
    }
    None
}

// The roles, where no fault is there.
fn roles_of_columns(
    alloc: Global,
    set: SetKind,
    table: &Table,
    names: &NamedColumns,
) -> Result<Roles, AllocError>
    ensures roles { IfOk result (λ r. r ≡ columns_due set table.now.header names.now) }
    ensures few { IfOk result (λ r. length r.ids < 2 ^ 32) }
{
    let variables = variables(alloc, set, table, names)?;
    let ids = ids(alloc, table, names)?;
    let of = |role: Role| column_of(set, table, names.items(), role);
    Ok(Roles::from_columns(
        [
            of(Role::TailNode),
            of(Role::HeadNode),
            of(Role::Cost),
            of(Role::Capacity),
            of(Role::Lo),
            of(Role::ArcName),
            of(Role::Supply),
            of(Role::Demand),
            of(Role::Node),
            of(Role::Supdem),
            of(Role::Var),
            of(Role::ConKind),
            of(Role::Rhs),
            of(Role::Row),
            of(Role::Column),
            of(Role::Coef),
            of(Role::Id),
        ],
        variables,
        ids,
    ))
}

// The variables of dense CONDATA, from the left.
fn variables(
    alloc: Global,
    set: SetKind,
    table: &Table,
    names: &NamedColumns,
) -> Result<SmallVec<u32, 8>, AllocError>
    ensures { IfOk result (λ v. v.items ≡ all_with (length table.now.header) (λ c. is_variable set names.now (get_or table.now.header c []))) }
{
    let has_var = has_statement(names.items(), Role::Var);
    let mut variables = SmallVec::new(alloc);
    for column in 0..table.width() {
        let is_there = is_variable(alloc, set, names, has_var, table.cell(0, column))?;
        push_if(&mut variables, is_there, column)?;
    }
    Ok(variables)
}

// Adds a column, where it is to be there.
fn push_if(columns: &mut SmallVec<u32, 8>, is_there: bool, column: u32) -> Result<(), AllocError>
    ensures { OnOk result (columns.new.items ≡ columns.old.items ++ (if is_there then column ∷ [] else [])) }
{
    if is_there {
        columns.push(column)?;
    }
    Ok(())
}

// Whether the column with this cell is a variable. Whether VAR has a statement is known.
fn is_variable(
    alloc: Global,
    set: SetKind,
    names: &NamedColumns,
    has_var: bool,
    cell: &[u8],
) -> Result<bool, AllocError>
    requires { has_var ≡ has_statement names.now Role.Var }
    ensures { IfOk result (λ b. b ≡ is_variable set names.now cell.now) }
{
    match set {
        SetKind::Arcs | SetKind::Nodes | SetKind::Sparse => Ok(false),
        SetKind::Dense => {
            if is_reserved(cell) {
                return Ok(false);
            }
            let uses = names.uses(alloc, cell)?;
            if has_var {
                Ok(uses.is_variable)
            } else {
                Ok(!uses.is_named)
            }
        }
    }
}

// The ID columns, from the left.
fn ids(alloc: Global, table: &Table, names: &NamedColumns) -> Result<SmallVec<u32, 8>, AllocError>
    ensures ids { IfOk result (λ v. v.items ≡ all_with (length table.now.header) (λ c. is_listed names.now Role.Id (get_or table.now.header c []))) }
    ensures few { IfOk result (λ v. length v.items < 2 ^ 32) }
{
    let mut ids = SmallVec::new(alloc);
    for column in 0..table.width() {
        let uses = names.uses(alloc, table.cell(0, column))?;
        push_if(&mut ids, uses.is_id, column)?;
    }
    Ok(ids)
}
