//! Faults of roles and of data.
ghost use Rattle.std.specs.Prelude.{◌≡◌, ◌⊎◌, Some, length};
ghost use Rattle.nf_roles.specs.Faults.{out_of_memory};
ghost use Rattle.nf_roles.specs.Kinds.{data_word};
ghost use Rattle.nf_roles.specs.Roles.{HasColumnsBelow, column_text};

use crate::roles::Roles;
use nf_io::Text;
use nf_program::{Role, SetName};
use nf_table::Table;
use std::alloc::{AllocError, Global};
use std::fmt;

/// Why the roles of a table's columns cannot be told. The variants stand in the order in which they are looked for.
#[derive(Debug, Drop)]
pub enum RoleFault {
    /// A statement names this column, as the program has it, and the table lacks it; for a name of an ID statement, both
    /// ARCDATA and CONDATA do, and it is told with ARCDATA. Of several names it is the first in the program.
    NoColumn(Text),
    /// Statements of this set name this column, as the header has it, more than once, or it is the second reserved column
    /// of a role without a statement. Of several columns it is the first from the left.
    TwoRoles(Text),
    /// This role is needed and has no column.
    MissingRole(Role),
    /// There was no memory for the roles.
    NoMemory,
}

impl From<AllocError> for RoleFault {
    ghost use Rattle.nf_roles.specs.declared.fault.RoleFault.TheVariants as fault;

    ghost from_gives = { λ _ e. e ≡ fault.NoMemory };

    fn from(_: AllocError) -> Self {
        RoleFault::NoMemory
    }
}

/// What is wrong with the data.
#[derive(Clone, Copy, Debug, PartialEq, Eq)]
pub enum DataKind {
    /// There are more rows, nodes, variables, constraints or coefficients than there may be.
    LimitPassed,
    /// A name is missing where one is needed, or is no name.
    BadName,
    /// A node or a variable is named `_EXCESS_`.
    ReservedName,
    /// An earlier row of ARCDATA has this tail, head and name.
    RepeatedArc,
    /// A number is not of its form.
    Amount,
    /// The upper bound is less than the lower bound.
    CrossedBounds,
    /// The node was given another supply before.
    TwoSupplies,
    /// An earlier row of NODEDATA has this node.
    RepeatedNode,
    /// SOURCE= or SINK= names no node.
    UnknownSource,
    /// Two arcs, or two variable columns, have this name.
    AmbiguousName,
    /// An earlier row of CONDATA has this name.
    RepeatedRow,
    /// A type is not in the list of types.
    UnknownKind,
    /// A cost or a bound is given to an arc in CONDATA.
    ArcHere,
    /// The coefficient, cost or bound was given before.
    RepeatedCoefficient,
    /// An earlier line gives this constraint another type.
    TwoKinds,
    /// An earlier line gives this constraint another right side.
    TwoRightSides,
    /// There was no memory for the problem.
    NoMemory,
}

impl fmt::Display for DataKind {
    ghost output = { λ k. Some (data_word k) };

    fn fmt<W: fmt::Write>(&self, f: &mut fmt::Formatter<W>) -> fmt::Result {
        match self {
            DataKind::LimitPassed => write!(f, "LimitPassed"),
            DataKind::BadName => write!(f, "BadName"),
            DataKind::ReservedName => write!(f, "ReservedName"),
            DataKind::RepeatedArc => write!(f, "RepeatedArc"),
            DataKind::Amount => write!(f, "Amount"),
            DataKind::CrossedBounds => write!(f, "CrossedBounds"),
            DataKind::TwoSupplies => write!(f, "TwoSupplies"),
            DataKind::RepeatedNode => write!(f, "RepeatedNode"),
            DataKind::UnknownSource => write!(f, "UnknownSource"),
            DataKind::AmbiguousName => write!(f, "AmbiguousName"),
            DataKind::RepeatedRow => write!(f, "RepeatedRow"),
            DataKind::UnknownKind => write!(f, "UnknownKind"),
            DataKind::ArcHere => write!(f, "ArcHere"),
            DataKind::RepeatedCoefficient => write!(f, "RepeatedCoefficient"),
            DataKind::TwoKinds => write!(f, "TwoKinds"),
            DataKind::TwoRightSides => write!(f, "TwoRightSides"),
            DataKind::NoMemory => write!(f, "NoMemory"),
        }
    }
}

/// What is wrong with a cell of a row, told by the cell's role.
#[derive(Clone, Copy, Debug, PartialEq, Eq)]
pub struct CellFault {
    pub role: Role,
    pub kind: DataKind,
}

/// The first fault of the data: the data set, the row from 1 or 0 for the header and for options, the column as the
/// header has it or else the role's first reserved name, and the kind. With `NoMemory` the other fields say nothing: they
/// are the first data set, 0 and empty.
#[derive(Debug, Drop)]
pub struct DataFault {
    pub set: SetName,
    pub row: u32,
    pub column: Text,
    pub kind: DataKind,
}

impl DataFault {
    /// A fault of a row of a table whose columns have these roles. It is `NoMemory` if the fault is, or if there is no
    /// memory for the name of its column.
    pub fn in_row(
        alloc: Global,
        set: SetName,
        row: u32,
        roles: &Roles,
        table: &Table,
        fault: CellFault,
    ) -> DataFault
        requires columns { HasColumnsBelow roles.now (length table.now.header) }
        ensures fault { (result ≡ out_of_memory)
            ⊎ (result ≡ record { set = set; row = row; column = column_text roles.now table.now.header fault.role; kind = fault.kind }) }
        ensures memory { fault.kind ≡ DataKind.NoMemory → result ≡ out_of_memory }
    {
        if fault.kind == DataKind::NoMemory {
            return DataFault::no_memory(alloc);
        }
        match Text::from_slice(alloc, roles.column_text(table, fault.role)) {
            Ok(column) => DataFault {
                set,
                row,
                column,
                kind: fault.kind,
            },
            Err(_) => DataFault::no_memory(alloc),
        }
    }

    /// There was no memory for the problem of a data set.
    pub fn no_memory(alloc: Global) -> DataFault
        ensures fault { result ≡ out_of_memory }
        ensures kind { result.kind ≡ DataKind.NoMemory }
    {
        DataFault {
            set: SetName::Arcdata,
            row: 0,
            column: Text::new(alloc),
            kind: DataKind::NoMemory,
        }
    }
}
