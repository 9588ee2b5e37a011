//! Where a fault of CONDATA stands.
use nf_program::Role;
use nf_roles::DataKind;

/// A column of CONDATA: that of a role, or that of a number from 0.
#[derive(Clone, Copy, Debug)]
pub enum DataColumn {
    OfRole(Role),
    Column(u32),
}

/// What is wrong with a cell of a row.
#[derive(Clone, Copy, Debug)]
pub struct PlacedFault {
    pub place: DataColumn,
    pub kind: DataKind,
}

/// The same, with the row: it counts from 1, and 0 is the header.
#[derive(Clone, Copy, Debug)]
pub struct RowFault {
    pub row: u32,
    pub fault: PlacedFault,
}

/// Where a variable stands for the first time.
#[derive(Clone, Copy, Debug)]
pub struct Home {
    pub row: u32,
    pub place: DataColumn,
}
