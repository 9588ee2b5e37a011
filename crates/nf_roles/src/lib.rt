//! The roles of the columns of a table: which column is whose, or why that cannot be told; and faults of data, which are
//! told by roles.
#![tactic(auto)]

mod assigned;
mod columns;
mod fault;
mod found;
mod named;
mod reserved;
mod roles;
mod uses;

pub use assigned::assign;
pub use columns::SetKind;
pub use fault::{CellFault, DataFault, DataKind, RoleFault};
pub use roles::Roles;
