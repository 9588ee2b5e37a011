//! The constraints of CONDATA: side rows and nonarc variables after a network. Dense CONDATA is read here whole; what sparse
//! CONDATA shares with it is public: the variables by name, what rows give them, bounds, and how all is added.
#![tactic(auto)]

mod arcs;
mod bounds;
mod constraints;
mod dense_data;
mod dense_rows;
mod fault;
mod found;
mod gifts;
mod header;
mod making;
mod places;
mod row_type;
mod taken;
mod terms;
mod value;
mod variables;

pub use arcs::{ArcNames, arc_names};
pub use bounds::{check_bounds, nonarc_defaults};
pub use constraints::Constraints;
pub use dense_data::dense;
pub use fault::{at_role, in_row, no_memory, told};
pub use found::NamedArc;
pub use gifts::Gifts;
pub use making::add_constraints;
pub use places::{DataColumn, Home, PlacedFault, RowFault};
pub use row_type::{RowType, default_type, is_same_type, side_kind, type_cell};
pub use taken::{Coefficient, Figures, MOST_COEFFICIENTS, MOST_CONSTRAINTS, SideRow, Term};
pub use terms::Terms;
pub use value::{Value, may_be, value_cell};
pub use variables::Variables;
