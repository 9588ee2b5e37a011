//! What the cells of a table say, and names in the order in which they were first seen.
#![tactic(auto)]

mod cell;
mod kept;
mod name_bytes;
mod names;
mod values;

pub use cell::{is_missing, trimmed};
pub use kept::Name;
pub use name_bytes::{MOST_NAME_BYTES, is_name};
pub use names::Names;
pub use values::{Bound, Cell, Gives, Supply, amount_cell, bound_cell, name_cell, supply_cell};
