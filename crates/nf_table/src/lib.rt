//! Tables of CSV text: a header and rows of as many cells.
#![tactic(auto)]

mod header;
mod reading;
mod records;
mod table;
mod writing;

pub use reading::read_table;
pub use table::{Table, TableFault};
pub use writing::write_table;
