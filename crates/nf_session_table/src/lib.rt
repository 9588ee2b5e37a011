//! SESSIONOUT: the table in which a session is saved, from its state and what it carries besides.
#![tactic(auto)]

mod carried;
mod cells;
mod sections;
mod table;

pub use carried::Carried;
pub use table::sessionout;
