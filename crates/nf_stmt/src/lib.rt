//! Programs of the statement language: reading them from a text, and writing their canonical text.
//!
//! The types are nf_program's, the reader is nf_reader's and the writer nf_writer's; what is used of them has its name
//! here.
#![tactic(auto)]

pub use nf_program::{
    ActList, Bound, Command, ConType, Items, Name, NameList, OutOption, PriceType, PrintItem,
    PrintList, ProcOptions, Program, ResetList, ResetOption, Role, RoleList, SaveItem, SaveList,
    SessionOptions, SetName, ShowItem, ShowList, Statement, StmtFault, StmtKind,
};
pub use nf_reader::{one_answer, read_program};
pub use nf_writer::write_program;

#[cfg(test)]
mod tests;
