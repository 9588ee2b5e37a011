//! Programs of the statement language: what they say, and what their words and values mean.
#![tactic(auto)]

mod items;
mod program;
pub mod settings;
pub mod values;
pub mod words;

pub use items::{Items, Name};
pub use program::{
    ActList, Bound, Command, ConType, NameList, OutOption, PriceType, PrintItem, PrintList,
    ProcOptions, Program, ResetList, ResetOption, Role, RoleList, SaveItem, SaveList,
    SessionOptions, SetName, ShowItem, ShowList, Statement, StmtFault, StmtKind,
};
