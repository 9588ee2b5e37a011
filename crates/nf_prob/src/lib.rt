//! The problem of a network with side rows, and the exact check of a certificate against it.
#![tactic(auto)]

mod builder;
mod cert;
mod check;
mod farkas;
mod fits;
mod fracs;
mod lists;
mod number;
mod problem;
mod ray;
mod reduced;
mod stored;

pub use builder::ProblemBuilder;
pub use cert::{Cert, Checked, Why};
pub use check::verify;
pub use fracs::Fracs;
pub use nf_model::RowKind;
pub use problem::Problem;
pub use reduced::reduced_by;
pub use stored::{Entry, RowEntry};
