//! Certificates as tables: what is claimed of a problem, with the numbers that prove it.
#![tactic(auto)]

mod columns;
mod fault;
mod item;
mod reading;
mod rows;
mod verdict;
mod writing;

pub use fault::CertFault;
pub use reading::read_cert;
pub use writing::cert_table;
