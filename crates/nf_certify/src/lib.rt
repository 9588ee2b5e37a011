//! The certificate of a state that has ended: its plan, its combination of rows, or its ray.
#![tactic(auto)]

mod certificate;
mod deciding;
mod ended;
mod law;
mod lists;
mod ray;

pub use certificate::cert_of;
pub use ended::{CertOfFault, Ended};
pub use law::checks_arise;
