//! The start of stage two, and its dense basis made from a basis of stage one.
#![tactic(auto)]

mod dense;
mod start;

pub use dense::widen;
pub use start::start_two;
