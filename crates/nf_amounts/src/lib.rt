//! The data that the readers accept are amounts, and not too many: what the range law of stage one asks of a problem. It
//! computes nothing.
#![tactic(auto)]

mod data;

pub use data::{constraints_have_amounts, networks_have_amounts, options_have_amounts};
