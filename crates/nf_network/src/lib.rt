//! The network of ARCDATA and NODEDATA as planners write them: the problem with its labels, or the first fault.
#![tactic(auto)]

mod data_sets;
mod excess;
mod figures;
mod key_set;
mod keys;
mod labelling;
mod network_data;
mod node_data;
mod nodes;
mod numbers;
mod options;
mod pass;
mod problem;
mod repeats;
mod row_cells;
mod rows;

pub use excess::{excess_name, is_excess};
pub use network_data::network;
pub use numbers::{amount_value, defaults_of, in_sense, upper_of};
pub use rows::Defaults;
