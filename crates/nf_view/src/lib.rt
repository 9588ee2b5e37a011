//! The tree view of a state: the spanning tree of its key columns, and each node's place in it.
#![tactic(auto)]

mod links;
mod listed;
mod parts;
mod subtrees;
mod view;
mod walk;

pub use links::Link;
pub use view::{TreeView, basics_determine_view, tree_view};
