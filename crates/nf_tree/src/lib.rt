//! The basis of a state of stage one as a spanning tree in linked arrays (J. L. Kennington and R. V. Helgason,
//! Algorithms for Network Programming, 1980, chapter 3): the basic columns join the nodes and a root, so entries are 0, 1
//! and -1 along a path, duals are the potentials of the nodes, and values are sums over subtrees.
#![tactic(auto)]

mod below;
mod calls;
mod duals;
mod ends;
mod moving;
mod path;
mod plant;
mod potentials;
mod reduced;
mod restoring;
mod solving;
mod span;
mod tree;

pub use tree::Tree;
