//! The links of a spanning tree, made anew from its keys in any order: a depth-first search from the root (R. E. Tarjan,
//! 1972) gives predecessors, depths and a preorder, and one pass against the preorder the sizes (J. L. Kennington and
//! R. V. Helgason, Algorithms for Network Programming, 1980, chapter 3). No recursion, and no memory but the room that
//! was made before.
#![tactic(auto)]

mod adjacent;
mod finish;
mod grove;
mod rebuilding;
mod walk;

pub use adjacent::Adjacent;
pub use grove::Grove;
pub use rebuilding::rebuild;
