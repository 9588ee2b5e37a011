//! `import` and `export` over a source, a library and a listing in memory: cases worked by hand, and each call of the outside
//! failing in turn.
//!
//! Nothing stands on this crate, which has no code but its tests.
#![tactic(auto)]

#[cfg(test)]
mod calls;
