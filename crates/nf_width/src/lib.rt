//! Why no operation of stage one overflows 128 bits: a basis of a network is a spanning tree, so its weights are 0, 1 and
//! -1 (total unimodularity: I. Heller and C. B. Tompkins, 1956), and its numbers are sums of data with such weights. It
//! computes nothing.
#![tactic(auto)]

mod law;

pub use law::stage_one_fits;
