//! Sums of fractions, and which operation passes in them: the rows of terms, and the summing loops.
#![tactic(auto)]

mod sums;

pub use sums::{add_product, is_zero, sub_product, sub_products, sum_numbers, sum_products};
