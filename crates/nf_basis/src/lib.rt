//! States of the simplex method, the trait of a basis that gives their numbers, and the plain dense inverse.
#![tactic(auto)]

mod at_bounds;
mod basics;
mod basis;
mod col;
mod columns;
mod dense;
mod duals;
mod moves;
mod reduced;
mod restore;
mod row_rest;
mod slots;
mod start;
mod state;
mod weights;

pub use at_bounds::rests_at_bounds;
pub use basics::list_basics;
pub use basis::{Basis, RestoreFault};
pub use col::{Col, Phase, Place};
pub use columns::{bound, cost, or_zero, resting_number};
pub use dense::{DenseBasis, value_in_slot};
pub use duals::Duals;
pub use moves::{goes_down, other_bound};
pub use restore::refusal;
pub use row_rest::rest;
pub use start::{StartFault, is_below_zero, start_one};
pub use state::State;
pub use weights::Weights;
