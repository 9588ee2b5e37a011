//! What a statement of a program answers, as a value: the data sets to be stored and the text to be printed; and its
//! delivery, which stores the sets in their order and then writes the text.
#![tactic(auto)]

mod delivery;
mod report;
mod word;

pub use delivery::{DeliveryFault, deliver};
pub use report::{OutSet, Report};
pub use word::OutWord;
