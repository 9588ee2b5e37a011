//! What a session carries.
use nf_price::Queue;
use nf_print::{Counts, Last};
use nf_program::SessionOptions;

/// What a session carries from statement to statement besides its state.
#[derive(Drop)]
pub struct Carried {
    /// The pivots of both stages.
    pub counts: Counts,
    /// The number of the column that was picked last, and 0 if none was.
    pub cursor: u32,
    /// The candidate queue.
    pub queue: Queue,
    /// The session options.
    pub options: SessionOptions,
    /// How the last RUN or PIVOT ended.
    pub last: Last,
}
