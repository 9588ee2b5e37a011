//! Where a session stands between its statements.
ghost use Rattle.std.specs.Prelude.{◌≡◌};
ghost use Rattle.nf_model.specs.Program.{LinearProgram};
ghost use Rattle.nf_run.specs.Steps.{IsReady, spot_at};
ghost use Rattle.nf_run.specs.Turns.{counts_at};

use crate::line::Counts;
use nf_basis::{Basis, DenseBasis};
use nf_price::Queue;
use nf_prob::Cert;

/// A point of a stage: the basis of its state, how many pivots the stage has had, the number of the column that was
/// picked last, and the candidate queue.
#[derive(Drop)]
pub(crate) struct StagePoint<B: Basis> {
    pub(crate) basis: B,
    pub(crate) pivots: u64,
    pub(crate) cursor: u32,
    pub(crate) queue: Queue,
}

/// Where a session stands: in stage one, or in stage two with the pivots that stage one had.
#[derive(Drop)]
pub(crate) enum InStage<B: Basis> {
    One(StagePoint<B>),
    Two(StagePoint<DenseBasis>, u64),
}

impl<B: Basis> InStage<B> {
    /// The counts of pivots.
    pub(crate) fn counts(&self) -> Counts
        requires ready { (p : LinearProgram) × IsReady p B.HasNumbers B.standing self.now }
        ensures { result ≡ counts_at (spot_at B.standing self.now) }
    {
        match self {
            InStage::One(point) => Counts {
                one: point.pivots,
                two: 0,
            },
            InStage::Two(point, earlier) => Counts {
                one: *earlier,
                two: point.pivots,
            },
        }
    }
}

/// A session: where it stands, and the certificate of the last halt, where this was a verdict.
#[derive(Drop)]
pub(crate) struct Session<B: Basis> {
    pub(crate) stage: InStage<B>,
    pub(crate) proof: Option<Cert>,
}
