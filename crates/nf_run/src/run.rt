//! One RUN, in one stage or over the end of stage one.
ghost use Rattle.std.specs.Prelude.{◌≡◌, ◌↔◌, ◌≤◌, IfOk, IfErr, IsTrue, length};
ghost use Rattle.nf_simplex.specs.StageOf.{StageOne, StageTwo};
ghost use Rattle.nf_simplex.specs.Standing.{IsFeasibleState};
ghost use Rattle.nf_basis.specs.Dense.{HoldsNumbers};
ghost use Rattle.nf_run.specs.Runs.{SaysAt};
ghost use Rattle.nf_run.specs.Setting.{IsPlain, setting_in};
ghost use Rattle.nf_run.specs.Steps.{IsHaltIn, IsReady, IsReadyIn, IsRunFault, IsStageFault, IsStartingFault, IsTellingFault, KeepsProof, Shows, number_fault, point_at, spot_at, spot_one, spot_two, starting_fault};
ghost use Rattle.nf_run.specs.Turns.{Gives, GivesInStage, IsOver, Runs, StartsTwo, started};

use crate::event::RunFault;
use crate::line::HaltLine;
use crate::session::{InStage, Session, StagePoint};
use crate::setting::{Setting, setting_one, setting_two};
use crate::stage::{line_of, run_stage};
use nf_basis::{Basis, DenseBasis, StartFault};
use nf_certify::CertOfFault;
use nf_engine::{Halt, Moved};
use nf_frac::Steps;
use nf_price::Queue;
use nf_prob::{Cert, Problem};
use nf_program::SessionOptions;
use nf_stage_two::{start_two, widen};
use std::alloc::Global;
use std::sync::ledger::Ledger;

/// Goes on from where a session stands to the halt that is due, and answers its line and the session then, with the
/// certificate of a verdict. Where stage one ends otherwise than infeasible and stage two is to come, stage two starts.
///
/// An operation that passes 128 bits is told with its stage and the pivots of this stage that were made before it.
pub(crate) fn run<B: Basis, L: Ledger>(
    alloc: Global,
    p: &Problem,
    options: &SessionOptions,
    session: Session<B>,
    steps: &mut Steps<L>,
) -> Result<(HaltLine, Session<B>), RunFault>
    requires plain { IsPlain p.now }
    requires ready { IsReady p.now B.HasNumbers B.standing session.stage }
    ensures ready { IfOk result (λ r. IsReady p.now B.HasNumbers B.standing r.1.stage) }
    ensures gives { IfOk result (λ r. Gives p.now options.now (spot_at B.standing session.stage) r.0 (spot_at B.standing r.1.stage)) }
    ensures proof { IfOk result (λ r. KeepsProof p.now (spot_at B.standing r.1.stage).point.standing r.0 r.1.proof) }
    ensures says { IfOk result (λ r. SaysAt p.now options.now (spot_at B.standing r.1.stage) r.0) }
    ensures fault { IfErr result (IsRunFault p.now options.now (spot_at B.standing session.stage)) }
{
    let Session { stage, proof: _ } = session;
    match stage {
        InStage::One(from) => run_one(alloc, p, options, from, steps),
        InStage::Two(from, earlier) => run_two(alloc, p, options, from, earlier, steps),
    }
}

// Whether a halt of stage one is its end, otherwise than infeasible, and stage two is to come.
fn is_over(p: &Problem, halt: Halt) -> bool
    ensures { IsTrue result ↔ IsOver p.now StageOne halt }
{
    match halt {
        Halt::Ended(Moved::Best | Moved::NoBound(_)) => {
            p.nodes() < p.rows() || p.arcs() < p.columns()
        }
        _ => false,
    }
}

// A RUN from a point of stage one.
fn run_one<B: Basis, L: Ledger>(
    alloc: Global,
    p: &Problem,
    options: &SessionOptions,
    from: StagePoint<B>,
    steps: &mut Steps<L>,
) -> Result<(HaltLine, Session<B>), RunFault>
    requires plain { IsPlain p.now }
    requires ready { IsReadyIn p.now B.HasNumbers B.standing StageOne from.basis }
    ensures ready { IfOk result (λ r. IsReady p.now B.HasNumbers B.standing r.1.stage) }
    ensures gives { IfOk result (λ r. Gives p.now options.now (spot_one B.standing from) r.0 (spot_at B.standing r.1.stage)) }
    ensures proof { IfOk result (λ r. KeepsProof p.now (spot_at B.standing r.1.stage).point.standing r.0 r.1.proof) }
    ensures says { IfOk result (λ r. SaysAt p.now options.now (spot_at B.standing r.1.stage) r.0) }
    ensures fault { IfErr result (IsRunFault p.now options.now (spot_one B.standing from)) }
{
    let setting = setting_one(options);
    let (halt, at) = run_stage(alloc, p, setting, from, steps)?;
    if is_over(p, halt) {
        let earlier = at.pivots;
        let second = start_stage_two(alloc, p, at.basis, at.queue, steps)?;
        return run_two(alloc, p, options, second, earlier, steps);
    }
    let told = tell(alloc, p, setting, at, halt, steps)?;
    Ok((
        told.line,
        Session {
            stage: InStage::One(told.at),
            proof: told.proof,
        },
    ))
}

// A RUN from a point of stage two, before which stage one had so many pivots.
fn run_two<B: Basis, L: Ledger>(
    alloc: Global,
    p: &Problem,
    options: &SessionOptions,
    from: StagePoint<DenseBasis>,
    earlier: u64,
    steps: &mut Steps<L>,
) -> Result<(HaltLine, Session<B>), RunFault>
    requires ready { IsReadyIn p.now HoldsNumbers (λ b. b.state.standing) StageTwo from.basis }
    ensures ready { IfOk result (λ r. IsReady p.now B.HasNumbers B.standing r.1.stage) }
    ensures gives { IfOk result (λ r. GivesInStage p.now options.now (spot_two from earlier) r.0 (spot_at B.standing r.1.stage)) }
    ensures proof { IfOk result (λ r. KeepsProof p.now (spot_at B.standing r.1.stage).point.standing r.0 r.1.proof) }
    ensures says { IfOk result (λ r. SaysAt p.now options.now (spot_at B.standing r.1.stage) r.0) }
    ensures fault { IfErr result (IsStageFault p.now (setting_in options.now StageTwo) (spot_two from earlier).point) }
{
    let setting = setting_two(options);
    let (halt, at) = run_stage(alloc, p, setting, from, steps)?;
    let told = tell(alloc, p, setting, at, halt, steps)?;
    Ok((
        told.line,
        Session {
            stage: InStage::Two(told.at, earlier),
            proof: told.proof,
        },
    ))
}

// A halt that was told: its line, the certificate of a verdict, and the point at which it came.
#[derive(Drop)]
struct Told<B: Basis> {
    line: HaltLine,
    proof: Option<Cert>,
    at: StagePoint<B>,
}

// Tells a halt at a point of a stage.
fn tell<B: Basis, L: Ledger>(
    alloc: Global,
    p: &Problem,
    setting: Setting,
    at: StagePoint<B>,
    halt: Halt,
    steps: &mut Steps<L>,
) -> Result<Told<B>, RunFault>
    requires numbers { B.HasNumbers p.now at.basis }
    requires feasible { IsFeasibleState p.now (B.standing at.basis) }
    requires halt { IsHaltIn p.now setting (B.standing at.basis) halt }
    requires not_over { IsOver p.now (B.standing at.basis).stage halt → ⊥ }
    ensures numbers { IfOk result (λ t. B.HasNumbers p.now t.at.basis) }
    ensures at { IfOk result (λ t. point_at B.standing t.at ≡ point_at B.standing at) }
    ensures shows { IfOk result (λ t. Shows p.now setting (B.standing at.basis) halt t.line t.proof) }
    ensures fault { IfErr result (IsTellingFault p.now setting (point_at B.standing at)) }
{
    let StagePoint {
        mut basis,
        pivots,
        cursor,
        queue,
    } = at;
    match line_of(alloc, p, setting, &mut basis, halt, steps) {
        Ok((line, proof)) => Ok(Told {
            line,
            proof,
            at: StagePoint {
                basis,
                pivots,
                cursor,
                queue,
            },
        }),
        Err(fault) => Err(at_pivots(setting.stage, pivots, fault)),
    }
}

// The fault in a stage at so many pivots.
fn at_pivots(stage: u8, pivots: u64, fault: CertOfFault) -> RunFault
    ensures { result ≡ number_fault stage pivots fault }
{
    match fault {
        CertOfFault::Passed(passed) => RunFault::Range {
            stage,
            pivots,
            passed,
        },
        CertOfFault::NoMemory => RunFault::NoMemory,
    }
}

// Starts stage two after the state of a basis of stage one, with the room of its queue. There are at most 1,000 rows, as
// a whole inverse is kept.
fn start_stage_two<B: Basis, L: Ledger>(
    alloc: Global,
    p: &Problem,
    first: B,
    queue: Queue,
    steps: &mut Steps<L>,
) -> Result<StagePoint<DenseBasis>, RunFault>
    requires few { length p.now.rows ≤ 1000 }
    requires ready { IsReadyIn p.now B.HasNumbers B.standing StageOne first }
    ensures ready { IfOk result (λ q. IsReadyIn p.now HoldsNumbers (λ b. b.state.standing) StageTwo q.basis) }
    ensures starts { IfOk result (λ q. StartsTwo p.now (B.standing first) q.basis.state.standing) }
    ensures started { IfOk result (λ q. point_at (λ b. b.state.standing) q ≡ started q.basis.state.standing) }
    ensures fault { IfErr result (IsStartingFault p.now (B.standing first)) }
{
    let mut first = first;
    let mut queue = queue;
    queue.clear();
    let state = match start_two(alloc, p, &first, steps) {
        Ok(state) => state,
        Err(fault) => return Err(starting_fault(fault)),
    };
    match widen(alloc, p, &mut first, state, steps) {
        Ok(basis) => Ok(StagePoint {
            basis,
            pivots: 0,
            cursor: 0,
            queue,
        }),
        Err(fault) => Err(starting_fault(fault)),
    }
}

// The fault where stage two does not start.
fn starting_fault(fault: StartFault) -> RunFault
    ensures { result ≡ starting_fault fault }
{
    match fault {
        StartFault::Passed(passed) => RunFault::Range {
            stage: 2,
            pivots: 0,
            passed,
        },
        StartFault::NoMemory => RunFault::NoMemory,
    }
}
