//! The run of one stage, and the line of its halt.
ghost use Rattle.std.specs.Prelude.{◌≡◌, IfOk, IfErr};
ghost use Rattle.nf_simplex.specs.Standing.{IsFeasibleState};
ghost use Rattle.nf_price.specs.Rules.{HasSize};
ghost use Rattle.nf_certify.specs.declared.ended.Ended.{Ended as End};
ghost use Rattle.nf_certify.specs.Certificates.{IsCertFault};
ghost use Rattle.nf_run.specs.Steps.{IsHaltIn, IsStageFault, Shows, point_at};
ghost use Rattle.nf_run.specs.Turns.{IsOver, Runs};
ghost use Rattle.nf_run.specs.Verdicts.{MeansEnd};

use crate::event::RunFault;
use crate::line::HaltLine;
use crate::session::StagePoint;
use crate::setting::Setting;
use crate::verdict::verdict;
use nf_basis::Basis;
use nf_certify::{CertOfFault, Ended};
use nf_engine::{Engine, Halt, Moved};
use nf_frac::Steps;
use nf_prob::{Cert, Problem};
use std::alloc::Global;
use std::sync::ledger::Ledger;

/// Goes on from a point of a stage to the halt that is due in it, and answers this and the point then.
///
/// The pivots are steps of the engine under the rule of the stage. An operation that passes 128 bits is told with the
/// pivots that were made before it.
pub(crate) fn run_stage<B: Basis, L: Ledger>(
    alloc: Global,
    p: &Problem,
    setting: Setting,
    from: StagePoint<B>,
    steps: &mut Steps<L>,
) -> Result<(Halt, StagePoint<B>), RunFault>
    requires numbers { B.HasNumbers p.now from.basis }
    requires feasible { IsFeasibleState p.now (B.standing from.basis) }
    requires size { HasSize setting.rule }
    ensures numbers { IfOk result (λ r. B.HasNumbers p.now r.1.basis) }
    ensures feasible { IfOk result (λ r. IsFeasibleState p.now (B.standing r.1.basis)) }
    ensures stage { IfOk result (λ r. (B.standing r.1.basis).stage ≡ (B.standing from.basis).stage) }
    ensures runs { IfOk result (λ r. Runs p.now setting (point_at B.standing from) r.0 (point_at B.standing r.1)) }
    ensures fault { IfErr result (IsStageFault p.now setting (point_at B.standing from)) }
{
    let StagePoint {
        basis,
        pivots,
        cursor,
        queue,
    } = from;
    let mut engine = match Engine::new(alloc, p, basis, pivots, cursor, queue) {
        Ok(engine) => engine,
        Err(_) => return Err(RunFault::NoMemory),
    };
    let most = u64::from(setting.most);
    let halt = match engine.run(p, setting.rule, most, &setting.pauses, steps) {
        Ok(halt) => halt,
        Err(passed) => {
            return Err(RunFault::Range {
                stage: setting.stage,
                pivots: engine.pivots(),
                passed,
            });
        }
    };
    let (pivots, cursor) = (engine.pivots(), engine.cursor());
    let (basis, queue) = engine.into_parts();
    Ok((
        halt,
        StagePoint {
            basis,
            pivots,
            cursor,
            queue,
        },
    ))
}

/// The line of a halt at a state, and the certificate of a verdict. Where stage one has ended with stage two to come, it
/// has ended infeasible.
pub(crate) fn line_of<B: Basis, L: Ledger>(
    alloc: Global,
    p: &Problem,
    setting: Setting,
    basis: &mut B,
    halt: Halt,
    steps: &mut Steps<L>,
) -> Result<(HaltLine, Option<Cert>), CertOfFault>
    requires numbers { B.HasNumbers p.now basis.old }
    requires feasible { IsFeasibleState p.now (B.standing basis.old) }
    requires halt { IsHaltIn p.now setting (B.standing basis.old) halt }
    requires not_over { IsOver p.now (B.standing basis.old).stage halt → ⊥ }
    ensures numbers { IfOk result (λ _. B.HasNumbers p.now basis.new) }
    ensures standing { IfOk result (λ _. B.standing basis.new ≡ B.standing basis.old) }
    ensures shows { IfOk result (λ r. Shows p.now setting (B.standing basis.old) halt r.0 r.1) }
    ensures fault { IfErr result (IsCertFault p.now (B.standing basis.old)) }
{
    match halt {
        Halt::Ended(moved) => {
            let (line, cert) = verdict(alloc, p, basis, end_of(moved), steps)?;
            Ok((line, Some(cert)))
        }
        Halt::Limit => Ok((
            HaltLine::Limit {
                stage: setting.stage,
                most: setting.most,
            },
            None,
        )),
        Halt::Pause => Ok((HaltLine::Pause(setting.stage), None)),
        Halt::Feasible => Ok((HaltLine::Feasible, None)),
    }
}

// How a state has ended, where the engine says so.
fn end_of(moved: Moved) -> Ended
    requires ended { (how : End) × MeansEnd moved how }
    ensures means { MeansEnd moved result }
{
    match moved {
        Moved::Best => Ended::Best,
        Moved::NoFlow => Ended::NoFlow,
        Moved::NoBound(column) => Ended::NoBound(column),
        Moved::Pivoted { .. } | Moved::Flipped(_) => unreachable!(),
    }
}
