//! The certificate of a state that has ended.
ghost use Rattle.std.specs.Prelude.{◌≡◌, length, IfOk, IfErr};
ghost use Rattle.nf_simplex.specs.Standing.{IsFeasibleState};
ghost use Rattle.nf_prob.specs.Verdict.{HasLengths};
ghost use Rattle.nf_basis.specs.Kept.{IsNonbasic};
ghost use Rattle.nf_certify.specs.Certificates.{HasEndedSo, IsCertOf, IsCertFault, IsValid};

use crate::deciding::moves_down;
use crate::ended::{CertOfFault, Ended};
use crate::lists::{by_row, given_values};
use crate::ray::{moves, stage_rows};
use nf_basis::{Basis, Col, Phase};
use nf_duals::printed_duals;
use nf_frac::{Frac, Steps};
use nf_prob::{Cert, Problem};
use std::alloc::Global;
use std::sync::ledger::Ledger;

/// The certificate of a lexicographically feasible state that has ended so; where it has ended best or without bound, no
/// stage two is to come.
///
/// `Best`: the values of the given columns and the printed duals. `NoFlow`: the duals of phase one, and 0 for each row
/// that the stage lacks. `NoBound`: the values and the ray, which is what the given columns do while the picked one
/// moves by 1, up or down, as it lowers the cost. The certificate is valid, so `verify` never says No to it.
///
/// `Passed` only where an operation passes 128 bits that arises from the state; the basis is not used again. `NoMemory`
/// where there is no memory for the lists.
pub fn cert_of<B: Basis, L: Ledger>(
    alloc: Global,
    p: &Problem,
    basis: &mut B,
    ended: Ended,
    steps: &mut Steps<L>,
) -> Result<Cert, CertOfFault>
    requires numbers { B.HasNumbers p.now basis.old }
    requires feasible { IsFeasibleState p.now (B.standing basis.old) }
    requires ended { HasEndedSo p.now (B.standing basis.old) ended }
    ensures numbers { IfOk result (λ _. B.HasNumbers p.now basis.new) }
    ensures standing { IfOk result (λ _. B.standing basis.new ≡ B.standing basis.old) }
    ensures slots { IfOk result (λ _. B.slots basis.new ≡ B.slots basis.old) }
    ensures values { IfOk result (λ _. B.values p.now basis.new ≡ B.values p.now basis.old) }
    ensures certificate { IfOk result (IsCertOf p.now (B.standing basis.old) ended) }
    ensures valid { IfOk result (IsValid p.now) }
    ensures lengths { IfOk result (HasLengths p.now) }
    ensures fault { IfErr result (IsCertFault p.now (B.standing basis.old)) }
{
    let cert = told(alloc, p, basis, ended, steps)?;
    Ok(cert)
}

// The lists of the certificate, by how the state has ended.
fn told<B: Basis, L: Ledger>(
    alloc: Global,
    p: &Problem,
    basis: &mut B,
    ended: Ended,
    steps: &mut Steps<L>,
) -> Result<Cert, CertOfFault>
    requires numbers { B.HasNumbers p.now basis.old }
    requires ended { HasEndedSo p.now (B.standing basis.old) ended }
    ensures numbers { IfOk result (λ _. B.HasNumbers p.now basis.new) }
    ensures standing { IfOk result (λ _. B.standing basis.new ≡ B.standing basis.old) }
    ensures slots { IfOk result (λ _. B.slots basis.new ≡ B.slots basis.old) }
    ensures values { IfOk result (λ _. B.values p.now basis.new ≡ B.values p.now basis.old) }
    ensures certificate { IfOk result (IsCertOf p.now (B.standing basis.old) ended) }
    ensures fault { IfErr result (IsCertFault p.now (B.standing basis.old)) }
{
    match ended {
        Ended::Best => plan(alloc, p, basis, steps),
        Ended::NoFlow => combination(alloc, p, basis, steps),
        Ended::NoBound(column) => direction(alloc, p, basis, column, steps),
    }
}

// The values of the given columns and the printed duals.
fn plan<B: Basis, L: Ledger>(
    alloc: Global,
    p: &Problem,
    basis: &mut B,
    steps: &mut Steps<L>,
) -> Result<Cert, CertOfFault>
    requires numbers { B.HasNumbers p.now basis.old }
    requires ended { HasEndedSo p.now (B.standing basis.old) Ended.Best }
    ensures numbers { IfOk result (λ _. B.HasNumbers p.now basis.new) }
    ensures standing { IfOk result (λ _. B.standing basis.new ≡ B.standing basis.old) }
    ensures slots { IfOk result (λ _. B.slots basis.new ≡ B.slots basis.old) }
    ensures values { IfOk result (λ _. B.values p.now basis.new ≡ B.values p.now basis.old) }
    ensures certificate { IfOk result (IsCertOf p.now (B.standing basis.old) Ended.Best) }
    ensures fault { IfErr result (IsCertFault p.now (B.standing basis.old)) }
{
    let values = given_values(alloc, p, basis)?;
    let rows = stage_rows(p, basis.state()) as usize;
    let mut one = vec![in alloc; Frac::zero(); rows]?;
    let mut two = vec![in alloc; Frac::zero(); rows]?;
    printed_duals(
        p,
        basis,
        true,
        one.as_mut_slice(),
        two.as_mut_slice(),
        steps,
    )?;
    let duals = by_row(alloc, p, two.as_slice())?;
    Ok(Cert::Best { values, duals })
}

// The duals of phase one: the combination of the rows that no numbers within the bounds meet.
fn combination<B: Basis, L: Ledger>(
    alloc: Global,
    p: &Problem,
    basis: &mut B,
    steps: &mut Steps<L>,
) -> Result<Cert, CertOfFault>
    requires numbers { B.HasNumbers p.now basis.old }
    ensures numbers { IfOk result (λ _. B.HasNumbers p.now basis.new) }
    ensures standing { IfOk result (λ _. B.standing basis.new ≡ B.standing basis.old) }
    ensures slots { IfOk result (λ _. B.slots basis.new ≡ B.slots basis.old) }
    ensures values { IfOk result (λ _. B.values p.now basis.new ≡ B.values p.now basis.old) }
    ensures certificate { IfOk result (IsCertOf p.now (B.standing basis.old) Ended.NoFlow) }
    ensures fault { IfErr result (IsCertFault p.now (B.standing basis.old)) }
{
    let rows = stage_rows(p, basis.state()) as usize;
    let mut one = vec![in alloc; Frac::zero(); rows]?;
    basis.duals(p, Phase::One, one.as_mut_slice(), steps)?;
    let duals = by_row(alloc, p, one.as_slice())?;
    Ok(Cert::Farkas { duals })
}

// The values of the given columns, and what they do while this column moves as it lowers the cost.
fn direction<B: Basis, L: Ledger>(
    alloc: Global,
    p: &Problem,
    basis: &mut B,
    column: Col,
    steps: &mut Steps<L>,
) -> Result<Cert, CertOfFault>
    requires numbers { B.HasNumbers p.now basis.old }
    requires ended { HasEndedSo p.now (B.standing basis.old) (Ended.NoBound column) }
    requires nonbasic { IsNonbasic p.now (B.standing basis.old) column }
    ensures numbers { IfOk result (λ _. B.HasNumbers p.now basis.new) }
    ensures standing { IfOk result (λ _. B.standing basis.new ≡ B.standing basis.old) }
    ensures slots { IfOk result (λ _. B.slots basis.new ≡ B.slots basis.old) }
    ensures values { IfOk result (λ _. B.values p.now basis.new ≡ B.values p.now basis.old) }
    ensures certificate { IfOk result (IsCertOf p.now (B.standing basis.old) (Ended.NoBound column)) }
    ensures fault { IfErr result (IsCertFault p.now (B.standing basis.old)) }
{
    let values = given_values(alloc, p, basis)?;
    let rows = stage_rows(p, basis.state()) as usize;
    let mut work = vec![in alloc; Frac::zero(); rows]?;
    let down = moves_down(p, basis, column, work.as_mut_slice(), steps)?;
    basis.column(p, column, work.as_mut_slice(), steps)?;
    let ray = moves(alloc, p, basis, column, down, work.as_slice())?;
    Ok(Cert::Ray { values, ray })
}
