//! The verdict of a state that has ended, and its proof.
ghost use Rattle.std.specs.Prelude.{◌≡◌, IfOk, IfErr};
ghost use Rattle.nf_sums.specs.Terms.{with_sign};
ghost use Rattle.nf_simplex.specs.Standing.{IsFeasibleState};
ghost use Rattle.nf_prob.specs.declared.cert.Checked.TheVariants as checked;
ghost use Rattle.nf_prob.specs.Verdict.{IsAnswer};
ghost use Rattle.nf_certify.specs.Certificates.{HasEndedSo, IsCertFault};
ghost use Rattle.nf_run.specs.Verdicts.{IsVerdict, Proves};

use crate::line::HaltLine;
use nf_basis::Basis;
use nf_certify::{CertOfFault, Ended, cert_of};
use nf_frac::{Frac, Steps};
use nf_prob::{Cert, Checked, Problem, verify};
use std::alloc::Global;
use std::sync::ledger::Ledger;

/// A cost or a rate of the minimised problem in the program's own sense: a program that maximises has its costs negated.
pub fn in_own_sense(p: &Problem, f: Frac) -> Frac
    ensures { result ≡ with_sign p.now.maximizes f }
{
    if p.maximize() { f.neg() } else { f }
}

// The line that a certificate proves, to which `verify` has said yes with this number.
fn line_of(p: &Problem, cert: &Cert, number: Frac) -> HaltLine
    requires yes { IsAnswer p.now cert.now (checked.Yes number) }
    ensures { Proves p.now cert.now result }
{
    match cert {
        Cert::Best { .. } => HaltLine::Optimal(in_own_sense(p, number)),
        Cert::Farkas { .. } => HaltLine::Infeasible(number),
        Cert::Ray { .. } => HaltLine::Unbounded(in_own_sense(p, number)),
    }
}

/// The line of a state that has ended so, and the certificate that proves it.
///
/// The certificate of the state has been checked: `verify` has said yes to it, with the number that the line tells. It
/// never says no, since the certificate of a state that has ended is valid.
pub(crate) fn verdict<B: Basis, L: Ledger>(
    alloc: Global,
    p: &Problem,
    basis: &mut B,
    ended: Ended,
    steps: &mut Steps<L>,
) -> Result<(HaltLine, Cert), CertOfFault>
    requires numbers { B.HasNumbers p.now basis.old }
    requires feasible { IsFeasibleState p.now (B.standing basis.old) }
    requires ended { HasEndedSo p.now (B.standing basis.old) ended }
    ensures numbers { IfOk result (λ _. B.HasNumbers p.now basis.new) }
    ensures standing { IfOk result (λ _. B.standing basis.new ≡ B.standing basis.old) }
    ensures verdict { IfOk result (λ v. IsVerdict p.now (B.standing basis.old) ended v.1 v.0) }
    ensures fault { IfErr result (IsCertFault p.now (B.standing basis.old)) }
{
    let cert = cert_of(alloc, p, basis, ended, steps)?;
    let checked = verify(p, &cert, steps)?;
    match checked {
        Checked::Yes(number) => {
            let line = line_of(p, &cert, number);
            Ok((line, cert))
        }
        Checked::No(_) => unreachable!(),
    }
}
