//! The check of a certificate.
ghost use Rattle.std.specs.Prelude.{true, ◌≡◌, ◌<◌, length, is_some, Some, Ok, IfOk, IfErr, IfSome};
ghost use Rattle.nf_frac.specs.Amounts.{IsAmount};
ghost use Rattle.nf_cert.specs.Reading.{cert_read};
ghost use Rattle.nf_prob.specs.Verdict.{HasLengths, IsAnswer};
ghost use Rattle.nf_prob.specs.declared.cert.Checked.TheVariants.{Yes};
ghost use Rattle.nf_program.specs.declared.program.Command.{Command};
ghost use Rattle.nf_top.specs.Lines.{claim_line, in_own_words};
ghost use Rattle.nf_top.specs.Data.{AreTables, IsTableOrNone, Sets as SetBytes};
ghost use Rattle.nf_top.specs.Outcome.{Accepts, FetchesSets, Input, PosesProblem, ReadsCertificate};
ghost use Rattle.nf_top.specs.Steps.{Stops, grids_of};

use crate::problem::pose;
use crate::refusal::{Refusal, Stop};
use crate::sets::Tables;
use nf_cert::{CertFault, read_cert};
use nf_frac::{Frac, Steps};
use nf_prob::{Cert, Checked, Problem, Why, verify};
use nf_program::Program;
use nf_run::{HaltLine, in_own_sense};
use nf_table::Table;
use std::alloc::Global;
use std::marker::Brand;
use std::sync::ledger::{Blank, Ledger};

// The certificate that a table claims for a problem.
fn claim(alloc: Global, table: &Table, problem: &Problem) -> Result<Cert, Stop>
    ensures ok { IfOk result (λ c. cert_read table.now (length problem.now.columns) (length problem.now.rows) ≡ Ok c) }
    ensures lengths { IfOk result (HasLengths problem.now) }
    ensures stops { IfErr result (λ stop. (i : Input) (s : SetBytes) →
        PosesProblem i Command.Check s problem.now → IsTableOrNone s.certdata (Some table.now) → Stops i stop) }
{
    match read_cert(alloc, table, problem) {
        Ok(certificate) => Ok(certificate),
        Err(CertFault::NoMemory) => Err(Stop::NoMemory),
        Err(fault) => Err(Stop::Refused(Refusal::NoCertificate(fault))),
    }
}

// The number of a valid certificate: the cost of its flows, its gap or its rate. The blank is one of the ledger, with a
// part.
fn verdict_from<L: Ledger>(
    problem: &Problem,
    certificate: &Cert,
    blank: Blank,
) -> Result<Frac, Stop>
    requires lengths { HasLengths problem.now certificate.now }
    requires name { blank.name ≡ L.name }
    requires parts { blank.parts ≡ L.parts }
    requires some { 0 < L.parts }
    ensures ok { IfOk result (λ number. IsAnswer problem.now certificate.now (Yes number)) }
    ensures stops { IfErr result (λ stop. (i : Input) → ReadsCertificate i problem.now certificate.now → Stops i stop) }
{
    let mut steps = Steps::<L>::new(blank);
    let checked = match verify(problem, certificate, &mut steps) {
        Ok(checked) => checked,
        Err(passed) => return Err(Stop::Refused(Refusal::Range(passed))),
    };
    match checked {
        Checked::Yes(number) => Ok(number),
        Checked::No(why) => Err(Stop::Refused(Refusal::NotValid(in_own_words(problem, why)))),
    }
}

// The same, with a count of steps that nobody reads.
fn verdict(problem: &Problem, certificate: &Cert) -> Result<Frac, Stop>
    requires lengths { HasLengths problem.now certificate.now }
    ensures ok { IfOk result (λ number. IsAnswer problem.now certificate.now (Yes number)) }
    ensures stops { IfErr result (λ stop. (i : Input) → ReadsCertificate i problem.now certificate.now → Stops i stop) }
{
    verdict_from::<Brand>(problem, certificate, Blank::new(1))
}

// What a certificate of a problem claims, with its number: a cost and a rate in the program's own sense.
fn claim_line(problem: &Problem, certificate: &Cert, number: Frac) -> HaltLine
    ensures { result ≡ claim_line problem.now.maximizes certificate.now number }
{
    match certificate {
        Cert::Best { .. } => HaltLine::Optimal(in_own_sense(problem, number)),
        Cert::Farkas { .. } => HaltLine::Infeasible(number),
        Cert::Ray { .. } => HaltLine::Unbounded(in_own_sense(problem, number)),
    }
}

// Why a certificate is not valid, with a rate in the program's own sense.
fn in_own_words(problem: &Problem, why: Why) -> Why
    ensures { result ≡ in_own_words problem.now.maximizes why }
{
    match why {
        Why::Rate(rate) => Why::Rate(in_own_sense(problem, rate)),
        _ => why,
    }
}

// What the certificate in a table proves for a problem, if it is accepted.
fn judge_claim(alloc: Global, problem: &Problem, certdata: &Table) -> Result<HaltLine, Stop>
    ensures ok { IfOk result (λ line. (i : Input) (s : SetBytes) →
        PosesProblem i Command.Check s problem.now → IsTableOrNone s.certdata (Some certdata.now) → Accepts i line) }
    ensures stops { IfErr result (λ stop. (i : Input) (s : SetBytes) →
        PosesProblem i Command.Check s problem.now → IsTableOrNone s.certdata (Some certdata.now) → Stops i stop) }
{
    let certificate = claim(alloc, certdata, problem)?;
    let number = verdict(problem, &certificate)?;
    Ok(claim_line(problem, &certificate, number))
}

/// What the certificate in the table of CERTDATA proves, if it is accepted.
///
/// It stops as `pose` does if ARCDATA, NODEDATA and CONDATA are no problem, then with `NoCertificate` if CERTDATA is no
/// certificate of it, then with `NotValid` at the first place where that is not valid, or with `Range` if a number of the
/// check overflows 128 bits. The steps of the check are counted, and the count is dropped.
pub(crate) fn judge(alloc: Global, program: &Program, tables: &Tables) -> Result<HaltLine, Stop>
    requires demand { IfSome program.now.proc.demand IsAmount }
    requires certdata { is_some tables.now.certdata ≡ true }
    ensures ok { IfOk result (λ line. (i : Input) (s : SetBytes) (f : FetchesSets i Command.Check s) → f.named.program ≡ program.now →
        AreTables s (grids_of tables.now) → Accepts i line) }
    ensures stops { IfErr result (λ stop. (i : Input) (s : SetBytes) (f : FetchesSets i Command.Check s) → f.named.program ≡ program.now →
        AreTables s (grids_of tables.now) → Stops i stop) }
{
    let problem = pose(alloc, program, tables)?;
    match &tables.certdata {
        Some(certdata) => judge_claim(alloc, &problem, certdata),
        None => unreachable!(),
    }
}
