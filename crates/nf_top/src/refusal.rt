//! Why a call ends before its work is done, and the line that tells it.
ghost use Rattle.std.specs.Prelude.{◌≡◌, IfOk};
ghost use Rattle.nf_top.specs.Lines.{refusal_line};
ghost use Rattle.nf_top.specs.Status.{refusal_status};

use crate::lines;
use crate::status::Status;
use nf_cert::CertFault;
use nf_frac::Passed;
use nf_io::Text;
use nf_prob::Why;
use nf_program::{SetName, StmtFault};
use nf_roles::{DataFault, RoleFault};
use nf_table::TableFault;
use std::alloc::{AllocError, Global};

/// A refusal, in the order of answers. A call has at most one, and its line is the last one of the listing.
#[derive(Drop)]
pub(crate) enum Refusal {
    /// The words are no command.
    Usage,
    /// The source's text is no program; this is its first fault.
    NoProgram(StmtFault),
    /// The text is a program that the command does not take yet.
    NotStanding,
    /// The source or the library failed at a read.
    ReadFault,
    /// The library lacks the data set of this name.
    Absent(Text),
    /// A data set has too many bytes.
    TooLong(SetName),
    /// A data set is no table.
    NoTable(SetName, TableFault),
    /// The columns of a data set have no roles.
    NoRoles(SetName, RoleFault),
    /// The data are no network, or one of too many rows.
    NoNetwork(DataFault),
    /// The table of CERTDATA is no certificate.
    NoCertificate(CertFault),
    /// The certificate is not valid.
    NotValid(Why),
    /// A number of the check passes 128 bits.
    Range(Passed),
}

/// Why a call ends before its work is done: a refusal, or want of memory, which no line tells.
#[derive(Drop)]
pub(crate) enum Stop {
    Refused(Refusal),
    NoMemory,
}

impl Refusal {
    /// Its line.
    pub(crate) fn line(&self, alloc: Global) -> Result<Text, AllocError>
        ensures { IfOk result (λ t. t ≡ refusal_line self.now) }
    {
        match self {
            Refusal::Usage => lines::plain(alloc, lines::USAGE),
            Refusal::NoProgram(fault) => lines::no_program(alloc, fault),
            Refusal::NotStanding => lines::plain(alloc, "PROGRAM REFUSED AT 0: Form\n"),
            Refusal::ReadFault => lines::plain(alloc, "READ FAULT\n"),
            Refusal::Absent(name) => lines::named(alloc, "ABSENT ", name),
            Refusal::TooLong(set) => lines::too_long(alloc, *set),
            Refusal::NoTable(set, fault) => lines::no_table(alloc, *set, fault),
            Refusal::NoRoles(set, fault) => lines::no_roles(alloc, *set, fault),
            Refusal::NoNetwork(fault) => lines::no_network(alloc, fault),
            Refusal::NoCertificate(fault) => lines::no_certificate(alloc, fault),
            Refusal::NotValid(why) => lines::not_valid(alloc, *why),
            Refusal::Range(passed) => lines::range(alloc, passed),
        }
    }

    /// The status with which the call then ends.
    pub(crate) fn status(&self) -> Status
        ensures { result ≡ refusal_status self.now }
    {
        match self {
            Refusal::Usage => Status::Usage,
            Refusal::NoProgram(_) | Refusal::NotStanding => Status::ProgramRefused,
            Refusal::ReadFault => Status::ReadFault,
            Refusal::Absent(_) => Status::Absent,
            Refusal::TooLong(_)
            | Refusal::NoTable(..)
            | Refusal::NoRoles(..)
            | Refusal::NoNetwork(_) => Status::DataRefused,
            Refusal::NoCertificate(_) | Refusal::NotValid(_) => Status::CheckRefused,
            Refusal::Range(_) => Status::RangePassed,
        }
    }
}
