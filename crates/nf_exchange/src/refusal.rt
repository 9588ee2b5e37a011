//! Why a command ends before its work is done, and the line that says so.
ghost use Rattle.std.specs.Prelude.{◌≡◌, IfOk};
ghost use Rattle.nf_exchange.specs.Lines.{refusal_line, refusal_status};

use crate::lines;
use nf_dimacs::DimacsFault;
use nf_dimacs_writer::ExportFault;
use nf_io::Text;
use nf_program::{SetName, StmtFault};
use nf_roles::{DataFault, RoleFault};
use nf_table::TableFault;
use nf_top::Status;
use std::alloc::{AllocError, Global};

/// A refusal, in the order of answers. A command has at most one, and its line is the last one of the listing.
#[derive(Drop)]
pub(crate) enum Refusal {
    /// The source's text is no program; this is its first fault.
    NoProgram(StmtFault),
    /// The text is a program that `export` does not accept yet.
    NotStanding,
    /// The source or the library failed at a read.
    ReadFault,
    /// The library lacks the data set of this name.
    Absent(Text),
    /// A data set has too many bytes.
    TooLong(SetName),
    /// A data set is no table.
    NoTable(SetName, TableFault),
    /// The columns of a data set have no roles.
    NoRoles(SetName, RoleFault),
    /// The data are no network, or one of too many rows.
    NoNetwork(DataFault),
    /// The problem has no DIMACS text.
    NoText(ExportFault),
    /// The source's text has no problem; this is its first fault.
    NoDimacs(DimacsFault),
}

/// Why a command ends before its work is done: a refusal, or out of memory, which has no line.
#[derive(Drop)]
pub(crate) enum Stop {
    Refused(Refusal),
    NoMemory,
}

impl Refusal {
    /// Its line.
    pub(crate) fn line(&self, alloc: Global) -> Result<Text, AllocError>
        ensures { IfOk result (λ t. t ≡ refusal_line self.now) }
    {
        match self {
            Refusal::NoProgram(fault) => lines::no_program(alloc, fault),
            Refusal::NotStanding => lines::plain(alloc, "PROGRAM REFUSED AT 0: Form\n"),
            Refusal::ReadFault => lines::plain(alloc, "READ FAULT\n"),
            Refusal::Absent(name) => lines::absent(alloc, name),
            Refusal::TooLong(set) => lines::too_long(alloc, *set),
            Refusal::NoTable(set, fault) => lines::no_table(alloc, *set, fault),
            Refusal::NoRoles(set, fault) => lines::no_roles(alloc, *set, fault),
            Refusal::NoNetwork(fault) => lines::no_network(alloc, fault),
            Refusal::NoText(fault) => lines::no_text(alloc, *fault),
            Refusal::NoDimacs(fault) => lines::no_dimacs(alloc, fault),
        }
    }

    /// The status with which the command then ends.
    pub(crate) fn status(&self) -> Status
        ensures { result ≡ refusal_status self.now }
    {
        match self {
            Refusal::NoProgram(_) | Refusal::NotStanding => Status::ProgramRefused,
            Refusal::ReadFault => Status::ReadFault,
            Refusal::Absent(_) => Status::Absent,
            Refusal::TooLong(_)
            | Refusal::NoTable(..)
            | Refusal::NoRoles(..)
            | Refusal::NoNetwork(_)
            | Refusal::NoText(_)
            | Refusal::NoDimacs(_) => Status::DataRefused,
        }
    }
}
