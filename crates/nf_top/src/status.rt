//! How a call ended.
ghost use Rattle.std.specs.Prelude.{◌≡◌};
ghost use Rattle.nf_top.specs.Status.{status_number};

/// How a call ended.
#[derive(Clone, Copy, Debug, PartialEq, Eq)]
pub enum Status {
    /// The command was done.
    Finished,
    /// The words are no command.
    Usage,
    /// The source's text is no program.
    ProgramRefused,
    /// A data set is no table, or the tables give no problem.
    DataRefused,
    /// The source or the library failed at a read.
    ReadFault,
    /// The listing failed at a write.
    WriteFault,
    /// The library lacks a data set.
    Absent,
    /// A number passed 128 bits.
    RangePassed,
    /// The certificate's table is faulty, or the certificate is not valid.
    CheckRefused,
    /// Memory ran out.
    NoMemory,
    /// Saved tables give no session.
    WarmRefused,
}

impl Status {
    /// The number with which the program ends.
    pub fn number(self) -> u8
        ensures { result ≡ status_number self }
    {
        match self {
            Status::Finished => 0,
            Status::Usage => 2,
            Status::ProgramRefused => 3,
            Status::DataRefused => 4,
            Status::ReadFault => 5,
            Status::WriteFault => 6,
            Status::Absent => 7,
            Status::RangePassed => 8,
            Status::CheckRefused => 9,
            Status::NoMemory => 10,
            Status::WarmRefused => 11,
        }
    }
}
