//! The records of a text, one at a time.
ghost use Rattle.std.specs.Prelude.{◌≡◌, [], None, IfOk, false};
ghost use Rattle.csv.specs.Records.{fields_of};
ghost use Rattle.csv.specs.Reading.{strip_bom};
ghost use Rattle.csv.specs.declared.parser.State.TheVariants as st;
ghost use Rattle.nf_table.specs.Cursor.{StepGives};

use csv::{ByteRecord, ErrorKind, Reader, ReaderBuilder};
use std::alloc::{AllocError, Global};
use std::marker::Model;

/// What came next.
#[derive(Clone, Copy, Debug, PartialEq, Eq)]
pub(crate) enum Step {
    /// A record with as many cells as the first.
    Row,
    /// A record with more or fewer cells.
    OtherLength,
    /// No record.
    End,
}

/// The records of a text, each with as many cells as the first, and the one that was read last. The text is read
/// from the caller's bytes, so one record at a time is copied.
pub(crate) struct Records<'a> {
    rdr: Reader<&'a [u8]>,
    row: ByteRecord,
    ended: bool,
}

impl<'a> Model for Records<'a> {
    ghost use Rattle.nf_table.specs.Cursor.{Cursor};

    ghost Value = { Cursor };

    ghost use Rattle.nf_table.specs.CursorInside.{IsReadingOn, cursor_of};

    ghost view = { cursor_of };

    ghost invariant = { IsReadingOn };
}

// A function of its own, so that the callers' proofs do not go through the parts of the reader.
impl<'a> Drop for Records<'a> {
    fn drop(self) {
        let Records {
            rdr: _,
            row: _,
            ended: _,
        } = self;
    }
}

impl<'a> Records<'a> {
    /// Before the first record. The reader of the csv crate would keep two copies of the first record as its header, so it
    /// is given an empty one.
    pub(crate) fn new(alloc: Global, text: &'a [u8]) -> Result<Self, AllocError>
        ensures ended { IfOk result (λ r. r.ended ≡ false) }
        ensures state { IfOk result (λ r. r.state ≡ st.StartRecord) }
        ensures left { IfOk result (λ r. r.left ≡ strip_bom text.now) }
        ensures expected { IfOk result (λ r. r.expected ≡ None) }
    {
        let mut rdr = ReaderBuilder::new().from_reader(alloc, text);
        match rdr.set_byte_headers(ByteRecord::new(alloc)) {
            Ok(()) => Ok(Records {
                rdr,
                row: ByteRecord::new(alloc),
                ended: false,
            }),
            Err(_) => Err(AllocError),
        }
    }

    /// Reads the next record. The csv crate leaves open that a reader over memory fails, so such a failure counts as
    /// want of memory.
    pub(crate) fn advance(&mut self) -> Result<Step, AllocError>
        requires { self.old.ended ≡ false }
        ensures { IfOk result (λ step. StepGives self.old self.new step) }
    {
        self.ended = true;
        match self.rdr.read_byte_record(&mut self.row) {
            Ok(true) => {
                self.ended = false;
                Ok(Step::Row)
            }
            Ok(false) => Ok(Step::End),
            Err(e) => match e.kind() {
                ErrorKind::UnequalLengths { .. } => Ok(Step::OtherLength),
                _ => Err(AllocError),
            },
        }
    }

    /// The cells of the last record.
    pub(crate) fn cells(&self) -> &ByteRecord
        ensures { fields_of result.now ≡ self.now.cells }
    {
        &self.row
    }
}
