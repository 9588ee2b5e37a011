//! Adapters over readers and writers, which tell nothing of content: the trusted edge.
ghost use Rattle.std.specs.Prelude.{None, false, ◌≡◌, ◌<◌, length, IfOk};
ghost use Rattle.std.specs.Io.{ReadsAtMost, WritesAtMost};
ghost use Rattle.std.specs.Io.KnownBytes.{ReadConsumes, WriteAppends};
ghost use Rattle.nf_io.specs.Causes.{HasCause, HasPutCause};

use crate::{Failed, PutFault, Sink, Source};
use std::io;
use std::io::{ErrorKind, Read, Write};

/// A source over any reader. A read that a signal interrupts is tried again; each that fails otherwise is a fault.
#[derive(Drop)]
pub struct ReadSource<R> {
    inner: R,
    faults: u64,
}

impl<R: Read> ReadSource<R> {
    /// A source that reads from this reader, with no fault yet.
    pub fn new(inner: R) -> Self
        ensures { result ≡ record { inner = inner; faults = 0 } }
    {
        ReadSource { inner, faults: 0 }
    }
}

impl<R: Read> Source for ReadSource<R> {
    ghost left = { λ s. None };

    ghost faults = { λ s. s.faults };

    ghost quiet = { λ s. false };

    /// One read. It gives what the reader's own contract says, where the reader tells its bytes.
    fn take(&mut self, buf: &mut [u8]) -> Result<usize, Failed>
        ensures bound { ReadsAtMost result buf.new }
        ensures cause { HasCause self.old.faults self.new.faults result }
        ensures inner { ReadConsumes (R.remaining self.old.inner) (R.remaining self.new.inner) result buf.new }
    {
        match read_once(&mut self.inner, buf) {
            Ok(count) => Ok(count),
            Err(_) => {
                self.faults = self.faults.saturating_add(1);
                Err(Failed)
            }
        }
    }
}

// One read, tried again while a signal interrupts it.
#[tactic(auto, using(crate::proofs::KnownFacts::keeps_same, crate::proofs::KnownFacts::keeps_on, crate::proofs::KnownFacts::keeps_consumes))]
fn read_once<R: Read>(reader: &mut R, buf: &mut [u8]) -> io::Result<usize>
    ensures bound { ReadsAtMost result buf.new }
    ensures bytes { ReadConsumes (R.remaining reader.old) (R.remaining reader.new) result buf.new }
{
    for _ in 0..u64::MAX {
        match reader.read(buf) {
            Ok(count) => return Ok(count),
            Err(e) if e.kind() == ErrorKind::Interrupted => {}
            Err(e) => return Err(e),
        }
    }
    Err(io::Error::from(ErrorKind::Interrupted))
}

/// A sink over any writer, which is to keep no bytes back. A write that a signal interrupts is tried again; each that fails
/// otherwise, or takes nothing of a piece that is not empty, is a fault, unless it is out of memory.
#[derive(Drop)]
pub struct WriteSink<W> {
    inner: W,
    faults: u64,
}

impl<W: Write> WriteSink<W> {
    /// A sink that writes to this writer, with no fault yet.
    pub fn new(inner: W) -> Self
        ensures { result ≡ record { inner = inner; faults = 0 } }
    {
        WriteSink { inner, faults: 0 }
    }
}

impl<W: Write> Sink for WriteSink<W> {
    ghost written = { λ s. None };

    ghost faults = { λ s. s.faults };

    ghost quiet = { λ s. false };

    /// One write. It does what the writer's own contract says, where the writer tells its bytes.
    fn put(&mut self, piece: &[u8]) -> Result<usize, PutFault>
        ensures bound { WritesAtMost result piece.now }
        ensures some { IfOk result (λ n. 0 < length piece.now → 0 < n) }
        ensures cause { HasPutCause self.old.faults self.new.faults result }
        ensures inner { WriteAppends (W.contents self.old.inner) (W.contents self.new.inner) result piece.now }
    {
        match write_once(&mut self.inner, piece) {
            Ok(count) if count > 0 || piece.is_empty() => Ok(count),
            Err(e) if e.kind() == ErrorKind::OutOfMemory => Err(PutFault::NoMemory),
            _ => {
                self.faults = self.faults.saturating_add(1);
                Err(PutFault::Failed)
            }
        }
    }
}

// One write, tried again while a signal interrupts it.
#[tactic(auto, using(crate::proofs::KnownFacts::keeps_same, crate::proofs::KnownFacts::keeps_on, crate::proofs::KnownFacts::keeps_appends))]
fn write_once<W: Write>(writer: &mut W, piece: &[u8]) -> io::Result<usize>
    ensures bound { WritesAtMost result piece.now }
    ensures bytes { WriteAppends (W.contents writer.old) (W.contents writer.new) result piece.now }
{
    for _ in 0..u64::MAX {
        match writer.write(piece) {
            Ok(count) => return Ok(count),
            Err(e) if e.kind() == ErrorKind::Interrupted => {}
            Err(e) => return Err(e),
        }
    }
    Err(io::Error::from(ErrorKind::Interrupted))
}
