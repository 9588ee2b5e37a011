//! Whole sources and whole pieces, by calls that take and put as much as they like.
ghost use Rattle.std.specs.Prelude.{true, ◌≡◌, ◌+◌, ◌≤◌, length, IfOk, OnOk, OnErr, IsErrOf};
ghost use Rattle.std.specs.Option.{is_some};
ghost use Rattle.std.specs.Io.KnownBytes.{Appends, Consumes, IsAtEnd};
ghost use Rattle.nf_io.specs.Causes.{HasPutCause, HasReadAllCause};
ghost use Rattle.nf_io.specs.Progress.{PutPrefix, TookAtMost, TookOneMore};

use crate::{PutFault, ReadAllFault, Sink, Source, Text};
use std::alloc::Global;

// The most bytes of one take.
const PIECE: usize = 8192;

/// All bytes up to the end of a source, which a take of 0 bytes told, where they are at most `most`.
///
/// `Failed` comes only where a take answered it, and so the source's faults rose; `TooLong` where `most + 1` bytes were
/// taken; `NoMemory` where a growth was refused. On each error the bytes that were taken are lost, and they are at most
/// `most`, `most + 1` and `most + 1`.
pub fn read_all<S: Source>(alloc: Global, source: &mut S, most: usize) -> Result<Text, ReadAllFault>
    ensures cause { HasReadAllCause (S.faults source.old) (S.faults source.new) result }
    ensures short { IfOk result (λ t. length t ≤ most) }
    ensures bytes { IfOk result (λ t. Consumes (S.left source.old) (S.left source.new) t) }
    ensures end { OnOk result (IsAtEnd (S.left source.new)) }
    ensures failed { IsErrOf result ReadAllFault.Failed → TookAtMost most (S.left source.old) (S.left source.new) }
    ensures too_long { IsErrOf result ReadAllFault.TooLong → TookOneMore most (S.left source.old) (S.left source.new) }
    ensures no_memory { IsErrOf result ReadAllFault.NoMemory → TookAtMost (most + 1) (S.left source.old) (S.left source.new) }
    ensures told { is_some (S.left source.new) ≡ is_some (S.left source.old) }
    ensures quiet { S.quiet source.new ≡ S.quiet source.old }
    ensures calm { S.quiet source.old ≡ true → S.faults source.new ≡ S.faults source.old }
{
    let mut text = Text::new(alloc);
    let mut buf = [0u8; PIECE];
    while text.bytes().len() <= most {
        let room = (most - text.bytes().len()).min(PIECE - 1) + 1;
        let Ok(count) = source.take(&mut buf[..room]) else {
            return Err(ReadAllFault::Failed);
        };
        if count == 0 {
            return Ok(text);
        }
        text.push(&buf[..count])?;
    }
    Err(ReadAllFault::TooLong)
}

/// Writes the whole piece, by as many puts as it takes; an empty piece takes none.
///
/// Each error is that of the first put that did not answer `Ok`, since it takes no memory of its own: `Failed` comes
/// only where the sink's faults rose. On either a prefix of the piece was written.
pub fn write_all<K: Sink>(sink: &mut K, piece: &[u8]) -> Result<(), PutFault>
    ensures cause { HasPutCause (K.faults sink.old) (K.faults sink.new) result }
    ensures ok { OnOk result (Appends (K.written sink.old) (K.written sink.new) piece.now) }
    ensures err { OnErr result (PutPrefix (K.written sink.old) (K.written sink.new) piece.now) }
    ensures told { is_some (K.written sink.new) ≡ is_some (K.written sink.old) }
    ensures quiet { K.quiet sink.new ≡ K.quiet sink.old }
    ensures calm { K.quiet sink.old ≡ true → K.faults sink.new ≡ K.faults sink.old }
{
    let mut at = 0;
    while at < piece.len() {
        at += sink.put(&piece[at..])?;
    }
    Ok(())
}
