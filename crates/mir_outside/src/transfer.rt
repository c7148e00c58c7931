// Reading all that a source has, and writing all of a piece.
ghost use Rattle.std.specs.Prelude.{◌+◌, ◌<◌, ◌≤◌, vec_len, IfOk, OnOk, OnErr, IsErrOf, IsOkUnless, alloc_error};
ghost use Rattle.std.specs.Io.KnownBytes.{Appends, Consumes, IsAtEnd};
ghost use Rattle.mir_outside.specs.Causes.{HasCause, NeverFalls, Rose};
ghost use Rattle.mir_outside.specs.Transfer.{AppendsPart, FitsWithin, TakesAtMost, TakesExactly};

use crate::{Failed, Memory, Sink, Source};
use std::alloc::Global;
use thiserror::Error;

/// Why `read_all` gave up.
#[derive(Clone, Copy, Debug, PartialEq, Eq, Error)]
pub enum ReadFault {
    /// The source failed.
    #[error("the source failed")]
    Failed,
    /// The source has more bytes than the limit.
    #[error("too many bytes")]
    TooLong,
    /// There is not enough memory for the bytes.
    #[error(transparent)]
    Memory(Memory),
}

/// How many bytes are asked for in one call.
const CHUNK: usize = 4096;

/// Reads a source to its end, and returns all its bytes, where there are at most `limit`, which is below the greatest
/// `usize`.
///
/// Never more than `limit + 1` bytes are taken, and where the bytes can be observed, exactly those that were taken are
/// gone after any answer. The refusals:
///
/// - `Failed`, only where the source's count of faults rose in this call or has saturated. At most `limit` bytes were
///   then taken.
/// - `TooLong`, exactly where `limit + 1` bytes came.
/// - `Memory`, at any point.
pub fn read_all<S: Source>(
    alloc: Global,
    source: &mut S,
    limit: usize,
) -> Result<Vec<u8>, ReadFault>
    requires { limit < usize.MAX }
    ensures all { IfOk result (λ v. Consumes (S.left source.old) (S.left source.new) v.items) }
    ensures end { OnOk result (IsAtEnd (S.left source.new)) }
    ensures within { IfOk result (λ v. vec_len v ≤ limit) }

    ensures most { TakesAtMost (S.left source.old) (S.left source.new) (limit + 1) }
    ensures too_long { IsErrOf result ReadFault.TooLong →
        TakesExactly (S.left source.old) (S.left source.new) (limit + 1) }
    ensures before_failure { IsErrOf result ReadFault.Failed →
        TakesAtMost (S.left source.old) (S.left source.new) limit }

    ensures count { NeverFalls (S.faults source.old) (S.faults source.new) }
    ensures failed { IsErrOf result ReadFault.Failed →
        Rose (S.faults source.old) (S.faults source.new) }

    // With bytes that fit and no fault, only memory can be missing.
    ensures complete { FitsWithin (S.left source.old) limit →
        ¬ Rose (S.faults source.old) (S.faults source.new) →
        IsOkUnless result (ReadFault.Memory alloc_error) }
{
    let mut bytes = Vec::new(alloc);
    let mut chunk = [0; CHUNK];
    while bytes.len() <= limit {
        let wanted = (limit - bytes.len() + 1).min(CHUNK);
        let count = match source.read(&mut chunk[..wanted]) {
            Ok(count) => count,
            Err(_) => return Err(ReadFault::Failed),
        };
        if count == 0 {
            return Ok(bytes);
        }
        bytes
            .extend_from_slice(&chunk[..count])
            .map_err(ReadFault::Memory)?;
    }
    Err(ReadFault::TooLong)
}

/// Writes the whole piece. It does not allocate.
///
/// `Failed` comes only where the sink's count of faults rose in this call or has saturated. A proper prefix of the
/// piece was then appended.
pub fn write_all<K: Sink>(sink: &mut K, piece: &[u8]) -> Result<(), Failed>
    ensures whole { OnOk result (Appends (K.written sink.old) (K.written sink.new) piece.now) }
    ensures part { OnErr result (AppendsPart (K.written sink.old) (K.written sink.new) piece.now) }
    ensures cause { HasCause (K.faults sink.old) (K.faults sink.new) result }
{
    let mut done = 0;
    while done < piece.len() {
        done += sink.write(&piece[done..])?;
    }
    Ok(())
}
