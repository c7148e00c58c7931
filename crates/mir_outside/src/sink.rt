// Where bytes go.
ghost use Rattle.std.specs.Prelude.{◌≡◌, ℕ, ◌<◌, List, length, IfOk, OnOk, OnErr};
ghost use Rattle.std.specs.declared.option.Option.{Option};
ghost use Rattle.std.specs.Io.{WritesAtMost};
ghost use Rattle.std.specs.Io.KnownBytes.{WriteAppends};
ghost use Rattle.mir_outside.specs.Causes.{HasCause, next_count};

use crate::Failed;
use std::io::Write;

/// Where bytes go.
///
/// Contracts know a sink by two things that no code sees: the bytes that were written to it, and a count of its
/// faults. The count gives each failure a cause, as that of a `Source` does.
pub trait Sink {
    /// The bytes that were written so far, the first one first. `None` where they cannot be observed, as over
    /// standard output: then no clause says anything of bytes.
    ghost written: { Self → Option (List ℕ) };

    /// The count of faults so far. It never falls, and saturates at 2^64 - 1.
    ghost faults: { Self → ℕ };

    /// Appends a prefix of the piece.
    ///
    /// `Ok(n)` says that `piece[..n]` was appended. It is at least one byte where `piece` is not empty, and at most
    /// all of it.
    ///
    /// `Failed` comes only where the count of faults rose in this call, or has saturated. This call then appended
    /// nothing, and a later one may go on.
    fn write(&mut self, piece: &[u8]) -> Result<usize, Failed>
        ensures bound { WritesAtMost result piece.now }
        ensures progress { 0 < length piece.now → IfOk result (λ n. 0 < n) }
        ensures bytes { WriteAppends (written self.old) (written self.new) result piece.now }
        ensures cause { HasCause (faults self.old) (faults self.new) result };
}

/// A sink over any writer of std. Its bytes can be observed where those of the writer can. Each error of the writer is
/// a fault, and so is `Ok(0)` for a piece that is not empty.
#[derive(Drop)]
pub struct StdSink<W> {
    inner: W,
    faults: u64,
}

impl<W: Write> StdSink<W> {
    /// A sink over this writer that has not failed yet. It does not allocate.
    pub fn new(inner: W) -> Self
        ensures written { ⟦<StdSink<W> as Sink>⟧.written result ≡ W.contents inner }
        ensures faults { ⟦<StdSink<W> as Sink>⟧.faults result ≡ 0 }
    {
        StdSink { inner, faults: 0 }
    }
}

impl<W: Write> Sink for StdSink<W> {
    ghost written = { λ s. W.contents s.inner };

    ghost faults = { λ s. s.faults };

    /// Writes once. The count of faults rises by one at an error of the writer and at an `Ok(0)` for a piece that is
    /// not empty, and at nothing else.
    fn write(&mut self, piece: &[u8]) -> Result<usize, Failed>
        ensures bound { WritesAtMost result piece.now }
        ensures progress { 0 < length piece.now → IfOk result (λ n. 0 < n) }
        ensures bytes { let written = ⟦<StdSink<W> as Sink>⟧.written in
            WriteAppends (written self.old) (written self.new) result piece.now }
        ensures cause { let faults = ⟦<StdSink<W> as Sink>⟧.faults in
            HasCause (faults self.old) (faults self.new) result }

        ensures no_fault { let faults = ⟦<StdSink<W> as Sink>⟧.faults in
            OnOk result (faults self.new ≡ faults self.old) }
        ensures rises { let faults = ⟦<StdSink<W> as Sink>⟧.faults in
            OnErr result (faults self.new ≡ next_count (faults self.old)) }
    {
        match self.inner.write(piece) {
            Ok(count) if count > 0 || piece.is_empty() => Ok(count),
            _ => {
                self.faults = self.faults.saturating_add(1);
                Err(Failed)
            }
        }
    }
}
