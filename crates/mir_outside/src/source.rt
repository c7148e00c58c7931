// Where bytes come from.
ghost use Rattle.std.specs.Prelude.{◌≡◌, ℕ, List, OnOk, OnErr};
ghost use Rattle.std.specs.declared.option.Option.{Option};
ghost use Rattle.std.specs.Io.{ReadsAtMost};
ghost use Rattle.std.specs.Io.KnownBytes.{ReadConsumes};
ghost use Rattle.mir_outside.specs.Causes.{HasCause, next_count};

use crate::Failed;
use std::io::Read;

/// Where bytes come from.
///
/// Contracts know a source by two things that no code sees: the bytes that are left in it, and a count of its faults.
/// The count gives each failure a cause, so that no call can blame a device that did not fail: a caller that sees
/// `Failed` knows that the count rose in this very call, or that there were so many faults that it saturates.
pub trait Source {
    /// The bytes that are left, the next one first. `None` where they cannot be observed, as over standard input:
    /// then no clause says anything of bytes.
    ghost left: { Self → Option (List ℕ) };

    /// The count of faults so far. It never falls, and saturates at 2^64 - 1.
    ghost faults: { Self → ℕ };

    /// Moves the next bytes to the start of `buf`.
    ///
    /// `Ok(n)` says that `n` bytes came, at most the length of `buf`. They stand in `buf[..n]`, and are left no more.
    /// `Ok(0)` on a `buf` that is not empty is the end: no byte is left.
    ///
    /// `Failed` comes only where the count of faults rose in this call, or has saturated. No byte is then taken, and a
    /// later call may go on.
    fn read(&mut self, buf: &mut [u8]) -> Result<usize, Failed>
        ensures bound { ReadsAtMost result buf.new }
        ensures bytes { ReadConsumes (left self.old) (left self.new) result buf.new }
        ensures cause { HasCause (faults self.old) (faults self.new) result };
}

/// A source over any reader of std. Its bytes can be observed where those of the reader can, and each error of the
/// reader is a fault.
#[derive(Drop)]
pub struct StdSource<R> {
    inner: R,
    faults: u64,
}

impl<R: Read> StdSource<R> {
    /// A source over this reader that has not failed yet. It does not allocate.
    pub fn new(inner: R) -> Self
        ensures left { ⟦<StdSource<R> as Source>⟧.left result ≡ R.remaining inner }
        ensures faults { ⟦<StdSource<R> as Source>⟧.faults result ≡ 0 }
    {
        StdSource { inner, faults: 0 }
    }
}

impl<R: Read> Source for StdSource<R> {
    ghost left = { λ s. R.remaining s.inner };

    ghost faults = { λ s. s.faults };

    /// Reads once. The count of faults rises by one at an error of the reader, and at nothing else.
    fn read(&mut self, buf: &mut [u8]) -> Result<usize, Failed>
        ensures bound { ReadsAtMost result buf.new }
        ensures bytes { let left = ⟦<StdSource<R> as Source>⟧.left in
            ReadConsumes (left self.old) (left self.new) result buf.new }
        ensures cause { let faults = ⟦<StdSource<R> as Source>⟧.faults in
            HasCause (faults self.old) (faults self.new) result }

        ensures no_fault { let faults = ⟦<StdSource<R> as Source>⟧.faults in
            OnOk result (faults self.new ≡ faults self.old) }
        ensures rises { let faults = ⟦<StdSource<R> as Source>⟧.faults in
            OnErr result (faults self.new ≡ next_count (faults self.old)) }
    {
        match self.inner.read(buf) {
            Ok(count) => Ok(count),
            Err(_) => {
                self.faults = self.faults.saturating_add(1);
                Err(Failed)
            }
        }
    }
}
