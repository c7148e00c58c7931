// A source and a sink that never fail.
ghost use Rattle.std.specs.Prelude.{◌≡◌, ◌<◌, ◌++◌, min, length, drop, None, Some, Ok, IfOk};
ghost use Rattle.std.specs.Io.{ReadsAtMost, WritesAtMost};
ghost use Rattle.std.specs.Io.KnownBytes.{ReadConsumes, WriteAppends};
ghost use Rattle.mir_outside.specs.Causes.{HasCause};

use crate::{Failed, Sink, Source};
use std::marker::Model;

/// A source that gives bytes from memory, as many as are asked for, and never fails.
///
/// Contracts see the bytes that are left.
#[derive(Drop)]
pub struct FaultlessSource {
    bytes: Vec<u8>,
    // How many of the bytes were given.
    position: usize,
}

impl Model for FaultlessSource {
    ghost use Rattle.std.specs.Prelude.{ℕ, List, ◌≤◌, drop, length};

    ghost Value = { List ℕ };

    ghost view = { λ s. drop s.position s.bytes.items };

    ghost invariant = { λ s. s.position ≤ length s.bytes.items };
}

impl FaultlessSource {
    /// A source of these bytes. It does not allocate.
    pub fn new(bytes: Vec<u8>) -> Self
        ensures { result ≡ bytes.items }
    {
        FaultlessSource { bytes, position: 0 }
    }
}

impl Source for FaultlessSource {
    ghost left = { λ s. Some s };

    ghost faults = { λ s. 0 };

    /// Gives as many bytes as there are and fit in `buf`.
    fn read(&mut self, buf: &mut [u8]) -> Result<usize, Failed>
        ensures bound { ReadsAtMost result buf.new }
        ensures bytes { ReadConsumes (Some self.old) (Some self.new) result buf.new }
        ensures cause { HasCause 0 0 result }

        ensures count { result ≡ Ok (min (length buf.old) (length self.old)) }
    {
        let left = self.bytes.len() - self.position;
        let count = buf.len().min(left);
        buf[..count].copy_from_slice(&self.bytes[self.position..self.position + count]);
        self.position += count;
        Ok(count)
    }
}

/// A sink that takes every piece whole, keeps none of it, and never fails. Its bytes cannot be observed.
#[derive(Clone, Copy, Debug, PartialEq, Eq)]
pub struct FaultlessSink;

impl FaultlessSink {
    /// A sink that never fails. It does not allocate.
    pub fn new() -> Self {
        FaultlessSink
    }
}

impl Sink for FaultlessSink {
    ghost written = { λ s. None };

    ghost faults = { λ s. 0 };

    /// Takes the whole piece. It does not allocate.
    fn write(&mut self, piece: &[u8]) -> Result<usize, Failed>
        ensures bound { WritesAtMost result piece.now }
        ensures progress { 0 < length piece.now → IfOk result (λ n. 0 < n) }
        ensures bytes { WriteAppends None None result piece.now }
        ensures cause { HasCause 0 0 result }

        ensures count { result ≡ Ok (length piece.now) }
    {
        Ok(piece.len())
    }
}
