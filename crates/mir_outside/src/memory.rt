// A source and a sink in memory, which fail at the calls that are listed when they are made.
ghost use Rattle.std.specs.Prelude.{◌≡◌, ◌+◌, ◌-◌, ◌<◌, ◌≤◌, ◌^◌, ◌↔◌, ◌⊎◌, min, [], ◌++◌, length, take, drop, Contains, Some, OnOk, OnErr, IfOk, IsErr, MatchResult};
ghost use Rattle.std.specs.Io.{ReadsAtMost, WritesAtMost};
ghost use Rattle.std.specs.Io.KnownBytes.{ReadConsumes, WriteAppends};
ghost use Rattle.mir_outside.specs.Causes.{HasCause, next_count};
ghost use Rattle.mir_outside.specs.Memory.{SourceState, SinkState};

use crate::{Failed, Memory, Sink, Source};
use std::alloc::Global;
use std::marker::Model;

/// A source that gives bytes from memory in small pieces, and fails at chosen calls.
///
/// Contracts see a `SourceState`. Both its counts, of calls and of faults, saturate at 2^64 - 1.
#[derive(Drop)]
pub struct MemSource {
    bytes: Vec<u8>,
    // How many of the bytes were given.
    position: usize,
    piece: usize,
    fails: Vec<u64>,
    calls: u64,
    faults: u64,
}

impl Model for MemSource {
    ghost use Rattle.std.specs.Prelude.{ℕ, ◌≤◌, ◌<◌, drop, length};
    ghost use Rattle.mir_outside.specs.Memory.{SourceState};

    ghost Value = { SourceState };

    ghost view = { λ s. record {
      left = drop s.position s.bytes.items;
      piece = s.piece;
      fails = s.fails.items;
      calls = s.calls;
      faults = s.faults;
    } };

    ghost invariant = { λ s. (s.position ≤ length s.bytes.items) × (0 < s.piece) };
}

impl MemSource {
    /// A source of these bytes that gives at most `piece` of them in a call, which is at least 1. The calls whose
    /// numbers, counted from 1, stand in `fails` fail, and no others. It does not allocate.
    pub fn new(bytes: Vec<u8>, piece: usize, fails: Vec<u64>) -> Self
        requires { 0 < piece }
        ensures { result ≡ record {
          left = bytes.items;
          piece = piece;
          fails = fails.items;
          calls = 0;
          faults = 0;
        } }
    {
        MemSource {
            bytes,
            position: 0,
            piece,
            fails,
            calls: 0,
            faults: 0,
        }
    }
}

impl Source for MemSource {
    ghost left = { λ s. Some s.left };

    ghost faults = { λ s. s.faults };

    /// Gives as many bytes as there are, fit in `buf` and are allowed in one call.
    fn read(&mut self, buf: &mut [u8]) -> Result<usize, Failed>
        ensures bound { ReadsAtMost result buf.new }
        ensures bytes { ReadConsumes (Some self.old.left) (Some self.new.left) result buf.new }
        ensures cause { HasCause self.old.faults self.new.faults result }

        ensures calls { self.new.calls ≡ next_count self.old.calls }
        ensures fails { IsErr result ↔ Contains self.old.fails self.new.calls }
        ensures count { IfOk result (λ n.
            n ≡ min (length buf.old) (min self.old.piece (length self.old.left))) }
        ensures remainder { MatchResult result
            (λ n. drop n buf.new ≡ drop n buf.old) (λ _. buf.new ≡ buf.old) }
        ensures no_fault { OnOk result (self.new.faults ≡ self.old.faults) }
        ensures rises { OnErr result (self.new.faults ≡ next_count self.old.faults) }
        ensures same { (self.new.piece ≡ self.old.piece) × (self.new.fails ≡ self.old.fails) }
    {
        self.calls = self.calls.saturating_add(1);
        if self.fails.contains(&self.calls) {
            self.faults = self.faults.saturating_add(1);
            return Err(Failed);
        }
        let left = self.bytes.len() - self.position;
        let count = buf.len().min(self.piece).min(left);
        buf[..count].copy_from_slice(&self.bytes[self.position..self.position + count]);
        self.position += count;
        Ok(count)
    }
}

/// A sink that keeps its bytes in memory, takes them in small pieces, and fails at chosen calls or when it is full.
///
/// Contracts see a `SinkState`. Both its counts, of calls and of faults, saturate at 2^64 - 1.
#[derive(Drop)]
pub struct MemSink {
    bytes: Vec<u8>,
    piece: usize,
    fails: Vec<u64>,
    room: usize,
    calls: u64,
    faults: u64,
}

impl Model for MemSink {
    ghost use Rattle.std.specs.Prelude.{ℕ, ◌≤◌, ◌<◌, vec_len, vec_capacity};
    ghost use Rattle.mir_outside.specs.Memory.{SinkState};

    ghost Value = { SinkState };

    ghost view = { λ s. record {
      written = s.bytes.items;
      piece = s.piece;
      fails = s.fails.items;
      room = s.room;
      calls = s.calls;
      faults = s.faults;
    } };

    // The room is there from the start, so no write allocates.
    ghost invariant = { λ s.
        (vec_len s.bytes ≤ s.room) × (s.room ≤ vec_capacity s.bytes) × (0 < s.piece) };
}

impl MemSink {
    /// An empty sink with the memory for `room` bytes, which takes at most `piece` of them in a call, which is at least
    /// 1. A call fails exactly where its number, counted from 1, stands in `fails`, or its piece is not empty and
    /// `room` bytes are already written. It fails only with `Memory`.
    pub fn new(alloc: Global, piece: usize, fails: Vec<u64>, room: usize) -> Result<Self, Memory>
        requires { 0 < piece }
        ensures { IfOk result (λ s. s ≡ record {
          written = [];
          piece = piece;
          fails = fails.items;
          room = room;
          calls = 0;
          faults = 0;
        }) }
    {
        Ok(MemSink {
            bytes: Vec::with_capacity(alloc, room)?,
            piece,
            fails,
            room,
            calls: 0,
            faults: 0,
        })
    }

    /// The bytes that were written so far. It does not allocate.
    pub fn written(&self) -> &[u8]
        ensures { result.now ≡ self.now.written }
    {
        &self.bytes
    }
}

impl Sink for MemSink {
    ghost written = { λ s. Some s.written };

    ghost faults = { λ s. s.faults };

    /// Takes as many bytes as the piece has, there is room for and are allowed in one call. It does not allocate.
    fn write(&mut self, piece: &[u8]) -> Result<usize, Failed>
        ensures bound { WritesAtMost result piece.now }
        ensures progress { 0 < length piece.now → IfOk result (λ n. 0 < n) }
        ensures bytes { let written = ⟦<MemSink as Sink>⟧.written in
            WriteAppends (written self.old) (written self.new) result piece.now }
        ensures cause { HasCause self.old.faults self.new.faults result }

        ensures calls { self.new.calls ≡ next_count self.old.calls }
        ensures fails { IsErr result ↔ (Contains self.old.fails self.new.calls ⊎
            ((0 < length piece.now) × (length self.old.written ≡ self.old.room))) }
        ensures count { IfOk result (λ n. n ≡
            min (length piece.now) (min self.old.piece (self.old.room - length self.old.written))) }
        ensures no_fault { OnOk result (self.new.faults ≡ self.old.faults) }
        ensures rises { OnErr result (self.new.faults ≡ next_count self.old.faults) }
        ensures same { (self.new.piece ≡ self.old.piece) × (self.new.fails ≡ self.old.fails) ×
            (self.new.room ≡ self.old.room) }
    {
        self.calls = self.calls.saturating_add(1);
        let left = self.room - self.bytes.len();
        if self.fails.contains(&self.calls) || (!piece.is_empty() && left == 0) {
            self.faults = self.faults.saturating_add(1);
            return Err(Failed);
        }
        let count = piece.len().min(self.piece).min(left);
        if self.bytes.extend_from_slice(&piece[..count]).is_err() {
            unreachable!()
        }
        Ok(count)
    }
}
