// A sink that keeps all bytes in memory.
ghost use Rattle.std.specs.Prelude.{◌≡◌, ◌<◌, [], length, Some, IfOk};
ghost use Rattle.std.specs.Io.{WritesAtMost};
ghost use Rattle.std.specs.Io.KnownBytes.{WriteAppends};
ghost use Rattle.mir_outside.specs.Causes.{HasCause};
ghost use Rattle.mir_call.specs.Answers.{shown};

use mir_outside::{Failed, Sink};
use std::alloc::Global;

/// Room for any line of complaint; where one is longer, it takes more memory.
pub const LINE_ROOM: usize = 200;

/// A sink that keeps all its bytes in memory, and fails only where there is no memory for more.
#[derive(Drop)]
pub struct GrowSink {
    pub bytes: Vec<u8>,
    pub faults: u64,
}

impl GrowSink {
    /// An empty sink, with the memory for so many bytes where there is that much.
    pub fn new(alloc: Global, room: usize) -> Self
        ensures bytes { result.bytes.items ≡ [] }
        ensures faults { result.faults ≡ 0 }
    {
        let bytes = match Vec::with_capacity(alloc, room) {
            Ok(bytes) => bytes,
            Err(_) => Vec::new(alloc),
        };
        GrowSink { bytes, faults: 0 }
    }
}

/// Writes as many of the bytes as fit into the room, and says how many there are in all.
pub fn put(bytes: &[u8], room: &mut [u8]) -> usize
    ensures length { result ≡ length bytes.now }
    ensures bytes { room.new ≡ shown bytes.now room.old }
{
    let count = bytes.len().min(room.len());
    room[..count].copy_from_slice(&bytes[..count]);
    bytes.len()
}

impl Sink for GrowSink {
    ghost written = { λ s. Some s.bytes.items };

    ghost faults = { λ s. s.faults };

    /// Takes the whole piece, or nothing where there is no memory for it.
    fn write(&mut self, piece: &[u8]) -> Result<usize, Failed>
        ensures bound { WritesAtMost result piece.now }
        ensures progress { 0 < length piece.now → IfOk result (λ n. 0 < n) }
        ensures bytes { WriteAppends (Some self.old.bytes.items) (Some self.new.bytes.items)
            result piece.now }
        ensures cause { HasCause self.old.faults self.new.faults result }
    {
        match self.bytes.extend_from_slice(piece) {
            Ok(()) => Ok(piece.len()),
            Err(_) => {
                self.faults = self.faults.saturating_add(1);
                Err(Failed)
            }
        }
    }
}
