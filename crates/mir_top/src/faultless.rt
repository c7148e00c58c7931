// The top call over devices in which no fault occurs.
ghost use Rattle.std.specs.Prelude.{◌≢◌, None, Some};
ghost use Rattle.mir_top.specs.Commands.{word_bytes};
ghost use Rattle.mir_top.specs.Promises.{Promises};
ghost use Rattle.mir_top.specs.Streams.{stream_of, without_fault};

use crate::{Reply, top};
use mir_outside::{FaultlessSink, FaultlessSource, Sink};
use std::alloc::Global;

/// Does what `top` does, from bytes in memory and into a sink that keeps none. No fault occurs in either of them, so
/// the statuses 6 and 7 never come.
pub fn faultless_top<E: Sink>(
    alloc: Global,
    words: &[String],
    source: &mut FaultlessSource,
    out: &mut FaultlessSink,
    err: &mut E,
) -> Reply
    ensures promises { Promises (record {
      words = word_bytes words.now;
      source = without_fault (Some source.old) (Some source.new);
      out = without_fault None None;
      err = stream_of E.written E.faults err.old err.new;
      reply = result;
    }) }
    ensures no_read_fault { result.status ≢ 6 }
    ensures no_write_fault { result.status ≢ 7 }
{
    top(alloc, words, source, out, err)
}
