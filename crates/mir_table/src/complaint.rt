// The one complaint that is of this call alone.
ghost use Rattle.std.specs.Prelude.{◌≡◌};
ghost use Rattle.mir_top.specs.Streams.{stream_of, Tried};
ghost use Rattle.mir_table.specs.Promises.{table_usage};

use mir_outside::{Sink, write_all};

/// Writes how the program is called, and returns the status. It does not allocate.
pub(crate) fn complain_of_usage<E: Sink>(err: &mut E) -> u8
    ensures status { result ≡ table_usage.status }
    ensures told { Tried (stream_of E.written E.faults err.old err.new) table_usage.line }
{
    let _ = write_all(
        err,
        b"usage: mir_tables [optimise | divisions | tails | join | bounds | wanted | demanded]\n",
    );
    1
}
