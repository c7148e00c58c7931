// The call of the program.
ghost use Rattle.std.specs.Prelude.{IfOk};
ghost use Rattle.mir_top.specs.declared.command.Command.TheVariants.{Optimise};
ghost use Rattle.mir_top.specs.Commands.{word_bytes};
ghost use Rattle.mir_top.specs.Streams.{stream_of};
ghost use Rattle.mir_table.specs.declared.kinds.TableKind.TheVariants as kinds;
ghost use Rattle.mir_table.specs.Promises.{AsksFor, HasWritten, IsMade, TablePromises, TextPromises};

use crate::TableKind;
use crate::complaint::complain_of_usage;
use crate::further::{Further, further_tables};
use mir_outside::{FaultlessSink, Memory, Sink, Source, write_all};
use mir_top::{complain_of_memory, complain_of_write, one_thing_is_due, top};
use pass_table::text_of_tables;
use std::alloc::Global;

/// Writes the tables of the program that is read from the source to `out`, and answers the status. The words are none,
/// or one that says which tables: `optimise`, as where there is none, `divisions`, `tails`, `join`, `bounds`, `wanted`
/// or `demanded`; with other words it writes how to call it to `err`, and reads nothing. Where something fails, one
/// line goes to `err`, with the status that `mir` has for it.
///
/// All of the output is made before anything is written, and once writing has begun nothing is allocated.
pub fn tables<S: Source, K: Sink, E: Sink>(
    alloc: Global,
    words: &[String],
    source: &mut S,
    out: &mut K,
    err: &mut E,
) -> u8
    ensures { TablePromises (word_bytes words.now) (record {
      source = stream_of S.left S.faults source.old source.new;
      out = stream_of K.written K.faults out.old out.new;
      err = stream_of E.written E.faults err.old err.new;
      status = result;
    }) }
{
    match TableKind::of(words) {
        Some(kind) => asked_tables(alloc, kind, source, out, err),
        None => complain_of_usage(err),
    }
}

/// Writes these tables of the program that is read from the source.
fn asked_tables<S: Source, K: Sink, E: Sink>(
    alloc: Global,
    kind: TableKind,
    source: &mut S,
    out: &mut K,
    err: &mut E,
) -> u8
    ensures { TextPromises kind (record {
      source = stream_of S.left S.faults source.old source.new;
      out = stream_of K.written K.faults out.old out.new;
      err = stream_of E.written E.faults err.old err.new;
      status = result;
    }) }
{
    match kind {
        TableKind::Optimise => optimised_tables(alloc, source, out, err),
        TableKind::Divisions => further_tables(alloc, Further::Divisions, source, out, err),
        TableKind::Tails => further_tables(alloc, Further::Tails, source, out, err),
        TableKind::Join => further_tables(alloc, Further::Join, source, out, err),
        TableKind::Bounds => further_tables(alloc, Further::Bounds, source, out, err),
        TableKind::Wanted => further_tables(alloc, Further::Wanted, source, out, err),
        TableKind::Demanded => further_tables(alloc, Further::Demanded, source, out, err),
    }
}

/// Writes the tables of all passes.
fn optimised_tables<S: Source, K: Sink, E: Sink>(
    alloc: Global,
    source: &mut S,
    out: &mut K,
    err: &mut E,
) -> u8
    ensures { TextPromises kinds.Optimise (record {
      source = stream_of S.left S.faults source.old source.new;
      out = stream_of K.written K.faults out.old out.new;
      err = stream_of E.written E.faults err.old err.new;
      status = result;
    }) }
{
    match optimise_words(alloc) {
        Ok(asked) => tables_of_text(alloc, &asked, source, out, err),
        Err(_) => complain_of_memory(err),
    }
}

/// The words that ask `mir` for the target of all passes.
fn optimise_words(alloc: Global) -> Result<Vec<String>, Memory>
    ensures { IfOk result (λ words. AsksFor Optimise (word_bytes words.items)) }
{
    let mut words = Vec::new(alloc);
    words.push(String::from_str(alloc, "optimise")?)?;
    Ok(words)
}

/// Writes the tables of all passes, where these words ask for their target.
fn tables_of_text<S: Source, K: Sink, E: Sink>(
    alloc: Global,
    asked: &[String],
    source: &mut S,
    out: &mut K,
    err: &mut E,
) -> u8
    requires { AsksFor Optimise (word_bytes asked.now) }
    ensures { TextPromises kinds.Optimise (record {
      source = stream_of S.left S.faults source.old source.new;
      out = stream_of K.written K.faults out.old out.new;
      err = stream_of E.written E.faults err.old err.new;
      status = result;
    }) }
{
    // Has no effect; carries the theorem that of a text either an output is due or a refusal, and never both.
    one_thing_is_due();
    let mut nowhere = FaultlessSink::new();
    let reply = top(alloc, asked, source, &mut nowhere, err);
    match &reply.trail {
        Some(trail) => write_text(text_of_tables(alloc, trail), out, err),
        None => reply.status,
    }
}

/// Writes a text, where it could be made.
pub(crate) fn write_text<K: Sink, E: Sink>(
    text: Result<Vec<u8>, Memory>,
    out: &mut K,
    err: &mut E,
) -> u8
    ensures { HasWritten (IsMade text)
        (stream_of K.written K.faults out.old out.new)
        (stream_of E.written E.faults err.old err.new) result }
{
    match text {
        Ok(text) => match write_all(out, &text) {
            Ok(()) => 0,
            Err(_) => complain_of_write(err),
        },
        Err(_) => complain_of_memory(err),
    }
}
