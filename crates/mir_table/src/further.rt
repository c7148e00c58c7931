// The tables of what single commands of `mir` make, whose program is read by the motion of divisions.
ghost use Rattle.std.specs.Prelude.{IfOk};
ghost use Rattle.mir_top.specs.declared.command.Command.TheVariants.{Divisions};
ghost use Rattle.mir_top.specs.Commands.{word_bytes};
ghost use Rattle.mir_top.specs.Outputs.{Divides};
ghost use Rattle.mir_top.specs.Streams.{stream_of};
ghost use Rattle.mir_table.specs.Further.{IsTextOf, kind_from};
ghost use Rattle.mir_table.specs.Promises.{AsksFor, TextPromises};

use crate::call::write_text;
use bound_table::text_of_bounds;
use call_table::{text_of_joins, text_of_tails};
use division_table::text_of_divisions;
use mir_opt::MoveTrail;
use mir_outside::{FaultlessSink, Memory, Sink, Source};
use mir_top::{complain_of_memory, one_thing_is_due, top};
use std::alloc::Global;
use wanted_table::{text_of_demanded, text_of_wanted};

/// Tables other than those of all passes.
#[derive(Clone, Copy)]
pub(crate) enum Further {
    /// Those of the motion of divisions.
    Divisions,
    /// Those of self tail calls.
    Tails,
    /// Those of joined leaves.
    Join,
    /// Those of the pass that uses bounds.
    Bounds,
    /// Those of the pass that drops unwanted bits.
    Wanted,
    /// Those of the same over units.
    Demanded,
}

/// Writes these tables of the program that is read from the source.
pub(crate) fn further_tables<S: Source, K: Sink, E: Sink>(
    alloc: Global,
    further: Further,
    source: &mut S,
    out: &mut K,
    err: &mut E,
) -> u8
    ensures { TextPromises (kind_from further) (record {
      source = stream_of S.left S.faults source.old source.new;
      out = stream_of K.written K.faults out.old out.new;
      err = stream_of E.written E.faults err.old err.new;
      status = result;
    }) }
{
    match division_words(alloc) {
        Ok(asked) => tables_of_text(alloc, further, &asked, source, out, err),
        Err(_) => complain_of_memory(err),
    }
}

/// The words that ask `mir` for the target of the motion of divisions.
fn division_words(alloc: Global) -> Result<Vec<String>, Memory>
    ensures { IfOk result (λ words. AsksFor Divisions (word_bytes words.items)) }
{
    let mut words = Vec::new(alloc);
    words.push(String::from_str(alloc, "divisions")?)?;
    Ok(words)
}

/// Writes these tables, where the words ask for the target of the motion of divisions.
fn tables_of_text<S: Source, K: Sink, E: Sink>(
    alloc: Global,
    further: Further,
    asked: &[String],
    source: &mut S,
    out: &mut K,
    err: &mut E,
) -> u8
    requires { AsksFor Divisions (word_bytes asked.now) }
    ensures { TextPromises (kind_from further) (record {
      source = stream_of S.left S.faults source.old source.new;
      out = stream_of K.written K.faults out.old out.new;
      err = stream_of E.written E.faults err.old err.new;
      status = result;
    }) }
{
    // Has no effect; carries the theorem that of a text either an output is due or a refusal, and never both.
    one_thing_is_due();
    let mut nowhere = FaultlessSink::new();
    let reply = top(alloc, asked, source, &mut nowhere, err);
    match &reply.moved {
        Some(trail) => write_text(text_of(alloc, further, trail), out, err),
        None => reply.status,
    }
}

/// The text of these tables of the program of the trail.
fn text_of(alloc: Global, further: Further, trail: &MoveTrail) -> Result<Vec<u8>, Memory>
    requires { Divides trail.now }
    ensures { IfOk result (λ text. IsTextOf further trail.now text.items) }
{
    match further {
        Further::Divisions => text_of_divisions(alloc, trail),
        Further::Tails => text_of_tails(alloc, &trail.source),
        Further::Join => text_of_joins(alloc, &trail.source),
        Further::Bounds => text_of_bounds(alloc, &trail.source),
        Further::Wanted => text_of_wanted(alloc, &trail.source),
        Further::Demanded => text_of_demanded(alloc, &trail.source),
    }
}
