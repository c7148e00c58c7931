// How many bits are wanted before each node of a graph. Each function fails only with `Memory`.
ghost use Rattle.std.specs.Prelude.{◌≡◌, OnOk, length};
ghost use Rattle.mir_base.specs.Appending.{AppendsOnOk};
ghost use Rattle.table_text.specs.Turns.{AppendsSome};
ghost use Rattle.wanted_bits.specs.Asking.{asked_by};
ghost use Rattle.wanted_table.specs.WantedLines.{AreWantedLines, AreWantedLinesBy, entered_line, lines_of, returned_line, row_text, wanted_line};

use flow_graph::Graph;
use mir_base::Memory;
use std::alloc::Global;
use table_text::put_count;
use wanted_bits::{Around, Widths, wanted_before, wanted_before_in};

/// Appends a line for each node, with the wanted bits of each variable before it.
pub(crate) fn put_numbers(alloc: Global, text: &mut Vec<u8>, graph: &Graph) -> Result<(), Memory>
    ensures { OnOk result (AppendsSome (AreWantedLines graph.now) text.old text.new) }
{
    let rows = wanted_before(alloc, graph)?;
    put_each(text, rows.as_slice(), graph.vars().len())?;
    Ok(())
}

/// The same where so many bits are asked for around the unit.
pub(crate) fn put_asked_numbers(
    alloc: Global,
    text: &mut Vec<u8>,
    graph: &Graph,
    around: &Around<'_>,
) -> Result<(), Memory>
    ensures { OnOk result (AppendsSome
        (AreWantedLinesBy (asked_by graph.now.shared around.now) graph.now) text.old text.new) }
{
    let rows = wanted_before_in(alloc, graph, around)?;
    put_each(text, rows.as_slice(), graph.vars().len())?;
    Ok(())
}

/// Appends the line of what is asked for of each global and of each argument where a unit of this graph is entered.
pub(crate) fn put_entered(
    text: &mut Vec<u8>,
    globals: &Widths,
    arguments: &Widths,
    graph: &Graph,
) -> Result<(), Memory>
    ensures { AppendsOnOk result text.old text.new
        (entered_line graph.now.shared (length graph.now.received) globals.now arguments.now) }
{
    text.extend_from_slice(b"entered")?;
    put_row(text, globals, graph.shared())?;
    put_row(text, arguments, graph.received().len())?;
    text.extend_from_slice(b"\n")
}

/// Appends the line of what is asked for of each of so many globals and of its result where a unit returns.
pub(crate) fn put_returned(text: &mut Vec<u8>, back: &Widths, shared: usize) -> Result<(), Memory>
    ensures { AppendsOnOk result text.old text.new (returned_line shared back.now) }
{
    text.extend_from_slice(b"returned")?;
    put_row(text, back, shared)?;
    put_count(text, back.bits_at(shared) as usize)?;
    text.extend_from_slice(b"\n")
}

/// Appends the lines of nodes, before each of which so many bits of so many variables are wanted.
fn put_each(text: &mut Vec<u8>, rows: &[Widths], vars: usize) -> Result<(), Memory>
    ensures { AppendsOnOk result text.old text.new (lines_of vars rows.now (length rows.now)) }
{
    for node in 0..rows.len() {
        put_line(text, node, &rows[node], vars)?;
    }
    Ok(())
}

/// Appends the line of a node before which so many bits are wanted.
fn put_line(text: &mut Vec<u8>, node: usize, row: &Widths, vars: usize) -> Result<(), Memory>
    ensures { AppendsOnOk result text.old text.new (wanted_line vars node row.now) }
{
    text.extend_from_slice(b"wanted")?;
    put_count(text, node)?;
    put_row(text, row, vars)?;
    text.extend_from_slice(b"\n")
}

/// Appends how many bits are wanted of each of so many variables.
fn put_row(text: &mut Vec<u8>, row: &Widths, vars: usize) -> Result<(), Memory>
    ensures { AppendsOnOk result text.old text.new (row_text row.now vars) }
{
    for x in 0..vars {
        put_count(text, row.bits_at(x) as usize)?;
    }
    Ok(())
}
