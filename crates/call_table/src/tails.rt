// The tables of self tail calls. Each function fails only with `Memory`.
ghost use Rattle.std.specs.Prelude.{IfOk, length};
ghost use Rattle.mir_base.specs.Appending.{AppendsOnOk};
ghost use Rattle.table_text.specs.Lines.{names_of_units};
ghost use Rattle.tail_loop.specs.Tails.{Tailed};
ghost use Rattle.call_table.specs.Tails.{ShowsTails, TellsCalls, tail_line, tails_below, entry_line, position_text};

use flow_graph::Graph;
use mir_base::{Memory, Program, Unit as MirUnit};
use program_pass::PassSteps;
use std::alloc::Global;
use table_text::{PassTable, put_count, put_field, put_unit_field, text_of_pass};
use tail_loop::{CallPosition, Position, call_positions, tail_steps};

/// The tables of `tails`: for each unit of a program how each call stands, and the graphs on the way to loops. It fails
/// only with `Memory`.
pub fn text_of_tails(alloc: Global, program: &Program) -> Result<Vec<u8>, Memory>
    ensures { IfOk result (λ text. ShowsTails program.now text.items) }
{
    let text = text_of_pass(alloc, program, b"tails", &TailsPass)?;
    Ok(text)
}

/// The pass that makes loops of self tail calls, with how the calls of a graph stand.
#[derive(Clone, Copy)]
struct TailsPass;

impl PassTable for TailsPass {
    ghost exact = { λ table. Tailed };

    ghost finds = { λ table. TellsCalls };

    fn steps(&self, alloc: Global, program: &Program, number: usize) -> Result<PassSteps, Memory> {
        let steps = tail_steps(alloc, program, number)?;
        Ok(steps)
    }

    fn put_found(
        &self,
        alloc: Global,
        text: &mut Vec<u8>,
        units: &[MirUnit],
        number: usize,
        graph: &Graph,
    ) -> Result<(), Memory> {
        let calls = call_positions(alloc, graph, number)?;
        put_calls(text, units, calls.as_slice())?;
        Ok(())
    }
}

/// Appends a line for each node that is a call.
fn put_calls(
    text: &mut Vec<u8>,
    units: &[MirUnit],
    calls: &[Option<CallPosition>],
) -> Result<(), Memory>
    ensures { AppendsOnOk result text.old text.new
        (tails_below (names_of_units units.now) calls.now (length calls.now)) }
{
    for node in 0..calls.len() {
        let entry = &calls[node];
        put_entry(text, units, node, entry)?;
    }
    Ok(())
}

/// Appends the line of a node, where it is a call.
fn put_entry(
    text: &mut Vec<u8>,
    units: &[MirUnit],
    node: usize,
    entry: &Option<CallPosition>,
) -> Result<(), Memory>
    ensures { AppendsOnOk result text.old text.new
        (entry_line (names_of_units units.now) node entry.now) }
{
    match entry {
        None => Ok(()),
        Some(call) => put_call(text, units, node, *call),
    }
}

/// Appends the line of a call.
fn put_call(
    text: &mut Vec<u8>,
    units: &[MirUnit],
    node: usize,
    call: CallPosition,
) -> Result<(), Memory>
    ensures { AppendsOnOk result text.old text.new
        (tail_line (names_of_units units.now) node call) }
{
    text.extend_from_slice(b"call")?;
    put_count(text, node)?;
    put_unit_field(text, units, call.unit)?;
    put_position(text, call.position)?;
    text.extend_from_slice(b"\n")
}

/// Appends how a call stands.
fn put_position(text: &mut Vec<u8>, position: Position) -> Result<(), Memory>
    ensures { AppendsOnOk result text.old text.new (position_text position) }
{
    match position {
        Position::Loop => put_field(text, b"loop"),
        Position::Tail => put_field(text, b"tail"),
        Position::Dropped => put_field(text, b"dropped"),
        Position::Global => put_field(text, b"global"),
        Position::Then(node) => {
            text.extend_from_slice(b" then")?;
            put_count(text, node)
        }
    }
}
