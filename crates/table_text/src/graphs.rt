// The lines of a graph. Each function appends what it names, and fails only with `Memory`.
ghost use Rattle.std.specs.Prelude.{flat_map};
ghost use Rattle.mir_base.specs.Appending.{AppendsOnOk};
ghost use Rattle.table_text.specs.Lines.{name_field, unit_line, names_of_units};
ghost use Rattle.table_text.specs.Nodes.{globals_text, graph_text, node_lines, stage_text, variables_text};

use crate::fields::{put_count, put_names};
use crate::nodes::put_node;
use crate::operands::put_name;
use flow_graph::Graph;
use mir_base::{Memory, Name, Unit as MirUnit};

/// The line with the name of a unit.
pub fn put_unit(text: &mut Vec<u8>, name: &Name) -> Result<(), Memory>
    ensures { AppendsOnOk result text.old text.new (unit_line name.now) }
{
    text.extend_from_slice(b"unit ")?;
    text.extend_from_slice(name.bytes())?;
    text.extend_from_slice(b"\n")
}

/// The lines of a graph: its variables, and a line for each node. The units are those of the program, which its calls
/// name.
#[inline(never)]
pub fn put_graph(text: &mut Vec<u8>, units: &[MirUnit], graph: &Graph) -> Result<(), Memory>
    ensures { AppendsOnOk result text.old text.new
        (graph_text (names_of_units units.now) graph.now) }
{
    put_globals(text, graph.shared())?;
    put_variables(text, graph.vars(), graph.received())?;
    put_nodes(text, units, graph)
}

/// The name of a stage of a pass, and behind it the lines of the graph that the pass has at this stage.
pub fn put_stage(
    text: &mut Vec<u8>,
    units: &[MirUnit],
    name: &[u8],
    graph: &Graph,
) -> Result<(), Memory>
    ensures { AppendsOnOk result text.old text.new
        (stage_text (names_of_units units.now) name.now graph.now) }
{
    text.extend_from_slice(b"stage ")?;
    text.extend_from_slice(name)?;
    text.extend_from_slice(b"\n")?;
    put_graph(text, units, graph)
}

/// The number of globals.
fn put_globals(text: &mut Vec<u8>, shared: usize) -> Result<(), Memory>
    ensures { AppendsOnOk result text.old text.new (globals_text shared) }
{
    text.extend_from_slice(b"globals")?;
    put_count(text, shared)?;
    text.extend_from_slice(b"\n")
}

/// The names of all variables, and of those that are received.
fn put_variables(text: &mut Vec<u8>, vars: &[Name], received: &[usize]) -> Result<(), Memory>
    ensures { AppendsOnOk result text.old text.new (variables_text vars.now received.now) }
{
    text.extend_from_slice(b"vars")?;
    put_names(text, vars)?;
    text.extend_from_slice(b"\nreceived")?;
    put_received(text, vars, received)?;
    text.extend_from_slice(b"\n")
}

/// The names of the received variables, each behind a blank.
fn put_received(text: &mut Vec<u8>, vars: &[Name], received: &[usize]) -> Result<(), Memory>
    ensures { AppendsOnOk result text.old text.new (flat_map (name_field vars.now) received.now) }
{
    for number in received {
        put_name_field(text, vars, *number)?;
    }
    Ok(())
}

/// The name of this number behind a blank.
fn put_name_field(text: &mut Vec<u8>, vars: &[Name], number: usize) -> Result<(), Memory>
    ensures { AppendsOnOk result text.old text.new (name_field vars.now number) }
{
    text.extend_from_slice(b" ")?;
    put_name(text, vars, number)
}

/// The lines of the nodes.
fn put_nodes(text: &mut Vec<u8>, units: &[MirUnit], graph: &Graph) -> Result<(), Memory>
    ensures { AppendsOnOk result text.old text.new
        (node_lines (names_of_units units.now) graph.now.vars 0 graph.now.nodes) }
{
    let nodes = graph.nodes();
    for (number, node) in nodes.iter().enumerate() {
        put_node(text, units, graph.vars(), number, node)?;
    }
    Ok(())
}
