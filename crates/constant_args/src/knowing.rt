// The graph of a unit that knows the constants of its arguments.
ghost use Rattle.std.specs.Prelude.{◌≡◌, ◌<◌, ◌++◌, ◌∷◌, [], length, map, slice_index_or, slice_set, IfOk, None, OnOk};
ghost use Rattle.flow_graph.specs.declared.nodes.Node.TheVariants.{Skip, Start};
ghost use Rattle.program_pass.specs.Puts.{insertions};
ghost use Rattle.constant_args.specs.ConstantArguments.{put_behind_start, constant_put, constant_puts};
ghost use Rattle.constant_args.specs.Gathered.{KnowsMade, constant_in};

use crate::states::{ArgumentState, constant_in};
use flow_graph::{Graph, Node};
use mir_base::{Memory, Operand};
use program_pass::{Put, copied_nodes, plain_put, stand, start_succ};
use std::alloc::Global;

/// The graph with the constants that its arguments always are assigned, behind Start, to the variables that receive
/// them. It fails only with `Memory`.
pub(crate) fn knowing(
    alloc: Global,
    graph: &Graph,
    arguments: &[ArgumentState],
) -> Result<Graph, Memory>
    ensures { IfOk result (KnowsMade graph.now (map constant_in arguments.now)) }
{
    let _nodes = graph.nodes();
    let puts = constant_puts(alloc, graph.received(), arguments)?;
    let nodes = put_behind_start(alloc, graph, puts.as_slice())?;
    let known = graph.with_nodes(alloc, nodes)?;
    Ok(known)
}

/// The assignments of the constants that arguments always are to the variables that receive them.
fn constant_puts(
    alloc: Global,
    received: &[usize],
    arguments: &[ArgumentState],
) -> Result<Vec<Put>, Memory>
    ensures { IfOk result (λ puts. insertions puts.items
        ≡ constant_puts received.now (map constant_in arguments.now)) }
{
    let mut puts = Vec::new(alloc);
    for i in 0..received.len() {
        push_put(&mut puts, received[i], constant_at(arguments, i))?;
    }
    Ok(puts)
}

/// The constant that argument `i` always is, where there is one.
fn constant_at(arguments: &[ArgumentState], i: usize) -> Option<i64>
    ensures { result ≡ slice_index_or (map constant_in arguments.now) i None }
{
    match arguments.get(i) {
        Some(state) => constant_in(*state),
        None => None,
    }
}

/// Adds the assignment of a constant, where there is one.
fn push_put(puts: &mut Vec<Put>, var: usize, constant: Option<i64>) -> Result<(), Memory>
    ensures { OnOk result (insertions puts.new.items ≡
        insertions puts.old.items ++ constant_put var constant) }
{
    match constant {
        None => Ok(()),
        Some(value) => {
            puts.push(plain_put(var, Operand::Const(value)))?;
            Ok(())
        }
    }
}

/// The nodes with these assignments behind Start; without any they stay as they are.
fn put_behind_start(alloc: Global, graph: &Graph, puts: &[Put]) -> Result<Vec<Node>, Memory>
    ensures { IfOk result (λ nodes.
        nodes.items ≡ put_behind_start graph.now.nodes (insertions puts.now)) }
{
    let mut nodes = copied_nodes(alloc, graph.nodes())?;
    if !puts.is_empty() {
        let first = nodes.len();
        let end = start_succ(graph);
        open_start(&mut nodes, end)?;
        stand(&mut nodes, first, puts, end)?;
    }
    Ok(nodes)
}

/// Puts a new node between Start and node `end`, to which it leads.
fn open_start(nodes: &mut Vec<Node>, end: usize) -> Result<(), Memory>
    requires { 0 < length nodes.old.items }
    ensures { OnOk result (nodes.new.items ≡
        slice_set nodes.old.items 0 (Start (length nodes.old.items)) ++ Skip end ∷ []) }
{
    nodes[0] = Node::Start(nodes.len());
    nodes.push(Node::Skip(end))?;
    Ok(())
}
