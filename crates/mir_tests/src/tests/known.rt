// What is known before the nodes of a graph.
ghost use Rattle.std.specs.Prelude.{◌<◌, length};
ghost use Rattle.cond_const.specs.KnownBefore.{AreStatesOf};

use crate::tests::shown::put_var;
use cond_const::{Known, LeastStates};
use flow_graph::Graph;
use mir_base::{Memory, Name};
use std::alloc::Global;
use std::mem;

/// Appends a line for each node of a graph, with what is known of each variable before it, its value or a `?`; or that
/// no run comes to the node.
pub(crate) fn put_all_known(alloc: Global, text: &mut String, graph: &Graph) -> Result<(), Memory> {
    let states = LeastStates::of(alloc, graph)?;
    let put = put_states(alloc, text, graph, &states);
    mem::drop(states);
    put
}

/// Appends the lines of the nodes of a graph, by its states.
fn put_states(
    alloc: Global,
    text: &mut String,
    graph: &Graph,
    states: &LeastStates,
) -> Result<(), Memory>
    requires { AreStatesOf graph.now states.now }
{
    for node in 0..graph.len() {
        put_node(alloc, text, graph, states, node)?;
    }
    Ok(())
}

/// Appends the line of a node.
fn put_node(
    alloc: Global,
    text: &mut String,
    graph: &Graph,
    states: &LeastStates,
    node: usize,
) -> Result<(), Memory>
    requires states { AreStatesOf graph.now states.now }
    requires there { node < length graph.now.nodes }
{
    let known = states.before(alloc, graph, node)?;
    let put = put_line(text, graph.vars(), node, &known);
    mem::drop(known);
    put
}

/// Appends the line of a node before which this is known.
fn put_line(
    text: &mut String,
    vars: &[Name],
    node: usize,
    known: &Option<Vec<Known>>,
) -> Result<(), Memory> {
    write!(text, "{node}")?;
    match known {
        Some(known) => put_known(text, vars, known.as_slice())?,
        None => text.push_str(" not reached")?,
    }
    text.push('\n')
}

/// Appends what is known of each variable.
fn put_known(text: &mut String, vars: &[Name], known: &[Known]) -> Result<(), Memory> {
    for (x, known) in known.iter().enumerate() {
        text.push(' ')?;
        put_var(text, vars, x)?;
        match known {
            Known::Fixed(value) => write!(text, "={value}")?,
            Known::Varying => text.push_str("=?")?,
        }
    }
    Ok(())
}
