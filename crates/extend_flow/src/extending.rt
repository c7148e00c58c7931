// The graph in which extensions that change nothing are copies.
ghost use Rattle.std.specs.Prelude.{IfOk};
ghost use Rattle.flow_graph.specs.Passes.{GraphDividesUnchanged, GraphKeeps, KeepsSplit, KeepsSuccs};
ghost use Rattle.extend_flow.specs.Extended.{AreExtended, IsExtended, IsOnlyExtended};

use crate::rewriting::nodes_by_held;
use crate::shifts::PickShifts;
use bounds::Fact;
use cond_flow::states_hold;
use flow_graph::{Graph, Node};
use held_assign::{HeldAssigns, held_values, made_in_place};
use mir_base::Memory;
use std::alloc::Global;

/// The graph in which an extension of a variable that changes nothing is a copy of it. Only assignments
/// `x <- t shra s` and `x <- t shr s` change, before which `t <- a shl s` holds for a variable a and the same constant s
/// from 1 to 63. `shra` extends the lowest 64 - s bits of a with their sign: it becomes `x <- a` where a lies from
/// -2^(63 - s) to 2^(63 - s) - 1. `shr` extends them without a sign: it becomes `x <- a` where a lies from 0 to
/// 2^(64 - s) - 1.
///
/// Where a lies is told by the least bounds before the node, those that `value_bounds` uses; a node to which no run
/// comes by them stays as it is. The assignment `t <- a shl s` holds before a node where a is not t and on every path
/// from Start to the node there is, before the node, such an assignment after which, before the node, no node assigns t
/// or a; a call assigns the globals too. All is decided on the graph as it was, in one step.
///
/// The graph does the same and evaluates no more operators. It fails only with `Memory`.
pub fn extensions(alloc: Global, graph: &Graph) -> Result<Graph, Memory>
    ensures extended { IfOk result (IsExtended graph.now) }

    // there is no other such graph
    ensures only { IfOk result (IsOnlyExtended graph.now) }

    // it has the name of the graph, does the same, evaluates no more operators, and makes no other calls
    ensures keeps { IfOk result (GraphKeeps graph.now) }

    // each dividing assignment stays as it is, with its operands
    ensures divides { IfOk result (GraphDividesUnchanged graph.now) }

    // its edges are those of the graph, so it is split where the graph is
    ensures succs { IfOk result (KeepsSuccs graph.now) }
    ensures split { IfOk result (KeepsSplit graph.now) }
{
    held_values(graph);
    states_hold::<Fact>(graph);
    let nodes = extended_nodes(alloc, graph)?;
    let extended = made_in_place(alloc, graph, nodes)?;
    Ok(extended)
}

/// What the nodes of a graph become. It fails only with `Memory`.
fn extended_nodes(alloc: Global, graph: &Graph) -> Result<Vec<Node>, Memory>
    ensures { IfOk result (λ nodes. AreExtended graph.now nodes.items) }
{
    let held = HeldAssigns::of(alloc, graph, &PickShifts)?;
    let nodes = nodes_by_held(alloc, graph, &held)?;
    Ok(nodes)
}
