// The graph with other nodes in the place of the old ones.
ghost use Rattle.std.specs.Prelude.{◌≡◌, IfOk};
ghost use Rattle.flow_graph.specs.NodeByNode.{IsNodeByNode};
ghost use Rattle.flow_graph.specs.Passes.{GraphKeeps, KeepsSplit, KeepsSuccs};
ghost use Rattle.held_assign.specs.CheapRuns.{RunsAsCheap};
ghost use Rattle.held_assign.specs.InPlace.{CanStandIn, HasNodes};

use flow_graph::{Graph, Node};
use mir_base::Memory;
use std::alloc::Global;

/// The graph with these nodes, each of which leads where the old one of its number does and makes its call, and which do
/// the same in each run and count no more. It fails only with `Memory`.
pub fn made_in_place(alloc: Global, graph: &Graph, nodes: Vec<Node>) -> Result<Graph, Memory>
    requires by { IsNodeByNode graph.now.nodes nodes.items }
    requires can { CanStandIn graph.now nodes.items }
    requires cheap { RunsAsCheap graph.now nodes.items }

    // it has all of them
    ensures made { IfOk result (HasNodes (λ made. made ≡ nodes.items) graph.now) }

    // it has the name of the graph, does the same, evaluates no more operators, and makes no other calls
    ensures keeps { IfOk result (GraphKeeps graph.now) }

    // its edges are those of the graph, so it is split where the graph is
    ensures succs { IfOk result (KeepsSuccs graph.now) }
    ensures split { IfOk result (KeepsSplit graph.now) }
{
    let _nodes = graph.nodes();
    let made = graph.with_nodes(alloc, nodes)?;
    Ok(made)
}
