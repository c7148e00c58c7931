// The removal of dead assignments.
ghost use Rattle.std.specs.Prelude.{◌≡◌, ◌↔◌, false, IfOk};
ghost use Rattle.flow_graph.specs.Edges.{IsSplit};
ghost use Rattle.flow_graph.specs.Passes.{GraphDividesUnchanged, GraphKeeps};
ghost use Rattle.dead_code.specs.Dead.{NoneFlagged};
ghost use Rattle.graph_edit.specs.GraphFlows.{IsFlowOf};
ghost use Rattle.graph_edit.specs.NoMore.{HasNoMore};
ghost use Rattle.dead_code.specs.Pruned.{IsPruned};

use crate::dead::dead_nodes;
use flow_graph::Graph;
use graph_edit::{GraphFlow, without_flagged};
use mir_base::Memory;
use std::alloc::Global;

/// The graph in which each dead assignment is a Skip with the same successor: one whose right side is plain or movable
/// and whose variable is not live after it. A variable is live after a node where some path from a successor of the
/// node comes to a node that reads it, with no node before that one assigning it. All else is as it was. A graph with
/// no dead assignment is given back as it is. `flow` has the graph's edges and blocks, which are also those of the graph
/// that is made. It fails only with `Memory`.
pub fn pruned(alloc: Global, graph: Graph, flow: &GraphFlow) -> Result<Graph, Memory>
    requires { IsFlowOf graph.nodes flow.now }
    ensures exact { IfOk result (IsPruned graph) }
    ensures keeps { IfOk result (GraphKeeps graph) }
    ensures split { IfOk result (λ pruned. IsSplit graph.nodes → IsSplit pruned.nodes) }

    // each dividing assignment stays, with its operands
    ensures divides { IfOk result (GraphDividesUnchanged graph) }

    // and no assignment stands on a path more often than before
    ensures no_more { IfOk result (HasNoMore graph) }

    // a node has the successors that it had
    ensures flow { IfOk result (λ pruned. IsFlowOf pruned.nodes flow.now) }
{
    let _nodes = graph.nodes();
    let dead = dead_nodes(alloc, &graph, flow)?;
    let flags = dead.as_slice();
    if has_dead(flags) {
        let pruned = without_flagged(alloc, graph, flags);
        Ok(pruned)
    } else {
        Ok(graph)
    }
}

/// Whether some node is flagged.
fn has_dead(dead: &[bool]) -> bool
    ensures { (result ≡ false) ↔ NoneFlagged dead.now }
{
    for flag in dead {
        if *flag {
            return true;
        }
    }
    false
}
