// The graph in which the assignments have sunk.
ghost use Rattle.std.specs.Prelude.{IfOk, OnOk};
ghost use Rattle.flow_graph.specs.Edges.{IsSplit};
ghost use Rattle.flow_graph.specs.Graphs.{IsGraph};
ghost use Rattle.graph_edit.specs.GraphFlows.{IsFlowOf};
ghost use Rattle.sink_code.specs.Puts.{ArePutsOf};
ghost use Rattle.sink_code.specs.RoundKept.{RoundKeeps};
ghost use Rattle.sink_code.specs.SunkGraphs.{IsSunk};

use crate::inserting::PutBefore;
use crate::moving::found_puts;
use crate::ordering::in_order;
use crate::writing::written;
use flow_graph::Graph;
use graph_edit::GraphFlow;
use mir_base::Memory;
use std::alloc::Global;

/// The graph in which the plain and movable assignments have sunk. Each occurrence of a pattern becomes a Skip, and
/// before each node, in order of the nodes, stand the patterns that are inserted there, in order of their variables:
/// those that are delayed at the node, and that it blocks or that are not delayed at some successor. The graph is
/// split, and `flow` has its edges and blocks. This is the first half of a round, whose second half removes the dead
/// ones. It fails only with `Memory`.
pub fn sunk(alloc: Global, graph: &Graph, flow: &GraphFlow) -> Result<Graph, Memory>
    requires split { IsSplit graph.now.nodes }
    requires flow { IsFlowOf graph.now.nodes flow.now }
    ensures exact { IfOk result (IsSunk graph.now) }
    ensures keeps { IfOk result (RoundKeeps graph.now) }
{
    let sunk = sunk_graph(alloc, graph, flow)?;
    let _nodes = sunk.nodes();
    Ok(sunk)
}

/// The graph in which the assignments have sunk, of which `sunk` says what follows.
fn sunk_graph(alloc: Global, graph: &Graph, flow: &GraphFlow) -> Result<Graph, Memory>
    requires split { IsSplit graph.now.nodes }
    requires flow { IsFlowOf graph.now.nodes flow.now }
    ensures graph { OnOk result (IsGraph graph.now.vars graph.now.received graph.now.nodes) }
    ensures exact { IfOk result (IsSunk graph.now) }
{
    let puts = insertions(alloc, graph, flow)?;
    let sunk = written(alloc, graph, puts.as_slice())?;
    Ok(sunk)
}

/// What is inserted before the nodes of a graph. It is found block by block: rows have a bit for each pattern that
/// leaves a block.
fn insertions(alloc: Global, graph: &Graph, flow: &GraphFlow) -> Result<Vec<PutBefore>, Memory>
    requires split { IsSplit graph.now.nodes }
    requires flow { IsFlowOf graph.now.nodes flow.now }
    ensures graph { OnOk result (IsGraph graph.now.vars graph.now.received graph.now.nodes) }
    ensures puts { IfOk result (λ puts. ArePutsOf graph.now puts.items) }
{
    let _nodes = graph.nodes();
    let found = found_puts(alloc, graph, &flow.edges, &flow.blocks)?;
    let puts = in_order(alloc, found)?;
    Ok(puts)
}
