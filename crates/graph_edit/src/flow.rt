// The edges and the blocks of a graph, which are kept as long as edits change no edge.
ghost use Rattle.std.specs.Prelude.{IfOk};
ghost use Rattle.graph_edit.specs.GraphFlows.{IsFlowOf};

use flow_graph::{Blocks, Edges, Graph};
use mir_base::Memory;
use std::alloc::Global;

/// The edges and the blocks of a graph. They depend on the successors of its nodes alone, so that one `GraphFlow`
/// serves all graphs whose nodes have the same successors.
#[derive(Drop)]
pub struct GraphFlow {
    /// The edges.
    pub edges: Edges,
    /// The blocks.
    pub blocks: Blocks,
}

impl GraphFlow {
    /// The edges and the blocks of a graph. It fails only with `Memory`.
    pub fn of(alloc: Global, graph: &Graph) -> Result<GraphFlow, Memory>
        ensures { IfOk result (IsFlowOf graph.now.nodes) }
    {
        let edges = Edges::of(alloc, graph)?;
        let blocks = Blocks::of(alloc, graph, &edges)?;
        Ok(GraphFlow { edges, blocks })
    }
}
