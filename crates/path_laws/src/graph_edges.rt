// The edges of a graph in the order of a flow.
ghost use Rattle.std.specs.Prelude.{◌≡◌, ◌<◌, length, suc};
ghost use Rattle.flow_graph.specs.FlowEdges.{IsFlowEdge, edges_along, first_among};

use flow_graph::Edges;

/// An edge of the flow by its number, as (from, to): along the edges in order of sources; against them in order of
/// targets, from target to source.
pub(crate) fn flow_edge(edges: &Edges, against: bool, number: usize) -> (usize, usize)
    requires { number < length (edges_along against edges.now) }
    ensures { IsFlowEdge against edges.now number result.0 result.1 }
{
    if against {
        let edge = edges.entering_edge(number);
        (edge.target, edge.source)
    } else {
        let edge = edges.edge(number);
        (edge.source, edge.target)
    }
}

/// The numbers of the edges of the flow that leave a node: from the first answer up to, and not including, the second.
pub(crate) fn leaving(edges: &Edges, against: bool, node: usize) -> (usize, usize)
    requires { node < edges.now.nodes }
    ensures first { result.0 ≡ first_among against edges.now.edges node }
    ensures end { result.1 ≡ first_among against edges.now.edges (suc node) }
{
    if against {
        edges.entering(node)
    } else {
        edges.leaving(node)
    }
}
