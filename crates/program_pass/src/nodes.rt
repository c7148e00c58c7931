// The nodes of a graph that a pass goes on from.
ghost use Rattle.std.specs.Prelude.{◌≡◌, IfOk, slice_get};
ghost use Rattle.flow_graph.specs.Plans.{start_succ};

use flow_graph::{Graph, Node};
use mir_base::Memory;
use std::alloc::Global;

/// Where Start leads. It does not allocate.
pub fn start_succ(graph: &Graph) -> usize
    ensures { result ≡ start_succ (slice_get graph.now.nodes 0) }
{
    let nodes = graph.nodes();
    match nodes.first() {
        Some(Node::Start(next)) => *next,
        _ => 0,
    }
}

/// A copy of the nodes. It fails only with `Memory`.
pub fn copied_nodes(alloc: Global, nodes: &[Node]) -> Result<Vec<Node>, Memory>
    ensures { IfOk result (λ copied. copied.items ≡ nodes.now) }
{
    let mut copied = Vec::with_capacity(alloc, nodes.len())?;
    for node in nodes {
        copied.push(node.clone()?)?;
    }
    Ok(copied)
}
