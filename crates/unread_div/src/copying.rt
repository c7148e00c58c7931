// A copy of a graph.
ghost use Rattle.std.specs.Prelude.{◌≡◌, IfOk};

use flow_graph::{Graph, Node};
use mir_base::Memory;
use std::alloc::Global;

/// A copy of a graph. It fails only with `Memory`.
pub(crate) fn copied(alloc: Global, graph: &Graph) -> Result<Graph, Memory>
    ensures { IfOk result (λ copy. copy ≡ graph.now) }
{
    let nodes = copied_nodes(alloc, graph.nodes())?;
    let copy = graph.with_nodes(alloc, nodes)?;
    Ok(copy)
}

/// A copy of the nodes.
fn copied_nodes(alloc: Global, nodes: &[Node]) -> Result<Vec<Node>, Memory>
    ensures { IfOk result (λ copied. copied.items ≡ nodes.now) }
{
    let mut copied = Vec::with_capacity(alloc, nodes.len())?;
    for node in nodes {
        copied.push(node.clone()?)?;
    }
    Ok(copied)
}
