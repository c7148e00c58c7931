// Split graphs, in which new nodes can be put on every edge that needs one.
ghost use Rattle.std.specs.Prelude.{◌≡◌, ℕ, ◌<◌, ◌↔◌, length, slice_get, IsTrue, Some};
ghost use Rattle.flow_graph.specs.Edges.{edges_of, IsSplit, is_skip_to, all_skips, enters_well};
ghost use Rattle.mir_base.specs.Shapes.{AllBelow};

use crate::{Edges, Graph, Node};

/// Whether the graph is split: each node with more than one entering edge is entered only from Skips, each of which
/// enters it once. `edges` are those of `graph`. It does not allocate.
pub fn is_split(graph: &Graph, edges: &Edges) -> bool
    requires { edges.now ≡ edges_of graph.now.nodes }
    ensures { IsTrue result ↔ IsSplit graph.now.nodes }
{
    all_enter_well(graph.nodes(), edges)
}

/// Whether each node is entered at most once, or by Skips alone.
fn all_enter_well(nodes: &[Node], edges: &Edges) -> bool
    requires { edges.now ≡ edges_of nodes.now }
    ensures { IsTrue result ↔ ((s : ℕ) → s < length nodes.now → IsTrue (enters_well nodes.now s)) }
{
    for node in 0..nodes.len() {
        if !enters_well(nodes, edges, node) {
            return false;
        }
    }
    true
}

/// Whether this node is entered at most once, or by Skips alone.
fn enters_well(nodes: &[Node], edges: &Edges, node: usize) -> bool
    requires edges { edges.now ≡ edges_of nodes.now }
    requires there { node < length nodes.now }
    ensures { result ≡ enters_well nodes.now node }
{
    let preds = edges.preds(node);
    if preds.len() > 1 {
        all_skips(nodes, preds, node)
    } else {
        true
    }
}

/// Whether all of these are Skips to this node.
fn all_skips(nodes: &[Node], preds: &[usize], to: usize) -> bool
    requires { AllBelow (length nodes.now) preds.now }
    ensures { result ≡ all_skips nodes.now to preds.now }
{
    for pred in preds {
        if !skips_to(nodes, *pred, to) {
            return false;
        }
    }
    true
}

/// Whether the node of this number is a Skip to the other.
fn skips_to(nodes: &[Node], node: usize, to: usize) -> bool
    requires { node < length nodes.now }
    ensures { result ≡ is_skip_to to (slice_get nodes.now node) }
{
    is_skip_to(&nodes[node], to)
}

/// Whether the node is a Skip to this one.
fn is_skip_to(node: &Node, to: usize) -> bool
    ensures { result ≡ is_skip_to to (Some node.now) }
{
    match node {
        Node::Skip(next) => *next == to,
        _ => false,
    }
}
