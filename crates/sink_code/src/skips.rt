// Skips that an assignment passes on its way to the node that blocks it.
ghost use Rattle.std.specs.Prelude.{◌≡◌, ◌<◌, List, Some, length, IfSome};
ghost use Rattle.flow_graph.specs.declared.nodes.Node.{Node};
ghost use Rattle.flow_graph.specs.Edges.{edges_of};
ghost use Rattle.flow_graph.specs.Graphs.{AllWithin, SuccsBelow};
ghost use Rattle.sink_code.specs.Skips.{LeadsTo, entered_once, skip_on, skip_over};

use flow_graph::{Edges, Node};

/// The node to which Skips lead on from this one: it is no Skip, or its successor is entered by other edges too.
/// `edges` are those of the nodes.
pub(crate) fn stop_after(nodes: &[Node], edges: &Edges, first: usize) -> usize
    requires edges { edges.now ≡ edges_of nodes.now }
    requires within { AllWithin nodes.now }
    requires first { first < length nodes.now }
    ensures leads { LeadsTo nodes.now first result }
    ensures within { result < length nodes.now }
{
    let mut at = first;
    for _ in 0..nodes.len() {
        match skip_on(nodes, edges, at) {
            Some(next) => at = next,
            None => return at,
        }
    }
    at
}

/// The node after this one, where this one is a Skip and no other edge leads there. `edges` are those of the nodes.
pub(crate) fn skip_on(nodes: &[Node], edges: &Edges, at: usize) -> Option<usize>
    requires edges { edges.now ≡ edges_of nodes.now }
    requires within { AllWithin nodes.now }
    requires at { at < length nodes.now }
    ensures next { result ≡ skip_on nodes.now at }
    ensures within { IfSome result (λ next. next < length nodes.now) }
{
    skip_over(edges, &nodes[at])
}

/// The node after this one, where this one is a Skip and no other edge leads there.
fn skip_over(edges: &Edges, node: &Node) -> Option<usize>
    requires { SuccsBelow edges.now.nodes node.now }
    ensures next { (nodes : List Node) → edges.now ≡ edges_of nodes →
        result ≡ skip_over nodes (Some node.now) }
    ensures within { IfSome result (λ next. next < edges.now.nodes) }
{
    match node {
        Node::Start(_) => None,
        Node::Skip(next) => entered_once(edges, *next),
        Node::Assign(_, _, _) => None,
        Node::Print(_, _) => None,
        Node::Guard(_, _, _) => None,
        Node::Call(_, _, _, _) => None,
        Node::Test(_, _, _) => None,
        Node::Return(_) => None,
    }
}

/// This node, where one edge alone enters it.
fn entered_once(edges: &Edges, node: usize) -> Option<usize>
    requires { node < edges.now.nodes }
    ensures once { (nodes : List Node) →
        edges.now ≡ edges_of nodes → result ≡ entered_once nodes node }
    ensures within { IfSome result (λ next. next < edges.now.nodes) }
{
    if edges.preds(node).len() == 1 {
        Some(node)
    } else {
        None
    }
}
