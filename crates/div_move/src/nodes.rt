// What is asked of single nodes.
ghost use Rattle.std.specs.Prelude.{◌≡◌, ◌<◌, length};
ghost use Rattle.div_move.specs.MustCome.{halts};
ghost use Rattle.div_move.specs.SlotFlow.{lacks_at, leads_at};

use flow_graph::{Graph, Node};
use mir_base::divides;

/// Whether no division is evaluated before the node for what comes after it: the node can be observed, or divides.
pub(crate) fn halts(node: &Node) -> bool
    ensures { result ≡ halts node.now }
{
    match node {
        Node::Start(_) => false,
        Node::Skip(_) => false,
        Node::Assign(_, rhs, _) => divides(rhs),
        Node::Print(_, _) => true,
        Node::Guard(_, _, _) => true,
        Node::Call(_, _, _, _) => true,
        Node::Test(_, _, _) => false,
        Node::Return(_) => true,
    }
}

/// Whether the successor of a node in this slot is `to`; false where it has no such slot.
pub(crate) fn leads(graph: &Graph, node: usize, slot: usize, to: usize) -> bool
    requires { node < length graph.now.nodes }
    ensures { result ≡ leads_at graph.now.nodes node slot to }
{
    let succs = graph.succs(node);
    match succs.as_slice().get(slot) {
        None => false,
        Some(s) => *s == to,
    }
}

/// Whether a node does not have this slot.
pub(crate) fn lacks(graph: &Graph, node: usize, slot: usize) -> bool
    requires { node < length graph.now.nodes }
    ensures { result ≡ lacks_at graph.now.nodes node slot }
{
    let succs = graph.succs(node);
    match succs.as_slice().get(slot) {
        None => true,
        Some(_) => false,
    }
}
