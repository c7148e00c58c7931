// Where paths end: at Start, or at a Return.
ghost use Rattle.std.specs.Prelude.{◌≡◌, ◌<◌, length, Some};
ghost use Rattle.flow_graph.specs.Paths.{is_return};
ghost use Rattle.path_laws.specs.Seeds.{is_end};

use flow_graph::{Graph, Node};

/// Whether paths end at a node, whatever it stops.
pub(crate) fn is_end(graph: &Graph, against: bool, node: usize) -> bool
    requires { node < length graph.now.nodes }
    ensures { result ≡ is_end against graph.now.nodes node }
{
    if against {
        is_return(graph.node(node))
    } else {
        node == 0
    }
}

/// Whether a node is a Return.
fn is_return(node: &Node) -> bool
    ensures { result ≡ is_return (Some node.now) }
{
    match node {
        Node::Start(_) => false,
        Node::Skip(_) => false,
        Node::Assign(_, _, _) => false,
        Node::Print(_, _) => false,
        Node::Guard(_, _, _) => false,
        Node::Call(_, _, _, _) => false,
        Node::Test(_, _, _) => false,
        Node::Return(_) => true,
    }
}
