// Kinds of nodes.
ghost use Rattle.std.specs.Prelude.{◌≡◌, Some};
ghost use Rattle.graph_edit.specs.NodeKinds.{is_skip, touches_none};

use flow_graph::Node;

/// Whether a node is a Skip. It does not allocate.
pub fn is_skip(node: &Node) -> bool
    ensures { result ≡ is_skip (Some node.now) }
{
    match node {
        Node::Start(_) => false,
        Node::Skip(_) => true,
        Node::Assign(_, _, _) => false,
        Node::Print(_, _) => false,
        Node::Guard(_, _, _) => false,
        Node::Call(_, _, _, _) => false,
        Node::Test(_, _, _) => false,
        Node::Return(_) => false,
    }
}

/// Whether a node is Start or a Skip, which read and assign no variable, so that an analysis need not look at it. It
/// does not allocate.
pub fn touches_none(node: &Node) -> bool
    ensures { result ≡ touches_none node.now }
{
    match node {
        Node::Start(_) => true,
        Node::Skip(_) => true,
        Node::Assign(_, _, _) => false,
        Node::Print(_, _) => false,
        Node::Guard(_, _, _) => false,
        Node::Call(_, _, _, _) => false,
        Node::Test(_, _, _) => false,
        Node::Return(_) => false,
    }
}
