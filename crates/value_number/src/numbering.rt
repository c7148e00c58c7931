// The graph in which a variable is read in the place of a right side whose value it has.
ghost use Rattle.std.specs.Prelude.{◌≡◌, length, IfOk};
ghost use Rattle.flow_graph.specs.Passes.{GraphDividesUnchanged, GraphKeeps};
ghost use Rattle.value_number.specs.Numbered.{BecomeNumbered, IsNumbered, IsOnlyNumbered, KeepsEdges, numbered_node};

use crate::walk::holders;
use flow_graph::{Graph, Node};
use mir_base::{Memory, Operand, Rhs};
use std::alloc::Global;

/// The numbered graph. Before each node each variable has a term: a tree of operators, whose leaves are constants, the
/// values that variables have before the last root (Start, or a node that more than one edge enters), and the values
/// that divisions and calls give. An assignment gives its variable the term of its right side. A division gives its
/// variable a leaf of its own, and so does a call each global and the variable of its result. Each movable right side
/// whose term some variable has before the node becomes the least-numbered such variable. All of this is decided on the
/// graph as it was.
///
/// Nodes, variables and successors keep their numbers; nothing but such right sides changes. The graph does the same
/// and evaluates no more operators. It fails only with `Memory`.
pub fn number(alloc: Global, graph: &Graph) -> Result<Graph, Memory>
    ensures numbered { IfOk result (IsNumbered graph.now) }

    // there is no other such graph
    ensures only { IfOk result (IsOnlyNumbered graph.now) }

    // it has the name of the graph, does the same, evaluates no more operators, and makes no other calls
    ensures keeps { IfOk result (GraphKeeps graph.now) }

    // each dividing assignment stays as it is, with its operands
    ensures divides { IfOk result (GraphDividesUnchanged graph.now) }

    // each node has the successors that it had, and a split graph stays split
    ensures edges { IfOk result (KeepsEdges graph.now) }
{
    let holders = holders(alloc, graph)?;
    let nodes = numbered_nodes(alloc, graph.nodes(), holders.as_slice())?;
    let numbered = graph.with_nodes(alloc, nodes)?;
    Ok(numbered)
}

/// The nodes, each with its holder in the place of its right side, where it has one.
fn numbered_nodes(
    alloc: Global,
    nodes: &[Node],
    holders: &[Option<usize>],
) -> Result<Vec<Node>, Memory>
    requires { length holders.now ≡ length nodes.now }
    ensures { IfOk result (λ numbered. BecomeNumbered nodes.now holders.now numbered.items) }
{
    let mut numbered = Vec::with_capacity(alloc, nodes.len())?;
    for n in 0..nodes.len() {
        numbered.push(numbered_node(&nodes[n], holders[n])?)?;
    }
    Ok(numbered)
}

/// The node, which assigns the holder where there is one.
fn numbered_node(node: &Node, holder: Option<usize>) -> Result<Node, Memory>
    ensures { IfOk result (λ numbered. numbered ≡ numbered_node node.now holder) }
{
    match (node, holder) {
        (Node::Assign(x, _, next), Some(v)) => {
            Ok(Node::Assign(*x, Rhs::Plain(Operand::Var(v)), *next))
        }
        _ => Ok(node.clone()?),
    }
}
