// Graphs with clean jumps.
ghost use Rattle.std.specs.Prelude.{◌≡◌, ◌↔◌, false, length, map, IfOk};
ghost use Rattle.flow_graph.specs.Edges.{edges_of};
ghost use Rattle.flow_graph.specs.Graphs.{AllWithin};
ghost use Rattle.flow_graph.specs.Retained.{redirected_by};
ghost use Rattle.flow_graph.specs.Passes.{GraphDividesUnchanged, GraphKeeps};
ghost use Rattle.jump_clean.specs.Cleaned.{AreCleaned, HasCleanJumps, IsClean, IsOnlyClean};
ghost use Rattle.jump_clean.specs.Parting.{AreJumpEdges, AreParts, AreCleanParts};
ghost use Rattle.jump_clean.specs.Reductions.{AreReduced, HaveNoJumps, is_jump};

use crate::chains::ends;
use crate::reducing::reduce_all;
use flow_graph::{Edges, Graph, Node, redirect};
use mir_base::{Items, Memory, Operand};
use std::alloc::Global;

/// The graph with clean jumps. The end of a chain is found by following Skips from a node: the first node that is no
/// Skip, or, where the Skips run in a circle, the least-numbered Skip of that circle. While there is a Test whose two
/// successors have the same end of chain, it becomes a Skip to its `taken`; the order of these changes does not matter
/// (`specs/CleanLaws.antt`). Then each successor is replaced by its end of chain, and the nodes that are not reached
/// are dropped. So each Skip that is left is its own successor: a circle of Skips stays as its least-numbered one.
///
/// The graph does the same and evaluates no more operators. The time is that of the nodes times the logarithm of their
/// number: a node moves from one class to another at most that often. It fails only with `Memory`.
pub fn clean(alloc: Global, graph: &Graph) -> Result<Graph, Memory>
    ensures clean { IfOk result (IsClean graph.now) }

    // there is no other such graph: the order in which Tests become Skips does not matter
    ensures only { IfOk result (IsOnlyClean graph.now) }
    ensures jumps { IfOk result (λ cleaned. HasCleanJumps cleaned.nodes) }

    // it has the name of the graph, does the same, evaluates no more operators, and makes no other calls
    ensures keeps { IfOk result (GraphKeeps graph.now) }

    // each dividing assignment stays as it is, with its operands
    ensures divides { IfOk result (GraphDividesUnchanged graph.now) }
{
    let copy = copied(alloc, graph)?;
    let cleaned = into_clean(alloc, copy)?;
    Ok(cleaned)
}

/// The graph with clean jumps, as `clean` makes it, of a graph that is let go: its nodes do not stand in memory twice.
/// It fails only with `Memory`.
pub fn into_clean(alloc: Global, graph: Graph) -> Result<Graph, Memory>
    ensures clean { IfOk result (IsClean graph) }
    ensures only { IfOk result (IsOnlyClean graph) }
    ensures jumps { IfOk result (λ cleaned. HasCleanJumps cleaned.nodes) }
    ensures keeps { IfOk result (GraphKeeps graph) }
    ensures divides { IfOk result (GraphDividesUnchanged graph) }
{
    let _nodes = graph.nodes();
    let parted = clean_parts(alloc, graph)?;
    let InParts { frame, nodes } = parted;
    let cleaned = frame.with_nodes(alloc, nodes)?;
    Ok(cleaned)
}

/// The nodes of a graph, and a graph of two nodes that has all else of it.
#[derive(Drop)]
pub(crate) struct InParts {
    pub(crate) frame: Graph,
    pub(crate) nodes: Vec<Node>,
}

/// The cleaned nodes of a graph, and a graph that has all else of it. The edges are let go with the call.
fn clean_parts(alloc: Global, graph: Graph) -> Result<InParts, Memory>
    ensures { IfOk result (AreCleanParts graph) }
{
    let _nodes = graph.nodes();
    let edges = jump_edges(alloc, &graph)?;
    let whole = parts_of(alloc, graph)?;
    let InParts { frame, nodes } = whole;
    let nodes = cleaned(alloc, edges, nodes)?;
    Ok(InParts { frame, nodes })
}

/// The nodes of a graph as they are, and a graph that has all else of it.
fn parts_of(alloc: Global, graph: Graph) -> Result<InParts, Memory>
    ensures { IfOk result (AreParts graph) }
{
    let mut two = Vec::with_capacity(alloc, 2)?;
    two.push_reserved(Node::Start(1));
    two.push_reserved(Node::Return(Operand::Const(0)));
    let parts = graph.into_parts();
    let frame = Graph::of_parts(
        alloc,
        parts.name,
        parts.shared,
        parts.vars,
        parts.received,
        two,
    );
    Ok(InParts {
        frame,
        nodes: parts.nodes,
    })
}

/// The edges of a graph, where one of its nodes is a jump.
fn jump_edges(alloc: Global, graph: &Graph) -> Result<Option<Edges>, Memory>
    ensures { IfOk result (AreJumpEdges graph.now.nodes) }
{
    let nodes = graph.nodes();
    if any_jump(nodes) {
        let edges = Edges::of(alloc, graph)?;
        Ok(Some(edges))
    } else {
        Ok(None)
    }
}

/// The nodes, of which tests that make no difference have become Skips and successors ends of chain. Where no node is a
/// jump, they have no edges here and stay as they are.
fn cleaned(alloc: Global, edges: Option<Edges>, nodes: Vec<Node>) -> Result<Vec<Node>, Memory>
    requires within { AllWithin nodes.items }
    requires edges { AreJumpEdges nodes.items edges }
    ensures { IfOk result (λ cleaned. AreCleaned nodes.items cleaned.items) }
{
    match edges {
        Some(edges) => changed(alloc, edges, nodes),
        None => Ok(nodes),
    }
}

/// The nodes, of which tests that make no difference have become Skips and successors ends of chain, also where some
/// node is a jump.
fn changed(alloc: Global, edges: Edges, nodes: Vec<Node>) -> Result<Vec<Node>, Memory>
    requires within { AllWithin nodes.items }
    requires edges { edges ≡ edges_of nodes.items }
    ensures { IfOk result (λ cleaned. AreCleaned nodes.items cleaned.items) }
{
    let reduced = reduced(alloc, edges, nodes)?;
    let ends = ends(alloc, reduced.as_slice())?;
    let cleaned = redirect_all(alloc, reduced, ends.as_slice())?;
    Ok(cleaned)
}

/// The nodes, of which tests that make no difference have become Skips. Their edges are let go.
fn reduced(alloc: Global, edges: Edges, nodes: Vec<Node>) -> Result<Vec<Node>, Memory>
    requires within { AllWithin nodes.items }
    requires edges { edges ≡ edges_of nodes.items }
    ensures { IfOk result (λ reduced. AreReduced nodes.items reduced.items) }
{
    let reduced = reduce_all(alloc, &edges, nodes)?;
    Ok(reduced)
}

/// Tells whether one of the nodes is a jump.
fn any_jump(nodes: &[Node]) -> bool
    ensures { (result ≡ false) ↔ HaveNoJumps nodes.now }
{
    for n in 0..nodes.len() {
        if is_jump(&nodes[n]) {
            return true;
        }
    }
    false
}

/// Tells whether a node is a Skip, or a Test with one node for both successors.
fn is_jump(node: &Node) -> bool
    ensures { result ≡ is_jump node.now }
{
    match node {
        Node::Skip(_) => true,
        Node::Test(_, taken, other) => *taken == *other,
        _ => false,
    }
}

/// A copy of a graph.
fn copied(alloc: Global, graph: &Graph) -> Result<Graph, Memory>
    ensures { IfOk result (λ copy. copy ≡ graph.now) }
{
    let nodes = copied_nodes(alloc, graph.nodes())?;
    let name = graph.name().clone()?;
    let extra = Vec::new(alloc);
    let vars = graph.shared_names().with(alloc, extra)?;
    let received = Vec::from_slice(alloc, graph.received())?;
    let shared = graph.shared();
    let received = Items::of(received);
    Ok(Graph::of_parts(alloc, name, shared, vars, received, nodes))
}

/// A copy of the nodes.
fn copied_nodes(alloc: Global, nodes: &[Node]) -> Result<Vec<Node>, Memory>
    ensures { IfOk result (λ copied. copied.items ≡ nodes.now) }
{
    let mut copied = Vec::with_capacity(alloc, nodes.len())?;
    for node in nodes {
        copied.push(node.clone()?)?;
    }
    Ok(copied)
}

/// The nodes with other numbers for their successors.
fn redirect_all(alloc: Global, nodes: Vec<Node>, to: &[usize]) -> Result<Vec<Node>, Memory>
    requires within { AllWithin nodes.items }
    requires long { length to.now ≡ length nodes.items }
    ensures { IfOk result (λ made. made.items ≡ map (redirected_by to.now) nodes.items) }
{
    let mut redirected = Vec::with_capacity(alloc, nodes.len())?;
    for node in nodes {
        redirected.push(redirect(node, to))?;
    }
    Ok(redirected)
}
