// The graph in which the assignments have sunk, written in one pass: first the old nodes, then what is inserted.
ghost use Rattle.std.specs.Prelude.{◌≡◌, ◌+◌, ◌^◌, ◌<◌, ◌++◌, length, map, slice_get, IfOk, OnOk};
ghost use Rattle.flow_graph.specs.Edges.{IsSplit};
ghost use Rattle.flow_graph.specs.Graphs.{AllWithin, SuccsBelow};
ghost use Rattle.sink_code.specs.Puts.{ArePutsOf};
ghost use Rattle.sink_code.specs.SunkGraphs.{IsSunk};
ghost use Rattle.sink_code.specs.Written.{AllPutBelow, edge_ends, linked, next_or_node, numbers_below, written_nodes, written_old};

use crate::inserting::PutBefore;
use flow_graph::{Graph, Node};
use mir_base::{Items, Memory, divides};
use std::alloc::{AllocError, Global};

/// The graph whose occurrences of patterns are Skips, and before whose nodes stand these insertions, which are in order.
/// It fails only with `Memory`.
pub(crate) fn written(alloc: Global, graph: &Graph, puts: &[PutBefore]) -> Result<Graph, Memory>
    requires split { IsSplit graph.now.nodes }
    requires puts { ArePutsOf graph.now puts.now }
    ensures { IfOk result (IsSunk graph.now) }
{
    let nodes = written_nodes(alloc, graph.nodes(), puts)?;
    let name = graph.name().clone()?;
    let extra = Vec::new(alloc);
    let vars = graph.shared_names().with(alloc, extra)?;
    let received = Vec::from_slice(alloc, graph.received())?;
    let shared = graph.shared();
    let received = Items::of(received);
    Ok(Graph::of_parts(alloc, name, shared, vars, received, nodes))
}

/// The nodes of that graph: the old ones keep their numbers, and the insertions get the next ones in their order.
fn written_nodes(alloc: Global, nodes: &[Node], puts: &[PutBefore]) -> Result<Vec<Node>, Memory>
    requires within { AllWithin nodes.now }
    requires puts { AllPutBelow (length nodes.now) puts.now }
    ensures { IfOk result (λ written. written.items ≡ written_nodes puts.now nodes.now) }
{
    let Some(total) = nodes.len().checked_add(puts.len()) else {
        return Err(AllocError);
    };
    let to = edge_ends(alloc, nodes.len(), puts)?;
    let mut written = Vec::with_capacity(alloc, total)?;
    push_old(&mut written, nodes, to.as_slice())?;
    push_inserted(&mut written, nodes.len(), puts)?;
    Ok(written)
}

/// Where the edges to each of the old nodes lead: to the first insertion before it, where there is one.
fn edge_ends(alloc: Global, olds: usize, puts: &[PutBefore]) -> Result<Vec<usize>, Memory>
    requires room { olds + length puts.now < 2 ^ 64 }
    requires puts { AllPutBelow olds puts.now }
    ensures { IfOk result (λ to. to.items ≡ edge_ends (numbers_below olds) olds puts.now) }
{
    let mut to = numbers_below(alloc, olds)?;
    for back in 0..puts.len() {
        let index = puts.len() - 1 - back;
        to[puts[index].node] = olds + index;
    }
    Ok(to)
}

/// The numbers below this one.
fn numbers_below(alloc: Global, end: usize) -> Result<Vec<usize>, Memory>
    ensures { IfOk result (λ numbers. numbers.items ≡ numbers_below end) }
{
    let mut numbers = Vec::with_capacity(alloc, end)?;
    for number in 0..end {
        numbers.push(number)?;
    }
    Ok(numbers)
}

/// Adds the old nodes.
fn push_old(written: &mut Vec<Node>, nodes: &[Node], to: &[usize]) -> Result<(), Memory>
    requires within { AllWithin nodes.now }
    requires to { length to.now ≡ length nodes.now }
    ensures { OnOk result (written.new.items ≡
        written.old.items ++ map (written_old to.now) nodes.now) }
{
    for node in nodes {
        written.push(written_old(node, to)?)?;
    }
    Ok(())
}

/// An old node as it is written: a Skip in the place of an occurrence, and with its edges led to the insertions before
/// their targets.
fn written_old(node: &Node, to: &[usize]) -> Result<Node, Memory>
    requires { SuccsBelow (length to.now) node.now }
    ensures { IfOk result (λ written. written ≡ written_old to.now node.now) }
{
    Ok(match node {
        Node::Start(next) => Node::Start(to[*next]),
        Node::Skip(next) => Node::Skip(to[*next]),
        Node::Assign(x, rhs, next) => {
            if divides(rhs) {
                Node::Assign(*x, *rhs, to[*next])
            } else {
                Node::Skip(to[*next])
            }
        }
        Node::Print(a, next) => Node::Print(*a, to[*next]),
        Node::Guard(test, number, next) => Node::Guard(*test, *number, to[*next]),
        Node::Call(into, unit, args, next) => Node::Call(*into, *unit, args.clone()?, to[*next]),
        Node::Test(test, taken, other) => Node::Test(*test, to[*taken], to[*other]),
        Node::Return(a) => Node::Return(*a),
    })
}

/// Adds the nodes of the insertions. The first has the number `olds`.
fn push_inserted(written: &mut Vec<Node>, olds: usize, puts: &[PutBefore]) -> Result<(), Memory>
    requires { olds + length puts.now < 2 ^ 64 }
    ensures { OnOk result (written.new.items ≡ written.old.items ++ linked olds puts.now) }
{
    for index in 0..puts.len() {
        let put = &puts[index];
        let next = next_or_node(puts, index + 1, put.node, olds + index + 1);
        written.push(Node::Assign(put.var, put.rhs, next))?;
    }
    Ok(())
}

/// Where an insertion before this node leads: to the one at index `later`, whose number this is, where that one is
/// before the same node, and else to the node.
fn next_or_node(puts: &[PutBefore], later: usize, node: usize, number: usize) -> usize
    ensures { result ≡ next_or_node node number (slice_get puts.now later) }
{
    match puts.get(later) {
        Some(put) => { if put.node == node { number } else { node } }
        None => node,
    }
}
