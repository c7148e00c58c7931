// Which nodes of a graph call leaves.
ghost use Rattle.std.specs.Prelude.{◌≡◌, ◌↔◌, ◌<◌, IfNone, IfOk, IfSome, IsTrue, None, Some, length};
ghost use Rattle.unit_join.specs.JoinPrograms.{some_unit};
ghost use Rattle.unit_join.specs.Joins.{AreLeafCalls, IsLeafCall, leaf_at, leaf_called};

use crate::leaves::Leaves;
use flow_graph::{Graph, Node};
use mir_base::Memory;
use std::alloc::Global;

/// The graph of the unit of this number, and `None` exactly where the unit is no leaf. It does not allocate.
pub(crate) fn leaf_at(leaves: &Leaves, unit: usize) -> Option<&Graph>
    ensures none { IfNone result (leaf_at leaves.now.units unit ≡ None) }
    ensures some { IfSome result (λ leaf. leaf_at leaves.now.units unit ≡ Some leaf.now) }
{
    match leaves.units.items().get(unit) {
        None => None,
        Some(entry) => match entry {
            None => None,
            Some(leaf) => Some(leaf),
        },
    }
}

/// The number of the unit that the node calls, and `None` where it calls none or one that is no leaf.
pub(crate) fn leaf_called(leaves: &Leaves, node: &Node) -> Option<usize>
    ensures unit { some_unit result ≡ leaf_called leaves.now.units node.now }
    ensures within { IfSome result (λ unit. unit < length leaves.now.units) }
{
    match node {
        Node::Call(_, unit, _, _) => match leaf_at(leaves, *unit) {
            Some(_) => Some(*unit),
            None => None,
        },
        _ => None,
    }
}

/// Whether the node of this number calls a leaf.
fn calls_leaf(leaves: &Leaves, nodes: &[Node], n: usize) -> bool
    requires { n < length nodes.now }
    ensures { IsTrue result ↔ IsLeafCall leaves.now.units nodes.now n }
{
    match leaf_called(leaves, &nodes[n]) {
        None => false,
        Some(_) => true,
    }
}

/// The numbers of the nodes that call leaves, in order.
pub(crate) fn leaf_calls(
    alloc: Global,
    nodes: &[Node],
    leaves: &Leaves,
) -> Result<Vec<usize>, Memory>
    ensures { IfOk result (λ calls. AreLeafCalls leaves.now.units nodes.now calls.items) }
{
    let mut calls = Vec::new(alloc);
    for n in 0..nodes.len() {
        if calls_leaf(leaves, nodes, n) {
            calls.push(n)?;
        }
    }
    Ok(calls)
}
