// How the calls of a graph stand: which are in tail position, and why the others are not.
ghost use Rattle.std.specs.Prelude.{◌≡◌, ◌<◌, IfOk, Some, length, slice_get, slice_index_or};
ghost use Rattle.flow_graph.specs.Graphs.{AllWithin};
ghost use Rattle.jump_clean.specs.Chains.{AreEnds};
ghost use Rattle.tail_loop.specs.Positions.{AreCallPositions, EachCallPosition, HasPosition, IsCallPosition, called_at, called_unit, other_position, tail_position};

use crate::calls::is_tail_call;
use flow_graph::{Graph, Node};
use jump_clean::ends;
use mir_base::Memory;
use std::alloc::Global;

/// How a call stands in the graph of a unit.
#[derive(Clone, Copy, Debug, PartialEq, Eq)]
pub enum Position {
    /// It calls the unit itself, and its answer is returned next: a self tail call.
    Loop,
    /// It calls another unit, and its answer is returned next.
    Tail,
    /// Its answer goes to no variable.
    Dropped,
    /// Its answer goes to a global.
    Global,
    /// Skips lead from it to this node, which does not return the answer.
    Then(usize),
}

/// A call: the number of the unit that it calls, and whether it is in tail position, or why not.
#[derive(Clone, Copy, Debug, PartialEq, Eq)]
pub struct CallPosition {
    /// The unit.
    pub unit: usize,
    /// How it stands.
    pub position: Position,
}

/// For each node of the graph of the unit of this number how it stands, where it is a call, and `None` exactly where it
/// is none. It fails only with `Memory`.
pub fn call_positions(
    alloc: Global,
    graph: &Graph,
    unit: usize,
) -> Result<Vec<Option<CallPosition>>, Memory>
    ensures { IfOk result (λ calls. AreCallPositions graph.now unit calls.items) }
{
    let nodes = graph.nodes();
    let ends = ends(alloc, nodes)?;
    let calls = positions_of(alloc, graph.shared(), nodes, ends.as_slice(), unit)?;
    Ok(calls)
}

/// The same of these nodes with these ends of chains.
fn positions_of(
    alloc: Global,
    shared: usize,
    nodes: &[Node],
    ends: &[usize],
    unit: usize,
) -> Result<Vec<Option<CallPosition>>, Memory>
    requires within { AllWithin nodes.now }
    requires ends { AreEnds nodes.now ends.now }
    ensures long { IfOk result (λ calls. length calls.items ≡ length nodes.now) }
    ensures are { IfOk result (λ calls. EachCallPosition shared nodes.now unit calls.items) }
{
    let mut calls = Vec::with_capacity(alloc, nodes.len())?;
    for n in 0..nodes.len() {
        calls.push(call_at(shared, nodes, ends, unit, n))?;
    }
    Ok(calls)
}

/// How the node of this number stands, where it is a call.
fn call_at(
    shared: usize,
    nodes: &[Node],
    ends: &[usize],
    unit: usize,
    n: usize,
) -> Option<CallPosition>
    requires within { AllWithin nodes.now }
    requires ends { AreEnds nodes.now ends.now }
    requires node { n < length nodes.now }
    ensures { IsCallPosition shared nodes.now unit n result }
{
    match called_unit(&nodes[n]) {
        None => None,
        Some(called) => {
            let position = position_of(shared, nodes, ends, unit, called, n);
            Some(CallPosition {
                unit: called,
                position,
            })
        }
    }
}

/// The unit that a node calls.
fn called_unit(node: &Node) -> Option<usize>
    ensures { result ≡ called_unit node.now }
{
    match node {
        Node::Call(_, called, _, _) => Some(*called),
        _ => None,
    }
}

/// How the call of this unit stands that is the node of this number.
fn position_of(
    shared: usize,
    nodes: &[Node],
    ends: &[usize],
    unit: usize,
    called: usize,
    n: usize,
) -> Position
    requires within { AllWithin nodes.now }
    requires ends { AreEnds nodes.now ends.now }
    requires node { n < length nodes.now }
    requires calls { called_at (slice_get nodes.now n) ≡ Some called }
    ensures { HasPosition shared nodes.now unit n called result }
{
    if is_tail_call(shared, nodes, ends, called, n) {
        tail_position(unit, called)
    } else {
        other_position(shared, ends, &nodes[n])
    }
}

/// How a call in tail position stands.
fn tail_position(unit: usize, called: usize) -> Position
    ensures { result ≡ tail_position unit called }
{
    if called == unit {
        Position::Loop
    } else {
        Position::Tail
    }
}

/// How a call stands that is not in tail position.
fn other_position(shared: usize, ends: &[usize], node: &Node) -> Position
    ensures { result ≡ other_position shared ends.now node.now }
{
    match node {
        Node::Call(Some(into), _, _, next) => {
            if *into < shared {
                Position::Global
            } else {
                Position::Then(end_at(ends, *next))
            }
        }
        _ => Position::Dropped,
    }
}

/// The end of chain of this node, and 0 where there is none.
fn end_at(ends: &[usize], node: usize) -> usize
    ensures { result ≡ slice_index_or ends.now node 0 }
{
    match ends.get(node) {
        Some(end) => *end,
        None => 0,
    }
}
