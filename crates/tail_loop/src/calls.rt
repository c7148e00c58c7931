// The self tail calls of a graph.
ghost use Rattle.std.specs.Prelude.{◌≡◌, ◌<◌, ◌↔◌, length, slice_get, IfOk, IsTrue};
ghost use Rattle.flow_graph.specs.Graphs.{AllWithin};
ghost use Rattle.jump_clean.specs.Chains.{AreEnds};
ghost use Rattle.tail_loop.specs.Answered.{answered_at, answered_call, returned_at, returned_var};
ghost use Rattle.tail_loop.specs.Tails.{AreTailCalls, HasTailCall, ReturnsNext};

use flow_graph::Node;
use jump_clean::ends;
use mir_base::{Memory, Operand};
use std::alloc::Global;

/// The nodes that call the unit of this number and then return what it answers, in order. The first `shared` variables
/// are globals.
pub(crate) fn tail_calls(
    alloc: Global,
    shared: usize,
    nodes: &[Node],
    unit: usize,
) -> Result<Vec<usize>, Memory>
    requires { AllWithin nodes.now }
    ensures { IfOk result (λ calls. AreTailCalls shared nodes.now unit calls.items) }
{
    let ends = ends(alloc, nodes)?;
    let mut calls = Vec::new(alloc);
    for n in 0..nodes.len() {
        if is_tail_call(shared, nodes, ends.as_slice(), unit, n) {
            calls.push(n)?;
        }
    }
    Ok(calls)
}

/// Whether the node is such a call.
pub(crate) fn is_tail_call(
    shared: usize,
    nodes: &[Node],
    ends: &[usize],
    unit: usize,
    n: usize,
) -> bool
    requires within { AllWithin nodes.now }
    requires ends { AreEnds nodes.now ends.now }
    requires node { n < length nodes.now }
    ensures { IsTrue result ↔ HasTailCall shared nodes.now unit n }
{
    match answered_at(shared, nodes, n, unit) {
        None => false,
        Some(call) => returns_next(nodes, ends, call.next, call.into),
    }
}

/// The variable and the successor where the node of this number is a call of the unit whose answer goes to a variable
/// that is no global.
fn answered_at(shared: usize, nodes: &[Node], n: usize, unit: usize) -> Option<Answered>
    requires { n < length nodes.now }
    ensures { result ≡ answered_at shared unit (slice_get nodes.now n) }
{
    answered_call(&nodes[n], shared, unit)
}

/// A call whose answer goes to a variable.
#[derive(Clone, Copy)]
pub(crate) struct Answered {
    /// The variable.
    pub(crate) into: usize,
    /// The successor.
    pub(crate) next: usize,
}

/// The variable and the successor of a call of the unit of this number whose answer goes to a variable that is no
/// global.
fn answered_call(node: &Node, shared: usize, unit: usize) -> Option<Answered>
    ensures { result ≡ answered_call shared unit node.now }
{
    match node {
        Node::Call(Some(into), called, _, next) => {
            if *called == unit {
                if *into < shared {
                    None
                } else {
                    Some(Answered {
                        into: *into,
                        next: *next,
                    })
                }
            } else {
                None
            }
        }
        _ => None,
    }
}

/// Whether Skips lead from the node to a Return of the variable.
fn returns_next(nodes: &[Node], ends: &[usize], n: usize, x: usize) -> bool
    requires within { AllWithin nodes.now }
    requires ends { AreEnds nodes.now ends.now }
    requires node { n < length nodes.now }
    ensures { IsTrue result ↔ ReturnsNext nodes.now n x }
{
    match returned_at(nodes, ends[n]) {
        None => false,
        Some(y) => y == x,
    }
}

/// The variable that the node of this number returns, where it is a Return of a variable.
fn returned_at(nodes: &[Node], n: usize) -> Option<usize>
    requires { n < length nodes.now }
    ensures { result ≡ returned_at (slice_get nodes.now n) }
{
    returned_var(&nodes[n])
}

/// The variable that the node returns, where it is a Return of a variable.
fn returned_var(node: &Node) -> Option<usize>
    ensures { result ≡ returned_var node.now }
{
    match node {
        Node::Return(Operand::Var(x)) => Some(*x),
        _ => None,
    }
}
