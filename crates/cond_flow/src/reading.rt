// Which variables a block reads and touches, and what passes through it where only what it reads is known.
ghost use Rattle.std.specs.Prelude.{◌≡◌, true, length};
ghost use Rattle.flow_graph.specs.Blocks.{IsChain};
ghost use Rattle.cond_flow.specs.Reading.{AllGoOn, AreApart, IsApart, ReadsAlike, goes_on, has_rhs, is_into, taken, taken_node, taken_rhs, taken_test, touches};
ghost use Rattle.cond_flow.specs.Rules.{has_test, is_operand};

use crate::{Facts, Knowledge};
use flow_graph::{Graph, Node};
use mir_base::{Operand, Rhs, Test};

/// Whether a block touches none of these variables: whether each passes through it unchanged, and nothing else depends
/// on it.
pub(crate) fn are_apart(graph: &Graph, list: &[usize], variables: &[usize]) -> bool
    requires { IsChain graph.now.nodes list.now }
    ensures { result ≡ true → AreApart graph.now.shared graph.now.nodes list.now variables.now }
{
    for i in 0..variables.len() {
        if !is_apart(graph, list, variables[i]) {
            return false;
        }
    }
    true
}

/// Whether a block does not touch this variable.
fn is_apart(graph: &Graph, list: &[usize], x: usize) -> bool
    requires { IsChain graph.now.nodes list.now }
    ensures { result ≡ true → IsApart graph.now.shared graph.now.nodes list.now x }
{
    for i in 0..list.len() {
        if touches(graph.shared(), graph.node(list[i]), x) {
            return false;
        }
    }
    true
}

/// Whether what passes along the edges of a node depends on what is known of this variable, or something else may be
/// known of it then.
fn touches(shared: usize, node: &Node, x: usize) -> bool
    ensures { result ≡ touches shared node.now x }
{
    match node {
        Node::Start(_) => true,
        Node::Assign(y, rhs, _) => x == *y || has_rhs(*rhs, x),
        Node::Call(into, _, _, _) => x < shared || is_into(*into, x),
        Node::Test(test, _, _) => has_test(*test, x),
        _ => false,
    }
}

/// Whether a call gives its result to this variable.
fn is_into(into: Option<usize>, x: usize) -> bool
    ensures { result ≡ is_into into x }
{
    match into {
        None => false,
        Some(y) => x == y,
    }
}

/// Whether a right side has this variable.
fn has_rhs(rhs: Rhs, x: usize) -> bool
    ensures { result ≡ has_rhs rhs x }
{
    match rhs {
        Rhs::Plain(a) => is_operand(a, x),
        Rhs::Unary(_, a) => is_operand(a, x),
        Rhs::Binary(_, a, b) => is_operand(a, x) || is_operand(b, x),
    }
}

/// Whether a test has it.
fn has_test(test: Test, x: usize) -> bool
    ensures { result ≡ has_test test x }
{
    match test {
        Test::Rel(_, a, b) => is_operand(a, x) || is_operand(b, x),
        Test::Holds(a) => is_operand(a, x),
        Test::Fails(a) => is_operand(a, x),
    }
}

/// Whether an operand is it.
fn is_operand(a: Operand, x: usize) -> bool
    ensures { result ≡ is_operand a x }
{
    match a {
        Operand::Var(y) => x == y,
        Operand::Const(_) => false,
    }
}

/// Whether something passes through a block and along the first edge of its last node whatever is known: whether none of
/// its nodes is a test or a return.
pub(crate) fn all_go_on(graph: &Graph, list: &[usize]) -> bool
    requires { IsChain graph.now.nodes list.now }
    ensures { result ≡ true → AllGoOn graph.now.nodes list.now }
{
    for i in 0..list.len() {
        if !goes_on(graph.node(list[i])) {
            return false;
        }
    }
    true
}

/// Whether a node passes its state along its first edge whatever is known.
fn goes_on(node: &Node) -> bool
    ensures { result ≡ goes_on node.now }
{
    match node {
        Node::Test(_, _, _) => false,
        Node::Return(_) => false,
        _ => true,
    }
}

/// Takes what is known of the variables that a block reads over into other facts.
pub(crate) fn take_read<K: Knowledge>(
    graph: &Graph,
    list: &[usize],
    known: &Facts<K>,
    into: &mut Facts<K>,
)
    requires chain { IsChain graph.now.nodes list.now }
    requires fits { length known.now ≡ length into.old }
    ensures long { length into.new ≡ length into.old }
    ensures alike { ReadsAlike K.rules graph.now.nodes list.now known.now into.new }
{
    for i in 0..list.len() {
        take_node(graph.node(list[i]), known, into);
    }
}

/// The same of those that a node reads.
fn take_node<K: Knowledge>(node: &Node, known: &Facts<K>, into: &mut Facts<K>)
    ensures { into.new ≡ taken_node K.rules node.now known.now into.old }
{
    match node {
        Node::Assign(_, rhs, _) => take_rhs(*rhs, known, into),
        Node::Test(test, _, _) => take_test(*test, known, into),
        _ => (),
    }
}

/// Of a right side.
fn take_rhs<K: Knowledge>(rhs: Rhs, known: &Facts<K>, into: &mut Facts<K>)
    ensures { into.new ≡ taken_rhs K.rules rhs known.now into.old }
{
    match rhs {
        Rhs::Plain(a) => take(a, known, into),
        Rhs::Unary(_, a) => take(a, known, into),
        Rhs::Binary(_, a, b) => {
            take(a, known, into);
            take(b, known, into);
        }
    }
}

/// Of a test.
fn take_test<K: Knowledge>(test: Test, known: &Facts<K>, into: &mut Facts<K>)
    ensures { into.new ≡ taken_test K.rules test known.now into.old }
{
    match test {
        Test::Rel(_, a, b) => {
            take(a, known, into);
            take(b, known, into);
        }
        Test::Holds(a) => take(a, known, into),
        Test::Fails(a) => take(a, known, into),
    }
}

/// Of one operand.
fn take<K: Knowledge>(a: Operand, known: &Facts<K>, into: &mut Facts<K>)
    ensures { into.new ≡ taken K.rules a known.now into.old }
{
    match a {
        Operand::Var(x) => into.set(x, known.get(x, K::top())),
        Operand::Const(_) => (),
    }
}
