// The graph with what is known in the place of what is computed.
ghost use Rattle.std.specs.Prelude.{◌≡◌, ◌<◌, [], false, length, map, slice_set, true, IfOk, OnOk};
ghost use Rattle.flow_graph.specs.Blocks.{AreBlocksOf, IsChain};
ghost use Rattle.flow_graph.specs.Passes.{GraphKeeps};
ghost use Rattle.cond_flow.specs.Becoming.{becomes_at, decided_node, node_becomes, test_becomes};
ghost use Rattle.cond_flow.specs.Blockwise.{AreLeastOver};
ghost use Rattle.cond_flow.specs.Outsides.{rules_in};
ghost use Rattle.cond_flow.specs.Rewriting.{HaveBecome, RewritesIn};
ghost use Rattle.cond_flow.specs.Rewritten.{IsMadeWithin, IsOnlyRewritten, IsRewritten, KeepsDivisions};
ghost use Rattle.cond_flow.specs.Rules.{OutsideShape, within};
ghost use Rattle.cond_flow.specs.States.{state_where};

use crate::solving::{blocks_of, least};
use crate::states::BlockState;
use crate::transfer::step;
use crate::{Facts, Knowledge, Outside};
use fix_solve::Work;
use flow_graph::{Blocks, Graph, Node};
use mir_base::{Args, Memory, Operand, Test};
use std::alloc::Global;

/// The graph that is made by what is known. Each node has a state: no run comes to it, or something is known of each
/// variable. After Start the globals and the received variables may be anything and the others are 0; after an
/// assignment the rules say what is known of its variable; after a call the globals and its variable may be anything; a
/// test passes its state along the edges that it may take, with what is then known; where edges meet, what is known is
/// joined. The least such states are meant.
///
/// By them operands and right sides become what the rules say; a test that can go one way alone becomes a Skip to the
/// successor there; a trap instruction whose test cannot hold becomes a Skip; and the nodes that are not reached are
/// dropped. A trap instruction whose test always holds stays, and so does a division whose divisor may be 0, with their
/// operands replaced.
///
/// The graph does the same and evaluates no more operators. It fails only with `Memory`.
pub fn rewritten<K: Knowledge>(alloc: Global, graph: &Graph) -> Result<Graph, Memory>
    ensures rewritten { IfOk result (IsRewritten K.below K.rules graph.now) }

    // there is no other such graph
    ensures only { IfOk result (IsOnlyRewritten K.below K.rules graph.now) }

    // it has the name of the graph, does the same, evaluates no more operators, and makes no other calls
    ensures keeps { IfOk result (GraphKeeps graph.now) }

    // each division that is reached keeps its variable; unless its divisor is known not to be 0 it also keeps its
    // operator, and its operands but for those that the rules replace
    ensures divides { IfOk result (KeepsDivisions K.below K.rules graph.now) }
{
    let _nodes = graph.nodes();
    let nothing = Facts::repeated(alloc, 0, K::top())?;
    let nodes = nodes_in(alloc, graph, &nothing)?;
    let made = graph.with_nodes(alloc, nodes)?;
    Ok(made)
}

/// What the nodes of a graph become where nothing is known outside, with empty facts.
fn nodes_in<K: Knowledge>(
    alloc: Global,
    graph: &Graph,
    nothing: &Facts<K>,
) -> Result<Vec<Node>, Memory>
    requires { nothing.now ≡ [] }
    ensures { IfOk result (λ made. HaveBecome K.below K.rules graph.now made.items) }
{
    let outside = Outside {
        entry: nothing,
        backs: &[],
    };
    let made = nodes_become(alloc, graph, &outside)?;
    Ok(made)
}

/// The same of a graph, where this is known outside: before Start of each global what is known where the unit is
/// entered, after Start of received variables that of its arguments, and after a call of the globals and the variable
/// what is known of what the called unit hands back. It fails only with `Memory`.
pub fn rewritten_within<K: Knowledge>(
    alloc: Global,
    graph: &Graph,
    outside: &Outside<K>,
) -> Result<Graph, Memory>
    ensures rewritten { IfOk result
        (IsRewritten K.below (rules_in outside.now K.rules) graph.now) }

    // there is no other such graph
    ensures only { IfOk result (IsOnlyRewritten K.below (rules_in outside.now K.rules) graph.now) }

    // it does the same as the nodes that it is made of, reached or not, and those make no other calls than the graph
    ensures made { IfOk result (IsMadeWithin K.below (rules_in outside.now K.rules) graph.now) }
{
    let nodes = nodes_become(alloc, graph, outside)?;
    let made = made_of(alloc, graph, outside, nodes)?;
    Ok(made)
}

/// The graph of what the nodes become where this is known outside, without those that are not reached.
pub(crate) fn made_of<K: Knowledge>(
    alloc: Global,
    graph: &Graph,
    outside: &Outside<K>,
    nodes: Vec<Node>,
) -> Result<Graph, Memory>
    requires { HaveBecome K.below (rules_in outside.now K.rules) graph.now nodes.items }
    ensures rewritten { IfOk result
        (IsRewritten K.below (rules_in outside.now K.rules) graph.now) }
    ensures only { IfOk result (IsOnlyRewritten K.below (rules_in outside.now K.rules) graph.now) }
    ensures made { IfOk result (IsMadeWithin K.below (rules_in outside.now K.rules) graph.now) }
{
    let _ = outside;
    let _nodes = graph.nodes();
    let made = graph.with_nodes(alloc, nodes)?;
    Ok(made)
}

/// What the nodes of a graph become by its least states, where this is known outside.
fn nodes_become<K: Knowledge>(
    alloc: Global,
    graph: &Graph,
    outside: &Outside<K>,
) -> Result<Vec<Node>, Memory>
    ensures { IfOk result (λ made.
        HaveBecome K.below (rules_in outside.now K.rules) graph.now made.items) }
{
    let blocks = blocks_of(alloc, graph)?;
    let states = least(alloc, graph, &blocks, outside)?;
    let made = rewrite(alloc, graph, &blocks, &states, outside)?;
    Ok(made)
}

/// What the nodes of a graph become by the least states of its blocks.
pub(crate) fn rewrite<K: Knowledge>(
    alloc: Global,
    graph: &Graph,
    blocks: &Blocks,
    states: &Work<BlockState<K>>,
    outside: &Outside<K>,
) -> Result<Vec<Node>, Memory>
    requires blocks { AreBlocksOf graph.now.nodes blocks.now }
    requires states { AreLeastOver K.below (rules_in outside.now K.rules) graph.now blocks.now
        states.now }
    ensures { IfOk result (λ made.
        HaveBecome K.below (rules_in outside.now K.rules) graph.now made.items) }
{
    let nodes = graph.nodes();
    let mut made = skips(alloc, nodes.len())?;
    let mut room = Facts::repeated(alloc, graph.vars().len(), K::zero())?;
    for block in 0..blocks.len() {
        rewrite_block(
            alloc,
            graph,
            blocks.nodes(block),
            states.value(block),
            outside,
            &mut room,
            &mut made,
        )?;
    }
    Ok(made)
}

/// So many Skips, in whose places the nodes are put.
fn skips(alloc: Global, count: usize) -> Result<Vec<Node>, Memory>
    ensures { IfOk result (λ skips. length skips.items ≡ count) }
{
    let mut skips = Vec::with_capacity(alloc, count)?;
    for n in 0..count {
        skips.push(Node::Skip(n))?;
    }
    Ok(skips)
}

/// Puts what the nodes of a block become in their places, with a room in which to walk through the block.
fn rewrite_block<K: Knowledge>(
    alloc: Global,
    graph: &Graph,
    list: &[usize],
    state: &BlockState<K>,
    outside: &Outside<K>,
    room: &mut Facts<K>,
    made: &mut Vec<Node>,
) -> Result<(), Memory>
    requires chain { IsChain graph.now.nodes list.now }
    requires long { length made.old.items ≡ length graph.now.nodes }
    ensures { OnOk result (RewritesIn (rules_in outside.now K.rules) graph.now list.now state.now
        (length list.now) made.old.items made.new.items) }
{
    put_in(alloc, &state.known, room)?;
    rewrite_list(alloc, graph, list, state.reached, outside, room, made)?;
    Ok(())
}

/// Leaves these in the room, and allocates where it has another length. It fails only with `Memory`.
fn put_in<K: Knowledge>(alloc: Global, known: &Facts<K>, room: &mut Facts<K>) -> Result<(), Memory>
    ensures { OnOk result (room.new ≡ known.now) }
{
    if room.len() != known.len() {
        *room = known.copied(alloc)?;
    } else {
        room.refill(known);
    }
    Ok(())
}

/// Puts what these nodes become in their places, where `reached` says whether the first of them is reached and `known`
/// what is known before it.
fn rewrite_list<K: Knowledge>(
    alloc: Global,
    graph: &Graph,
    list: &[usize],
    reached: bool,
    outside: &Outside<K>,
    known: &mut Facts<K>,
    made: &mut Vec<Node>,
) -> Result<(), Memory>
    requires chain { IsChain graph.now.nodes list.now }
    requires long { length made.old.items ≡ length graph.now.nodes }
    ensures { OnOk result (RewritesIn (rules_in outside.now K.rules) graph.now list.now
        (state_where reached known.old) (length list.now) made.old.items made.new.items) }
{
    let mut reaches = reached;
    for i in 0..list.len() {
        let n = list[i];
        let node = graph.node(n);
        put(alloc, made, n, reaches, known, node)?;
        reaches = step(
            reaches,
            known,
            node,
            0,
            graph.shared(),
            graph.received(),
            outside,
        );
    }
    Ok(())
}

/// Puts what a node becomes in its place.
fn put<K: Knowledge>(
    alloc: Global,
    made: &mut Vec<Node>,
    n: usize,
    reached: bool,
    known: &Facts<K>,
    node: &Node,
) -> Result<(), Memory>
    requires { n < length made.old.items }
    ensures { OnOk result ((outside : OutsideShape K) → made.new.items
        ≡ slice_set made.old.items n
        (becomes_at (within outside K.rules) (state_where reached known.now) node.now)) }
{
    let becomes = becomes_at(alloc, reached, known, node)?;
    made[n] = becomes;
    Ok(())
}

/// What a node becomes, where `reached` says whether it is reached and `known` what is known before it.
fn becomes_at<K: Knowledge>(
    alloc: Global,
    reached: bool,
    known: &Facts<K>,
    node: &Node,
) -> Result<Node, Memory>
    ensures { IfOk result (λ becomes. (outside : OutsideShape K)
        → becomes ≡ becomes_at (within outside K.rules) (state_where reached known.now) node.now) }
{
    if reached {
        let becomes = node_becomes(alloc, known, node)?;
        Ok(becomes)
    } else {
        let copy = node.clone()?;
        Ok(copy)
    }
}

/// What a node becomes that is reached.
fn node_becomes<K: Knowledge>(alloc: Global, known: &Facts<K>, node: &Node) -> Result<Node, Memory>
    ensures { IfOk result (λ becomes. (outside : OutsideShape K)
        → becomes ≡ node_becomes (within outside K.rules) known.now node.now) }
{
    match node {
        Node::Start(next) => Ok(Node::Start(*next)),
        Node::Skip(next) => Ok(Node::Skip(*next)),
        Node::Assign(x, rhs, next) => Ok(Node::Assign(*x, K::rhs(known, *rhs), *next)),
        Node::Print(a, next) => Ok(Node::Print(K::operand(known, *a), *next)),
        Node::Guard(test, number, next) => {
            if K::goes(known, *test, true) {
                Ok(Node::Guard(test_becomes(known, *test), *number, *next))
            } else {
                Ok(Node::Skip(*next))
            }
        }
        Node::Call(into, unit, args, next) => {
            let operands = all_operands(alloc, known, args.items())?;
            let args = Args::of(alloc, operands.as_slice())?;
            Ok(Node::Call(*into, *unit, args, *next))
        }
        Node::Test(test, taken, other) => Ok(decided_node(known, *test, *taken, *other)),
        Node::Return(a) => Ok(Node::Return(K::operand(known, *a))),
    }
}

/// What a test becomes that is reached.
fn decided_node<K: Knowledge>(known: &Facts<K>, test: Test, taken: usize, other: usize) -> Node
    ensures { (outside : OutsideShape K)
        → result ≡ decided_node (test_becomes (within outside K.rules) known.now test) taken other
        (K.rules.goes test true known.now) (K.rules.goes test false known.now) }
{
    if K::goes(known, test, true) {
        if K::goes(known, test, false) {
            Node::Test(test_becomes(known, test), taken, other)
        } else {
            Node::Skip(taken)
        }
    } else if K::goes(known, test, false) {
        Node::Skip(other)
    } else {
        Node::Return(Operand::Const(0))
    }
}

/// The test with its operands replaced.
fn test_becomes<K: Knowledge>(known: &Facts<K>, test: Test) -> Test
    ensures { (outside : OutsideShape K)
        → result ≡ test_becomes (within outside K.rules) known.now test }
{
    match test {
        Test::Rel(op, a, b) => Test::Rel(op, K::operand(known, a), K::operand(known, b)),
        Test::Holds(a) => Test::Holds(K::operand(known, a)),
        Test::Fails(a) => Test::Fails(K::operand(known, a)),
    }
}

/// What the operands become.
fn all_operands<K: Knowledge>(
    alloc: Global,
    known: &Facts<K>,
    operands: &[Operand],
) -> Result<Vec<Operand>, Memory>
    ensures { IfOk result (λ all. all.items ≡ map (K.rules.operand known.now) operands.now) }
{
    let mut all = Vec::with_capacity(alloc, operands.len())?;
    for a in operands {
        all.push(K::operand(known, *a))?;
    }
    Ok(all)
}
