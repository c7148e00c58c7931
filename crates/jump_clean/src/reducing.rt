// Tests that make no difference become Skips.
ghost use Rattle.std.specs.Prelude.{◌≡◌, ℕ, ◌<◌, ◌≤◌, length, slice_set, IfOk, OnOk};
ghost use Rattle.mir_base.specs.Shapes.{AllBelow};
ghost use Rattle.flow_graph.specs.declared.nodes.Node.TheVariants.{Skip};
ghost use Rattle.flow_graph.specs.Numbering.{IsIn};
ghost use Rattle.flow_graph.specs.Edges.{edges_of};
ghost use Rattle.flow_graph.specs.Graphs.{AllWithin, SuccsBelow};
ghost use Rattle.jump_clean.specs.Classes.{HaveMembers};
ghost use Rattle.jump_clean.specs.Following.{skip_succ};
ghost use Rattle.jump_clean.specs.Joining.{AreChecked, AreOnlyPreds, ContainPreds, ContainSkips, JoinsLast, checked_nodes, checked_worklist, joins_left, worklist_after, useless_of};
ghost use Rattle.jump_clean.specs.Reductions.{AreReduced};

use crate::chains::skip_succ;
use crate::classes::Classes;
use flow_graph::{Edges, Node};
use mir_base::Memory;
use std::alloc::Global;

/// The nodes, of which each Test whose two successors have the same end of chain has become a Skip to its `taken`.
pub(crate) fn reduce_all(
    alloc: Global,
    edges: &Edges,
    nodes: Vec<Node>,
) -> Result<Vec<Node>, Memory>
    requires within { AllWithin nodes.items }
    requires edges { edges.now ≡ edges_of nodes.items }
    ensures { IfOk result (λ reduced. AreReduced nodes.items reduced.items) }
{
    let mut classes = Classes::apart(alloc, nodes.len())?;
    let all = numbers(alloc, nodes.len())?;
    let mut worklist = skips(alloc, nodes.as_slice())?;
    let mut checks = Vec::new(alloc);
    let mut nodes = nodes;
    recheck(
        &mut nodes,
        classes.of.as_slice(),
        &mut worklist,
        all.as_slice(),
    )?;
    while let Some(n) = worklist.pop() {
        join_skip(alloc, edges, nodes.as_slice(), &mut classes, &mut checks, n)?;
        recheck(
            &mut nodes,
            classes.of.as_slice(),
            &mut worklist,
            checks.as_slice(),
        )?;
    }
    Ok(nodes)
}

/// The numbers below this one.
fn numbers(alloc: Global, count: usize) -> Result<Vec<usize>, Memory>
    ensures all { IfOk result (λ numbers. (n : ℕ) → n < count → IsIn n numbers.items) }
    ensures below { IfOk result (λ numbers. AllBelow count numbers.items) }
{
    let mut numbers = Vec::with_capacity(alloc, count)?;
    for n in 0..count {
        numbers.push(n)?;
    }
    Ok(numbers)
}

/// The numbers of the Skips.
fn skips(alloc: Global, nodes: &[Node]) -> Result<Vec<usize>, Memory>
    ensures all { IfOk result (λ skips. ContainSkips nodes.now skips.items) }
    ensures below { IfOk result (λ skips. AllBelow (length nodes.now) skips.items) }
{
    let mut skips = Vec::with_capacity(alloc, nodes.len())?;
    for n in 0..nodes.len() {
        push_skip(&mut skips, &nodes[n], n)?;
    }
    Ok(skips)
}

/// Pushes the number of a node that is a Skip.
fn push_skip(skips: &mut Vec<usize>, node: &Node, n: usize) -> Result<(), Memory>
    ensures { OnOk result (
        skips.new.items ≡ worklist_after (skip_succ node.now) skips.old.items n) }
{
    if let Some(_) = skip_succ(node) {
        skips.push(n)?;
    }
    Ok(())
}

/// Joins the class of a Skip with that of its successor, and lists the nodes that lead to one that was moved: no other
/// Test can have got both successors into one class by it.
fn join_skip(
    alloc: Global,
    edges: &Edges,
    nodes: &[Node],
    classes: &mut Classes,
    checks: &mut Vec<usize>,
    n: usize,
) -> Result<(), Memory>
    requires members { HaveMembers classes.old }
    requires n { n < length nodes.now }
    requires long { length classes.old.of.items ≡ length nodes.now }
    requires edges { edges.now.nodes ≡ length nodes.now }
    requires within { AllWithin nodes.now }
    ensures members { OnOk result (HaveMembers classes.new) }
    ensures joining { OnOk result (
        JoinsLast edges.now nodes.now n classes.old classes.new checks.new.items) }
{
    match skip_succ(&nodes[n]) {
        Some(next) => {
            let moved = classes.join(alloc, n, next)?;
            all_preds(edges, moved.as_slice(), checks)?;
        }
        None => checks.clear(),
    }
    Ok(())
}

/// Lists the sources of the edges that enter these nodes, in place of what was listed.
fn all_preds(edges: &Edges, nodes: &[usize], preds: &mut Vec<usize>) -> Result<(), Memory>
    requires { AllBelow edges.now.nodes nodes.now }
    ensures all { OnOk result (ContainPreds edges.now.edges nodes.now preds.new.items) }
    ensures only { OnOk result (AreOnlyPreds edges.now.edges nodes.now preds.new.items) }
{
    preds.clear();
    for n in nodes {
        preds.extend_from_slice(edges.preds(*n))?;
    }
    Ok(())
}

/// Each of these nodes that is a Test with both successors in one class becomes a Skip, whose class is to be joined.
fn recheck(
    nodes: &mut Vec<Node>,
    classes: &[usize],
    worklist: &mut Vec<usize>,
    checks: &[usize],
) -> Result<(), Memory>
    requires within { AllWithin nodes.old.items }
    requires long { length classes.now ≡ length nodes.old.items }
    requires below { AllBelow (length nodes.old.items) checks.now }
    ensures joining { OnOk result (AreChecked classes.now checks.now
        nodes.old.items worklist.old.items nodes.new.items worklist.new.items) }
    ensures less { OnOk result (joins_left nodes.new.items worklist.new.items
        ≤ joins_left nodes.old.items worklist.old.items) }
{
    for n in checks {
        look(nodes, classes, worklist, *n)?;
    }
    Ok(())
}

/// A Test with both successors in one class becomes a Skip to its `taken`, whose class is to be joined.
fn look(
    nodes: &mut Vec<Node>,
    classes: &[usize],
    worklist: &mut Vec<usize>,
    n: usize,
) -> Result<(), Memory>
    requires n { n < length nodes.old.items }
    requires within { AllWithin nodes.old.items }
    requires long { length classes.now ≡ length nodes.old.items }
    ensures nodes { OnOk result (nodes.new.items ≡ checked_nodes classes.now nodes.old.items n) }
    ensures worklist { OnOk result (worklist.new.items
        ≡ checked_worklist classes.now nodes.old.items worklist.old.items n) }
{
    if let Some(taken) = useless_test(&nodes[n], classes) {
        set_skip(nodes, n, taken);
        worklist.push(n)?;
    }
    Ok(())
}

/// Makes a node a Skip.
fn set_skip(nodes: &mut Vec<Node>, n: usize, next: usize)
    requires { n < length nodes.old.items }
    ensures { nodes.new.items ≡ slice_set nodes.old.items n (Skip next) }
{
    nodes[n] = Node::Skip(next);
}

/// The `taken` of a Test with both successors in one class.
fn useless_test(node: &Node, classes: &[usize]) -> Option<usize>
    requires { SuccsBelow (length classes.now) node.now }
    ensures { result ≡ useless_of classes.now node.now }
{
    match node {
        Node::Test(_, taken, other) => {
            if classes[*taken] == classes[*other] {
                Some(*taken)
            } else {
                None
            }
        }
        _ => None,
    }
}
