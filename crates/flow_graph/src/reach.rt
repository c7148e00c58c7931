// The nodes that are reached, found by a walk from node 0.
ghost use Rattle.std.specs.Prelude.{◌≡◌, ℕ, ◌<◌, ◌≤◌, ◌++◌, [], true, false, replicate, length, List, slice_get, IfNone, IfOk, OnOk, Some, None};
ghost use Rattle.std.specs.Option.{option_to_list};
ghost use Rattle.flow_graph.specs.Graphs.{AllWithin, IsBelow};
ghost use Rattle.flow_graph.specs.Retained.{MarkReached};
ghost use Rattle.flow_graph.specs.ReachWalks.{Walking, marks_after, stack_after, walk_weight};

use crate::Node;
use mir_base::Memory;
use std::alloc::Global;

/// The marks of the nodes that are reached from node 0, one for each node.
pub(crate) fn reach(alloc: Global, nodes: &[Node]) -> Result<Vec<bool>, Memory>
    requires some { 0 < length nodes.now }
    requires within { AllWithin nodes.now }
    ensures { IfOk result (λ marks. MarkReached nodes.now marks.items) }
{
    let mut marks = no_marks(alloc, nodes.len())?;
    marks[0] = true;
    let mut stack = Vec::new(alloc);
    let mut next = Some(0);
    while let Some(node) = next {
        let found = visit(nodes, &mut marks, &mut stack, node)?;
        next = go_on(found, &mut stack);
    }
    Ok(marks)
}

/// `count` marks, none of them set.
pub(crate) fn no_marks(alloc: Global, count: usize) -> Result<Vec<bool>, Memory>
    ensures { IfOk result (λ marks. marks.items ≡ replicate count false) }
{
    Ok(vec![in alloc; false; count]?)
}

/// The node at which the walk goes on: the one that was found, or else the last of the stack.
fn go_on(found: Option<usize>, stack: &mut Vec<usize>) -> Option<usize>
    ensures same { stack.new.items ++ option_to_list result
        ≡ stack.old.items ++ option_to_list found }
    ensures empty { IfNone result (stack.new.items ≡ []) }
{
    match found {
        Some(node) => Some(node),
        None => stack.pop(),
    }
}

/// Marks the successors of the node at hand. Of those that were not marked before, the first is returned, to be visited
/// next, and the second is put on the stack.
fn visit(
    nodes: &[Node],
    marks: &mut Vec<bool>,
    stack: &mut Vec<usize>,
    node: usize,
) -> Result<Option<usize>, Memory>
    requires there { node < length nodes.now }
    requires within { AllWithin nodes.now }
    requires walking { Walking nodes.now marks.old.items stack.old.items (Some node) }
    requires marked { slice_get marks.old.items node ≡ Some true }
    ensures walking { IfOk result (λ found.
        Walking nodes.now marks.new.items (stack.new.items ++ option_to_list found) None) }
    ensures lighter { IfOk result (λ found.
        walk_weight marks.new.items (stack.new.items ++ option_to_list found)
        ≤ walk_weight marks.old.items stack.old.items) }
{
    let here = &nodes[node];
    let first = here.first_succ();
    let second = here.second_succ();
    mark(marks, stack, second)?;
    Ok(mark_found(marks, first))
}

/// Marks a node, and returns it where it was not marked before.
fn mark_found(marks: &mut Vec<bool>, node: Option<usize>) -> Option<usize>
    requires { IsBelow (length marks.old.items) node }
    ensures marks { marks.new.items ≡ marks_after marks.old.items node }
    ensures found { (stack : List ℕ) →
        stack ++ option_to_list result ≡ stack_after marks.old.items stack node }
{
    match node {
        None => None,
        Some(found) => {
            if marks[found] {
                None
            } else {
                marks[found] = true;
                Some(found)
            }
        }
    }
}

/// Marks a node, and puts it on the stack where it was not marked before.
fn mark(marks: &mut Vec<bool>, stack: &mut Vec<usize>, node: Option<usize>) -> Result<(), Memory>
    requires { IsBelow (length marks.old.items) node }
    ensures marks { OnOk result (marks.new.items ≡ marks_after marks.old.items node) }
    ensures stack { OnOk result
        (stack.new.items ≡ stack_after marks.old.items stack.old.items node) }
{
    if let Some(node) = node {
        if !marks[node] {
            marks[node] = true;
            stack.push(node)?;
        }
    }
    Ok(())
}
