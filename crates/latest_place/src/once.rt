// Which expressions stay where they are: one node uses each of them, and no run passes that node twice.
ghost use Rattle.std.specs.Prelude.{◌≡◌, ◌<◌, ◌≤◌, ◌↔◌, true, All, length, IfOk, IfSome};
ghost use Rattle.flow_graph.specs.Graphs.{node_succs};
ghost use Rattle.latest_place.specs.Parts.{AreToPlace, AreSeenFrom, seen_again, seen_at};

use flow_graph::{Graph, Node};
use mir_base::Memory;
use motion_rewrite::{ExprTable, used_at};
use std::alloc::Global;

/// What is known of an expression once some nodes were seen.
#[derive(Clone, Copy, Debug)]
pub(crate) enum SeenUse {
    /// None of them uses it.
    Never,
    /// One of them uses it, and no path from there comes back to that node or to one of a lower number.
    Once,
    /// All other cases.
    More,
}

/// The numbers of the expressions of the table that are to be placed. An expression that one node uses, from which no
/// path comes back to it, is not among them: its lazy placement inserts nothing and replaces nothing. Such a node is
/// told by numbers alone: no edge leads from it or a later node back to it or an earlier one. It fails only with
/// `Memory`.
pub(crate) fn moving_numbers(
    alloc: Global,
    graph: &Graph,
    table: &ExprTable,
) -> Result<Vec<usize>, Memory>
    ensures { IfOk result (λ numbers. AreToPlace graph.now table.now numbers.items) }
{
    let _nodes = graph.nodes();
    let seen = seen_uses(alloc, graph, table)?;
    let mut numbers = Vec::with_capacity(alloc, table.len())?;
    for number in 0..table.len() {
        if !is_once(seen[number]) {
            numbers.push(number)?;
        }
    }
    Ok(numbers)
}

/// Whether one node alone uses the expression, and no path comes back to this node.
fn is_once(seen: SeenUse) -> bool
    ensures { (result ≡ true) ↔ (seen ≡ SeenUse.Once) }
{
    match seen {
        SeenUse::Never => false,
        SeenUse::Once => true,
        SeenUse::More => false,
    }
}

/// How each expression of the table is used: the nodes are seen from the last to the first.
fn seen_uses(alloc: Global, graph: &Graph, table: &ExprTable) -> Result<Vec<SeenUse>, Memory>
    ensures { IfOk result (λ seen. AreSeenFrom graph.now table.now 0 seen.items) }
{
    let nodes = graph.nodes();
    let mut seen = vec![in alloc; SeenUse::Never; table.len()]?;
    let mut least = nodes.len();
    for back in 0..nodes.len() {
        let node = nodes.len() - 1 - back;
        least = least_succ(&nodes[node], least);
        see(&mut seen, used_at(graph, table, node), node < least);
    }
    Ok(seen)
}

/// A bound: no more than a number and than each successor of a node. The least of them lets most be seen.
fn least_succ(node: &Node, least: usize) -> usize
    ensures below { result ≤ least }
    ensures succs { All (λ next. result ≤ next) (node_succs node.now) }
{
    match node {
        Node::Start(next) => least.min(*next),
        Node::Skip(next) => least.min(*next),
        Node::Assign(_, _, next) => least.min(*next),
        Node::Print(_, next) => least.min(*next),
        Node::Guard(_, _, next) => least.min(*next),
        Node::Call(_, _, _, next) => least.min(*next),
        Node::Test(_, taken, other) => least.min(*taken).min(*other),
        Node::Return(_) => least,
    }
}

/// Notes that a node uses the expression of this number, where there is one. `passed` says that no path comes back to
/// the node.
fn see(seen: &mut Vec<SeenUse>, number: Option<usize>, passed: bool)
    requires { IfSome number (λ i. i < length seen.old.items) }
    ensures { seen.new.items ≡ seen_at seen.old.items passed number }
{
    match number {
        Some(i) => seen[i] = seen_again(passed, seen[i]),
        None => {}
    }
}

/// What is seen of an expression that one node more uses.
fn seen_again(passed: bool, seen: SeenUse) -> SeenUse
    ensures { result ≡ seen_again passed seen }
{
    match seen {
        SeenUse::Never => { if passed { SeenUse::Once } else { SeenUse::More } }
        SeenUse::Once => SeenUse::More,
        SeenUse::More => SeenUse::More,
    }
}
