// Which divisions are dead.
ghost use Rattle.std.specs.Prelude.{◌≡◌, false, length, IfOk};
ghost use Rattle.mir_base.specs.Numbers.{is_dividing};
ghost use Rattle.path_laws.specs.Paths.{HaveShape};
ghost use Rattle.dead_code.specs.LiveRows.{TellLive};
ghost use Rattle.unread_div.specs.Flags.{HaveLiveBit, NoDivision, NoFlag, TellDeadDivisions, divides_there, is_dead_division_by, is_quotient};

use bit_rows::Rows;
use dead_code::live_rows;
use flow_graph::{Graph, Node};
use graph_edit::GraphFlow;
use mir_base::{Memory, Op, Rhs};
use std::alloc::Global;

/// For each node whether it is a division whose variable is not live behind it. It fails only with `Memory`.
pub(crate) fn dead_divisions(alloc: Global, graph: &Graph) -> Result<Vec<bool>, Memory>
    ensures { IfOk result (λ dead. TellDeadDivisions graph.now dead.items) }
{
    if has_division(graph.nodes()) {
        let dead = live_divisions(alloc, graph)?;
        Ok(dead)
    } else {
        let none = vec![in alloc; false; graph.len()]?;
        Ok(none)
    }
}

/// The same, where there are divisions.
fn live_divisions(alloc: Global, graph: &Graph) -> Result<Vec<bool>, Memory>
    ensures { IfOk result (λ dead. TellDeadDivisions graph.now dead.items) }
{
    let flow = GraphFlow::of(alloc, graph)?;
    let live = live_rows(alloc, graph, &flow)?;
    let dead = dead_by(alloc, graph, &live)?;
    Ok(dead)
}

/// The same, by rows of what is live before each node.
fn dead_by(alloc: Global, graph: &Graph, live: &Rows) -> Result<Vec<bool>, Memory>
    requires shape { HaveShape graph.now (length graph.now.vars) live.now }
    requires live { TellLive graph.now live.now }
    ensures { IfOk result (λ dead. TellDeadDivisions graph.now dead.items) }
{
    let _nodes = graph.nodes();
    let mut dead = Vec::with_capacity(alloc, graph.len())?;
    for n in 0..graph.len() {
        dead.push(is_dead(graph.node(n), live))?;
    }
    Ok(dead)
}

/// Whether a node is a division whose variable is not live behind it.
fn is_dead(node: &Node, live: &Rows) -> bool
    requires { HaveLiveBit live.now node.now }
    ensures { result ≡ is_dead_division_by live.now node.now }
{
    match node {
        Node::Assign(x, rhs, next) => is_quotient(rhs) && !live.get(*next, *x),
        _ => false,
    }
}

/// Whether some node is a division.
fn has_division(nodes: &[Node]) -> bool
    ensures { result ≡ false → NoDivision nodes.now }
{
    for node in nodes {
        if divides_there(node) {
            return true;
        }
    }
    false
}

/// Whether a node is a division.
fn divides_there(node: &Node) -> bool
    ensures { result ≡ divides_there node.now }
{
    match node {
        Node::Assign(_, rhs, _) => is_quotient(rhs),
        _ => false,
    }
}

/// Whether a right side is a quotient or a remainder.
fn is_quotient(rhs: &Rhs) -> bool
    ensures { result ≡ is_quotient rhs.now }
{
    match rhs {
        Rhs::Plain(_) => false,
        Rhs::Unary(_, _) => false,
        Rhs::Binary(op, _, _) => is_dividing(*op),
    }
}

/// Whether an operator divides.
fn is_dividing(op: Op) -> bool
    ensures { result ≡ is_dividing op }
{
    match op {
        Op::Div | Op::Mod => true,
        _ => false,
    }
}

/// Whether some flag is set.
pub(crate) fn has_flag(flags: &[bool]) -> bool
    ensures { result ≡ false → NoFlag flags.now }
{
    for flag in flags {
        if *flag {
            return true;
        }
    }
    false
}
