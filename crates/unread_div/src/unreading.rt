// The graph without the divisions that nothing reads.
ghost use Rattle.std.specs.Prelude.{IfOk};
ghost use Rattle.flow_graph.specs.Passes.{GraphKeeps, KeepsSplit, KeepsSuccs};
ghost use Rattle.unread_div.specs.Flags.{TellUnread};
ghost use Rattle.unread_div.specs.Unread.{IsOnlyUnread, IsUnread, KeepsReadDivisions};

use crate::copying::copied;
use crate::dead::{dead_divisions, has_flag};
use crate::safe::safe_divisions;
use bounds::Fact;
use flow_graph::Graph;
use graph_edit::without_flagged;
use mir_base::Memory;
use std::alloc::Global;

/// The graph in which each division that nothing reads is a Skip. A node `x <- a / b` or `x <- a mod b` goes where x is
/// not live behind it, and b cannot be 0: it is a constant other than 0, or a variable that is not 0 by the least
/// states before the node, or no run comes to the node by them. In this language a division traps by a divisor of 0
/// alone; the least number by -1 does not. A variable is live behind a node where some path from a successor of the
/// node comes to a node that reads it, with no node before that one assigning it; a call and a return read every
/// global.
///
/// Two kinds of states are asked, and one that rules 0 out is enough. In the first each variable is 0, is not 0, or may
/// be any number (`zero_flow`): a test of a variable against 0 tells of it along its edges, and operators by whether
/// their operands are 0. In the second each variable has bounds (`bounds`), as `value_bounds` uses them. After Start
/// the globals and the received variables may be any number and the others are 0; after a call the globals and its
/// variable may be any number; where edges meet, what holds of both stays. All is decided on the graph as it was, in
/// one step.
///
/// The graph does the same and evaluates no more operators. It fails only with `Memory`.
pub fn unread(alloc: Global, graph: &Graph) -> Result<Graph, Memory>
    ensures unread { IfOk result (IsUnread graph.now) }

    // there is no other such graph
    ensures only { IfOk result (IsOnlyUnread graph.now) }

    // it has the name of the graph, does the same, evaluates no more operators, and makes no other calls
    ensures keeps { IfOk result (GraphKeeps graph.now) }

    // each division stays where it was, with its operands, or nothing reads it and in no run its divisor is 0 there
    ensures divides { IfOk result (KeepsReadDivisions graph.now) }

    // its edges are those of the graph, so it is split where the graph is
    ensures succs { IfOk result (KeepsSuccs graph.now) }
    ensures split { IfOk result (KeepsSplit graph.now) }
{
    let _nodes = graph.nodes();
    let flags = unread_flags(alloc, graph)?;
    let copy = copied(alloc, graph)?;
    let lessened = without_flagged(alloc, copy, flags.as_slice());
    zero_flow::zeros_hold(graph);
    cond_flow::states_hold::<Fact>(graph);
    Ok(lessened)
}

/// For each node whether it is a division that nothing reads, and whose divisor cannot be 0.
fn unread_flags(alloc: Global, graph: &Graph) -> Result<Vec<bool>, Memory>
    ensures { IfOk result (λ flags. TellUnread graph.now flags.items) }
{
    let dead = dead_divisions(alloc, graph)?;
    if has_flag(dead.as_slice()) {
        let flags = safe_divisions(alloc, graph, dead.as_slice())?;
        Ok(flags)
    } else {
        Ok(dead)
    }
}
