// The graph with what is known in the place of what is computed.
ghost use Rattle.std.specs.Prelude.{IfOk};
ghost use Rattle.flow_graph.specs.Passes.{GraphKeeps};
ghost use Rattle.cond_const.specs.Folded.{IsFolded, IsOnlyFolded, KeepsDivisions};

use crate::known::Known;
use cond_flow::rewritten;
use flow_graph::Graph;
use mir_base::Memory;
use std::alloc::Global;

/// The folded graph. Each node has a state: no run comes to it, or each variable has there one constant value or is
/// varying. After Start the globals and the received variables are varying and the others 0; an assignment gives its
/// variable the constant that its right side becomes, if it becomes one, and a call makes the globals and its variable
/// varying; a test that is decided passes its state along the edge that it takes alone; where edges meet, equal
/// constants stay. The least such states are meant.
///
/// By them each variable operand with a constant value becomes the constant, a right side whose value is then known
/// becomes that value, or, by an identity, its operand; a decided test becomes a Skip to the successor that it takes; a
/// trap instruction whose test is decided not to hold becomes a Skip; and the nodes that are not reached are dropped. A
/// trap instruction whose test is decided to hold stays, and so does a division by the constant 0, with their operands
/// replaced.
///
/// The graph does the same and evaluates no more operators. It fails only with `Memory`.
pub fn fold(alloc: Global, graph: &Graph) -> Result<Graph, Memory>
    ensures folded { IfOk result (IsFolded graph.now) }

    // there is no other such graph
    ensures only { IfOk result (IsOnlyFolded graph.now) }

    // it has the name of the graph, does the same, evaluates no more operators, and makes no other calls
    ensures keeps { IfOk result (GraphKeeps graph.now) }

    // each division that is reached keeps its variable; unless its divisor is known and not 0 it also keeps its
    // operator, and its operands but for those that are known, which become their constants
    ensures divides { IfOk result (KeepsDivisions graph.now) }
{
    rewritten::<Known>(alloc, graph)
}
