// The graph in which bounds are used.
ghost use Rattle.std.specs.Prelude.{IfOk};
ghost use Rattle.flow_graph.specs.Passes.{GraphKeeps};
ghost use Rattle.value_bounds.specs.Bounded.{IsBounded, IsOnlyBounded, KeepsBoundedDivisions};

use bounds::Fact;
use cond_flow::rewritten;
use flow_graph::Graph;
use mir_base::Memory;
use std::alloc::Global;

/// The graph in which bounds are used. Each node has a state: no run comes to it, or each variable has bounds there: it
/// is one number, or lies between two of fourteen ends (the least and the greatest number of 8, 16, 32 and 64 bits,
/// with a sign and without, and -1, 0 and 1). After Start the globals and the received variables may be any number and
/// the others are 0; an assignment gives its variable the bounds of its right side; after a call the globals and its
/// variable may be any number; a test passes its state along the edges that it may take, and narrows both operands
/// there; where edges meet, the least bounds stay that hold both. The least such states are meant.
///
/// By them each variable operand that is one number becomes the number, a right side whose value is then known becomes
/// that value, and a remainder, `min`, `max`, `and`, `or` or `ne` that gives one of its operands becomes the operand; a
/// test that can go one way alone becomes a Skip to the successor there; a trap instruction whose test cannot hold
/// becomes a Skip; and the nodes that are not reached are dropped. A trap instruction whose test always holds stays,
/// and so does a division whose divisor may be 0, with their operands replaced.
///
/// The graph does the same and evaluates no more operators. It fails only with `Memory`.
pub fn use_bounds(alloc: Global, graph: &Graph) -> Result<Graph, Memory>
    ensures bounded { IfOk result (IsBounded graph.now) }

    // there is no other such graph
    ensures only { IfOk result (IsOnlyBounded graph.now) }

    // it has the name of the graph, does the same, evaluates no more operators, and makes no other calls
    ensures keeps { IfOk result (GraphKeeps graph.now) }

    // each division that is reached keeps its variable; unless its divisor cannot be 0 it also keeps its operator, and
    // its operands but for those that are known, which become their numbers
    ensures divides { IfOk result (KeepsBoundedDivisions graph.now) }
{
    let made = rewritten::<Fact>(alloc, graph)?;
    Ok(made)
}
