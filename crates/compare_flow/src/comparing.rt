// The graph with comparisons in tests.
ghost use Rattle.std.specs.Prelude.{IfOk};
ghost use Rattle.flow_graph.specs.Passes.{GraphDividesUnchanged, GraphKeeps, KeepsSplit, KeepsSuccs};
ghost use Rattle.compare_flow.specs.Compared.{IsCompared, IsOnlyCompared};

use crate::truths::PickComparisons;
use flow_graph::Graph;
use held_assign::made_by_held;
use mir_base::Memory;
use std::alloc::Global;

/// The graph in which a test of a variable that holds a comparison is the comparison. Only the tests of `Test` nodes
/// and of `Guard` nodes, the traps, change, and of these the ones that ask whether a variable v is 0: `v` and `!v`, and
/// `v != 0` and `v = 0` with 0 on either side. Where `v <- a op b` with a relation for its operator holds before the
/// node, such a test becomes `a op b` where it asks for v not 0, and the contrary relation of a and b where it asks for
/// v 0; where `v <- !a` holds, it becomes the test that a is 0, or that it is not.
///
/// An assignment `v <- rhs` holds before a node where it does not read v and on every path from Start to the node there
/// is, before the node, such an assignment after which, before the node, no node assigns v or a variable of rhs; a call
/// assigns the globals too. At most one right side holds for v so. All is decided on the graph as it was, in one step.
///
/// The graph does the same and evaluates no more operators. It fails only with `Memory`.
pub fn comparisons(alloc: Global, graph: &Graph) -> Result<Graph, Memory>
    ensures compared { IfOk result (IsCompared graph.now) }

    // there is no other such graph
    ensures only { IfOk result (IsOnlyCompared graph.now) }

    // it has the name of the graph, does the same, evaluates no more operators, and makes no other calls
    ensures keeps { IfOk result (GraphKeeps graph.now) }

    // each dividing assignment stays as it is, with its operands
    ensures divides { IfOk result (GraphDividesUnchanged graph.now) }

    // its edges are those of the graph, so it is split where the graph is
    ensures succs { IfOk result (KeepsSuccs graph.now) }
    ensures split { IfOk result (KeepsSplit graph.now) }
{
    let compared = made_by_held(alloc, graph, &PickComparisons)?;
    Ok(compared)
}
