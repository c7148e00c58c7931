// The copied graph.
ghost use Rattle.std.specs.Prelude.{IfOk};
ghost use Rattle.flow_graph.specs.Passes.{GraphDivides, GraphKeeps, KeepsSplit, KeepsSuccs};
ghost use Rattle.copy_flow.specs.Copied.{IsCopied, IsOnlyCopied};

use crate::picking::PickCopies;
use flow_graph::Graph;
use held_assign::made_by_held;
use mir_base::Memory;
use std::alloc::Global;

/// The graph in which copies give way to what they copy. `v <- w` with w a variable other than v is a copy. Each
/// operand v of a node becomes w exactly where on every path from Start to the node there is, before the node, a node
/// `v <- w` after which, before the node, no node assigns v or w; there is at most one such w. A call assigns the
/// globals too. All is decided on the graph as it was, in one step. Then each assignment of a variable to itself is a
/// Skip with the same successor. No other node changes.
///
/// The graph does the same and evaluates no more operators. It fails only with `Memory`.
pub fn copies(alloc: Global, graph: &Graph) -> Result<Graph, Memory>
    ensures copied { IfOk result (IsCopied graph.now) }

    // there is no other such graph
    ensures only { IfOk result (IsOnlyCopied graph.now) }

    // it has the name of the graph, does the same, evaluates no more operators, and makes no other calls
    ensures keeps { IfOk result (GraphKeeps graph.now) }

    // each dividing assignment stays, with its variable and its operator
    ensures divides { IfOk result (GraphDivides graph.now) }

    // its edges are those of the graph, so it is split where the graph is
    ensures succs { IfOk result (KeepsSuccs graph.now) }
    ensures split { IfOk result (KeepsSplit graph.now) }
{
    let copied = made_by_held(alloc, graph, &PickCopies)?;
    Ok(copied)
}

/// Has no effect; carries the theorem that the copied graph of a split graph, whoever made it, is split.
pub fn copied_splits(graph: &Graph, copied: &Graph)
    requires { IsCopied graph.now copied.now }
    ensures { KeepsSplit graph.now copied.now }
{
    let _ = graph;
    let _ = copied;
}
