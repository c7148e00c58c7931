// The graph in which operators with constants on one another are one, and operands stand in one order.
ghost use Rattle.std.specs.Prelude.{IfOk};
ghost use Rattle.flow_graph.specs.Passes.{GraphDividesUnchanged, GraphKeeps, KeepsSplit, KeepsSuccs};
ghost use Rattle.term_flow.specs.Termed.{IsOnlyTermed, IsTermed};

use crate::joining::PickTerms;
use flow_graph::Graph;
use held_assign::made_by_held;
use mir_base::Memory;
use std::alloc::Global;

/// The graph in which an operator with a constant, on a variable that holds what another one made of a variable a, is
/// one operator on a, and operands stand in one order. Only right sides of `Assign` nodes change. First those that read
/// a variable t and a constant; `-t` counts as `0 - t`, and `!t` as `t = 0`. By the right side that t holds before the
/// node:
///
/// - t is `a + k`, `a - k`, `k - a` or `-a`: a sum or difference of t and a constant becomes `a + m` or `m - a`, and a
///   where it is `a + 0`; `t = c` and `t != c` become `a = m` and `a != m`.
/// - t is `a xor k`: `t xor c` becomes `a xor m`, and a where m is 0; `t = c` and `t != c` become `a = m` and `a != m`.
/// - t is a product of a and k, or what `and`, `or`, `min` or `max` makes of them: the same operator with a constant on
///   t becomes one on a.
/// - t is a shift of a by a constant: the same shift of t by a constant becomes one of a, where both together go at
///   most 63 places; a shift to the right with the sign always does, and then goes 63 places at most.
/// - t is a comparison, a relation or `!`: `t != 0` and `t = 1` become it, `t = 0` and `t != 1` the one that holds
///   where it does not, and with any other c `t = c` becomes 0 and `t != c` becomes 1.
///
/// Then each whose operator gives the same with its operands turned (`+ * min max = != and or xor`): a variable stands
/// left of a constant, and of two variables the one of the lower number stands left.
///
/// An assignment `v <- rhs` holds before a node where it does not read v and on every path from Start to the node there
/// is, before the node, such an assignment after which, before the node, no node assigns v or a variable of rhs; a call
/// assigns the globals too. At most one right side holds for v so. All is decided on the graph as it was, in one step.
///
/// The graph does the same and evaluates no more operators. It fails only with `Memory`.
pub fn terms(alloc: Global, graph: &Graph) -> Result<Graph, Memory>
    ensures termed { IfOk result (IsTermed graph.now) }

    // there is no other such graph
    ensures only { IfOk result (IsOnlyTermed graph.now) }

    // it has the name of the graph, does the same, evaluates no more operators, and makes no other calls
    ensures keeps { IfOk result (GraphKeeps graph.now) }

    // each dividing assignment stays as it is, with its operands
    ensures divides { IfOk result (GraphDividesUnchanged graph.now) }

    // its edges are those of the graph, so it is split where the graph is
    ensures succs { IfOk result (KeepsSuccs graph.now) }
    ensures split { IfOk result (KeepsSplit graph.now) }
{
    let termed = made_by_held(alloc, graph, &PickTerms)?;
    Ok(termed)
}
