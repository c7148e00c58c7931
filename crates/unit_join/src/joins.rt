// Graphs with leaves joined into them.
ghost use Rattle.std.specs.Prelude.{◌≡◌, IfOk, length};
ghost use Rattle.program_pass.specs.PassPrograms.{IsOnlyGraph, PassKeeps};
ghost use Rattle.unit_join.specs.CopyTables.{HasCopyNumbers};
ghost use Rattle.unit_join.specs.JoinPrograms.{HasLeafCopies, JoinMade};
ghost use Rattle.unit_join.specs.Joins.{AreLeafCalls, IsJoined, JoinsLeaves, LeafCallsFit, LeavesShare, NoLeafCalls, called_leaves};

use crate::calls::leaf_calls;
use crate::copy_table::CopyTable;
use crate::joining::joined;
use crate::leaves::Leaves;
use flow_graph::Graph;
use fresh_names::temporary_names;
use graph_edit::Editor;
use mir_base::Memory;
use std::alloc::Global;

/// The graph with the leaves that it calls joined into it. Each leaf that is called has copies of its variables among
/// the new variables of the graph, the same for all its calls; globals are their own copies. In the place of a call
/// stand assignments: the copies of the received variables get the arguments, and those of all others that are no
/// globals become 0, as in a new frame. They lead on to the nodes of the leaf without its Start, with copies for
/// variables; its Returns give their value to the variable of the call, where there is one, and lead to where the call
/// leads. Then the nodes that are not reached are dropped. Each call of a leaf has as many arguments as the leaf has
/// received variables, no leaf makes a call, and each has as many globals as the graph. It fails only with `Memory`.
pub(crate) fn join(alloc: Global, graph: &Graph, leaves: &Leaves) -> Result<Graph, Memory>
    requires fit { LeafCallsFit leaves.now.units graph.now.nodes }
    requires no_calls { NoLeafCalls leaves.now.units }
    requires globals { LeavesShare leaves.now.units graph.now.shared }
    ensures joined { IfOk result (IsJoined graph.now leaves.now.units) }
    ensures only { IfOk result (IsOnlyGraph (IsJoined graph.now leaves.now.units)) }

    // it does the same as a graph with the leaves, evaluates no more operators, and makes no other calls
    ensures keeps { IfOk result (PassKeeps (JoinsLeaves leaves.now.units) graph.now) }
{
    let calls = leaf_calls(alloc, graph.nodes(), leaves)?;
    let _shared = graph.shared();
    let joined = with_leaves(alloc, graph, leaves, calls.as_slice())?;
    Ok(joined)
}

/// The graph with the leaves in the places of these calls.
fn with_leaves(
    alloc: Global,
    graph: &Graph,
    leaves: &Leaves,
    calls: &[usize],
) -> Result<Graph, Memory>
    requires calls { AreLeafCalls leaves.now.units graph.now.nodes calls.now }
    requires globals { LeavesShare leaves.now.units graph.now.shared }
    ensures { IfOk result (JoinMade graph.now leaves.now.units calls.now) }
{
    let _nodes = graph.nodes();
    let _shared = graph.shared();
    leaves.can_be_made();
    let table = CopyTable::of(alloc, graph.nodes(), graph.vars().len(), leaves)?;
    let wide = widened(alloc, graph, leaves, &table)?;
    let nodes = joined(alloc, graph, leaves, &table, calls)?;
    let joined = wide.with_nodes(alloc, nodes)?;
    Ok(joined)
}

/// The graph with the copies of the variables of the leaves that it calls after its own.
fn widened(
    alloc: Global,
    graph: &Graph,
    leaves: &Leaves,
    table: &CopyTable,
) -> Result<Graph, Memory>
    requires units { table.now.units.items ≡ called_leaves leaves.now.units graph.now.nodes }
    requires copies { HasCopyNumbers leaves.now.units (length graph.now.vars) table.now }
    ensures { IfOk result (HasLeafCopies graph.now leaves.now.units) }
{
    let _nodes = graph.nodes();
    let _ = leaves;
    let count = table.end.saturating_sub(graph.vars().len());
    let names = temporary_names(alloc, graph.vars(), count)?;
    let editor = Editor::open(alloc, graph, names, 0)?;
    let wide = editor.close()?;
    Ok(wide)
}
