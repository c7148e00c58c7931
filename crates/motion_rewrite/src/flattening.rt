// The rewriting of a graph by a placement.
ghost use Rattle.std.specs.Prelude.{length, IfOk, OnOk, ◌≤◌};
ghost use Rattle.mir_base.specs.Shapes.{AllDiffer};
ghost use Rattle.graph_edit.specs.Along.{RunsFollow};
ghost use Rattle.flow_graph.specs.Edges.{IsSplit};
ghost use Rattle.flow_graph.specs.Graphs.{IsGraph};
ghost use Rattle.flow_graph.specs.Passes.{GraphCalls, GraphCheaper, GraphDividesUnchanged, GraphKeeps, GraphSame};
ghost use Rattle.path_laws.specs.Paths.{HaveShape};
ghost use Rattle.motion_rewrite.specs.Flatten.{IsFlattened};
ghost use Rattle.motion_rewrite.specs.Over.{HasOverEach};
ghost use Rattle.motion_rewrite.specs.Placements.{CanFlattenBy, InsertionsTrapAlike, IsFlattenable, IsNoDearer};
ghost use Rattle.motion_rewrite.specs.ExprTables.{AreMovable, AreOver};

use crate::editing::{insertions_in, put_evaluations, read_temporaries};
use crate::temporaries::number_temporaries;
use crate::{ExprTable, Placement};
use flow_graph::Graph;
use fresh_names::temporary_names;
use graph_edit::Editor;
use mir_base::Memory;
use std::alloc::Global;

/// The graph rewritten by a placement. Each expression with an insertion gets a temporary: a new variable with the next
/// number, in the order of the table, whose name is `h` and the least number from 1 on that makes a name which no
/// variable of the graph and no earlier temporary has. For each node in order of number, and for each expression
/// inserted there in order of the table, a new node that assigns the expression to its temporary is put before the
/// node: all edges that entered the node enter the first of the new nodes, and these lead on to the node in order. A
/// replaced use becomes a plain assignment of the temporary. Old nodes keep their numbers.
///
/// The expressions are movable and over the graph's variables; the placement has one row for each node and one bit for
/// each expression, and for each no insertion stands before Start, and each replaced node uses the expression, which an
/// insertion makes available there on every path to it. So it is with every placement that is admissible by some down
/// rule. It fails only with `Memory`.
pub fn flatten(
    alloc: Global,
    graph: &Graph,
    table: &ExprTable,
    placement: &Placement,
) -> Result<Graph, Memory>
    requires movable { AreMovable (length graph.now.vars) table.now }
    requires insert { HaveShape graph.now (length table.now) placement.now.insert }
    requires replace { HaveShape graph.now (length table.now) placement.now.replace }
    requires placed { CanFlattenBy graph.now table.now placement.now }
    ensures flattened { IfOk result (IsFlattened graph.now table.now placement.now) }
    ensures same { IfOk result (GraphSame graph.now) }

    // where the placement evaluates no expression more often than the graph, the result evaluates no more operators
    ensures cheaper { IfOk result (λ flat. IsNoDearer graph.now table.now placement.now →
        GraphCheaper graph.now flat) }
    ensures keeps { IfOk result (λ flat. IsNoDearer graph.now table.now placement.now →
        GraphKeeps graph.now flat) }

    // one path of the result lies over each full path, with the counts of the placement
    ensures paths { IfOk result (HasOverEach graph.now table.now placement.now) }

    // where a run of the graph goes along a full path to its return, that of the result goes along the corresponding
    // path of it
    ensures runs { IfOk result (RunsFollow graph.now) }

    // a split graph stays split
    ensures split { IfOk result (λ flat. IsSplit graph.now.nodes → IsSplit flat.nodes) }

    // each dividing assignment stays, with its operands
    ensures divides { IfOk result (GraphDividesUnchanged graph.now) }

    // the result makes no calls but those of the graph
    ensures calls { IfOk result (GraphCalls graph.now) }
{
    let flat = rewritten(alloc, graph, table, placement)?;
    Ok(flat)
}

/// The graph rewritten by a placement, as by `flatten`, where the expressions may trap: an insertion that traps stands
/// where the graph traps alike.
///
/// The expressions are over the graph's variables; the placement has one row for each node and one bit for each
/// expression, and for each no insertion stands before Start, and each replaced node uses the expression, which an
/// insertion makes available there on every path to it. Where the evaluation of an insertion traps, a run of the graph
/// that goes on from its node with the same values traps alike, after steps that show nothing. It fails only with
/// `Memory`.
pub fn flatten_dividing(
    alloc: Global,
    graph: &Graph,
    table: &ExprTable,
    placement: &Placement,
) -> Result<Graph, Memory>
    requires over { AreOver (length graph.now.vars) table.now }
    requires insert { HaveShape graph.now (length table.now) placement.now.insert }
    requires replace { HaveShape graph.now (length table.now) placement.now.replace }
    requires placed { CanFlattenBy graph.now table.now placement.now }
    requires traps { InsertionsTrapAlike graph.now table.now placement.now }
    ensures flattened { IfOk result (IsFlattened graph.now table.now placement.now) }
    ensures same { IfOk result (GraphSame graph.now) }

    // where the placement evaluates no expression more often than the graph, the result evaluates no more operators
    ensures cheaper { IfOk result (λ flat. IsNoDearer graph.now table.now placement.now →
        GraphCheaper graph.now flat) }
    ensures keeps { IfOk result (λ flat. IsNoDearer graph.now table.now placement.now →
        GraphKeeps graph.now flat) }

    // one path of the result lies over each full path, with the counts of the placement
    ensures paths { IfOk result (HasOverEach graph.now table.now placement.now) }

    // where a run of the graph goes along a full path to its return, that of the result goes along the corresponding
    // path of it
    ensures runs { IfOk result (RunsFollow graph.now) }

    // a split graph stays split
    ensures split { IfOk result (λ flat. IsSplit graph.now.nodes → IsSplit flat.nodes) }

    // the result makes no calls but those of the graph
    ensures calls { IfOk result (GraphCalls graph.now) }
{
    let flat = rewritten(alloc, graph, table, placement)?;
    Ok(flat)
}

/// The graph rewritten by a placement, of which `flatten` and `flatten_dividing` say what follows.
fn rewritten(
    alloc: Global,
    graph: &Graph,
    table: &ExprTable,
    placement: &Placement,
) -> Result<Graph, Memory>
    requires { IsFlattenable graph.now table.now placement.now }
    ensures graph { OnOk result (IsGraph graph.now.vars graph.now.received graph.now.nodes) }
    ensures shares { OnOk result (graph.now.shared ≤ length graph.now.vars) }
    ensures differ { OnOk result (AllDiffer table.now) }
    ensures flattened { IfOk result (IsFlattened graph.now table.now placement.now) }
{
    let insert = &placement.insert;
    let temporaries = number_temporaries(alloc, graph.vars().len(), table.len(), insert)?;
    let names = temporary_names(alloc, graph.vars(), temporaries.count)?;
    let temps = temporaries.numbers.as_slice();
    let _nodes = graph.nodes();
    let _shared = graph.shared();
    let _differ = table.len();
    let room = insertions_in(insert)?;
    let mut editor = Editor::open(alloc, graph, names, room)?;
    read_temporaries(&mut editor, temps, &placement.replace);
    put_evaluations(&mut editor, table, temps, insert);
    let flat = editor.close()?;
    Ok(flat)
}
