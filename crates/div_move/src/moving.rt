// Moving the divisions of a graph.
ghost use Rattle.std.specs.Prelude.{length, IfOk};
ghost use Rattle.graph_edit.specs.Along.{RunsFollow};
ghost use Rattle.flow_graph.specs.Edges.{IsSplit};
ghost use Rattle.flow_graph.specs.Passes.{GraphKeeps};
ghost use Rattle.motion_rewrite.specs.Over.{HasOverEach};
ghost use Rattle.motion_rewrite.specs.Placements.{AreOptimal, InsertionsTrapAlike};
ghost use Rattle.motion_rewrite.specs.ExprTables.{AreOver};
ghost use Rattle.div_move.specs.Moves.{InsertionsCome, IsDivMove, PlacesDivisions};
ghost use Rattle.div_move.specs.MustCome.{MustComeTo};

use crate::MustReach;
use flow_graph::{Edges, Graph};
use latest_place::lazy;
use mir_base::Memory;
use motion_rewrite::{ExprTable, Placement, dividing_exprs, flatten_dividing};
use std::alloc::Global;

/// What became of a graph whose divisions were moved.
#[derive(Drop)]
pub struct DivMove {
    /// The expressions of the graph that divide, in order of the first node that evaluates each.
    pub table: ExprTable,
    /// Their lazy placement by the rule `MustReach`: one row for each node, one bit for each expression.
    pub placement: Placement,
    /// The graph rewritten by the placement.
    pub moved: Graph,
}

/// Moves the divisions of a split graph: evaluates each expression that divides where the lazy placement by the rule
/// `MustReach` does. It fails only with `Memory`.
pub fn move_dividing(alloc: Global, graph: &Graph) -> Result<DivMove, Memory>
    requires { IsSplit graph.now.nodes }

    // the table, the placement and the moved graph are exactly these
    ensures exact { IfOk result (IsDivMove graph.now) }

    // the moved graph does the same as the graph, traps included, evaluates no more operators and makes no calls but
    // its own; and it is split
    ensures keeps { IfOk result (λ made. GraphKeeps graph.now made.moved) }
    ensures split { IfOk result (λ made. IsSplit made.moved.nodes) }

    // a division is evaluated before a node only where each run of the graph from the node comes to this very division,
    // with its operands as they were, and shows nothing before
    ensures comes { IfOk result (λ made.
        InsertionsCome graph.now made.table made.placement) }

    // so where a division that is evaluated before a node traps, a run of the graph from the node traps alike, and
    // shows nothing before
    ensures traps { IfOk result (λ made.
        InsertionsTrapAlike graph.now made.table made.placement) }

    // no placement that is admissible by the rule evaluates an expression less often on any full path, and the moved
    // graph evaluates each as often as the placement counts
    ensures optimal { IfOk result (λ made.
        AreOptimal graph.now made.table (MustComeTo graph.now) made.placement) }
    ensures paths { IfOk result (λ made.
        HasOverEach graph.now made.table made.placement made.moved) }
    ensures runs { IfOk result (λ made. RunsFollow graph.now made.moved) }
{
    let table = dividing_exprs(alloc, graph)?;
    let code = place_divisions(alloc, graph, &table)?;
    Ok(DivMove {
        table,
        placement: code.placement,
        moved: code.moved,
    })
}

/// A placement, and the graph that is rewritten by it.
#[derive(Drop)]
pub(crate) struct Placed {
    pub(crate) placement: Placement,
    pub(crate) moved: Graph,
}

/// Rewrites a split graph by the lazy placement of these expressions.
fn place_divisions(alloc: Global, graph: &Graph, table: &ExprTable) -> Result<Placed, Memory>
    requires split { IsSplit graph.now.nodes }
    requires over { AreOver (length graph.now.vars) table.now }
    ensures { IfOk result (PlacesDivisions graph.now table.now) }
{
    let edges = Edges::of(alloc, graph)?;
    let placement = lazy(alloc, &MustReach, graph, &edges, table)?;
    let _nodes = graph.nodes();
    let moved = flatten_dividing(alloc, graph, table, &placement)?;
    Ok(Placed { placement, moved })
}
