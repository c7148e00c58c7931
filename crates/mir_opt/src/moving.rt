// Code motion on one graph.
ghost use Rattle.std.specs.Prelude.{length, IfOk};
ghost use Rattle.flow_graph.specs.Edges.{IsSplit};
ghost use Rattle.motion_rewrite.specs.ExprTables.{AreMovable};
ghost use Rattle.mir_opt.specs.Made.{CodeMade, DivisionsMade, MotionMade};

use div_move::move_dividing;
use down_safe::DownRule;
use edge_split::split;
use flow_graph::{Edges, Graph};
use latest_place::lazy;
use mir_base::Memory;
use motion_rewrite::{ExprTable, Placement, exprs, flatten};
use std::alloc::Global;

/// What code motion made of a graph, in its steps.
#[derive(Drop)]
pub(crate) struct Moved {
    /// The graph with a Skip on each edge into a join.
    pub(crate) split: Graph,
    /// The expressions of it that are moved.
    pub(crate) table: ExprTable,
    /// Their lazy placement.
    pub(crate) placement: Placement,
    /// The split graph rewritten by the placement.
    pub(crate) moved: Graph,
}

/// Moves the code of a graph by the lazy placement of its movable expressions, which may stand where the rule says that
/// they are down. It fails only with `Memory`.
pub(crate) fn move_code<R: DownRule>(
    alloc: Global,
    rule: &R,
    graph: &Graph,
) -> Result<Moved, Memory>
    ensures { IfOk result (MotionMade (R.is_down rule.now) graph.now) }
{
    let split = split(alloc, graph)?;
    let table = exprs(alloc, &split)?;
    let code = place_code(alloc, rule, &split, &table)?;
    Ok(Moved {
        split,
        table,
        placement: code.placement,
        moved: code.moved,
    })
}

/// Moves the divisions of a graph by their lazy placement, by the rule that a run must come to them. It fails only with
/// `Memory`.
pub(crate) fn move_divisions(alloc: Global, graph: &Graph) -> Result<Moved, Memory>
    ensures { IfOk result (DivisionsMade graph.now) }
{
    let split = split(alloc, graph)?;
    let code = move_dividing(alloc, &split)?;
    Ok(Moved {
        split,
        table: code.table,
        placement: code.placement,
        moved: code.moved,
    })
}

/// The lazy placement of the movable expressions of a split graph, and the graph rewritten by it.
#[derive(Drop)]
struct PlacedCode {
    placement: Placement,
    moved: Graph,
}

/// Rewrites a split graph by the lazy placement of its movable expressions.
fn place_code<R: DownRule>(
    alloc: Global,
    rule: &R,
    split: &Graph,
    table: &ExprTable,
) -> Result<PlacedCode, Memory>
    requires split { IsSplit split.now.nodes }
    requires movable { AreMovable (length split.now.vars) table.now }
    ensures { IfOk result (CodeMade (R.is_down rule.now) split.now table.now) }
{
    let edges = Edges::of(alloc, split)?;
    let placement = lazy(alloc, rule, split, &edges, table)?;
    let moved = flatten(alloc, split, table, &placement)?;
    Ok(PlacedCode { placement, moved })
}
