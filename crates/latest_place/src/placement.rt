// The lazy placement of a table of expressions, and the rows that lead to it.
ghost use Rattle.std.specs.Prelude.{◌≡◌, length, IfOk};
ghost use Rattle.flow_graph.specs.Blocks.{AreBlocksOf};
ghost use Rattle.flow_graph.specs.Edges.{IsSplit, edges_of};
ghost use Rattle.path_laws.specs.Paths.{HaveShape};
ghost use Rattle.motion_rewrite.specs.Placements.{AreOptimal, CanFlattenBy};
ghost use Rattle.down_safe.specs.Busy.{AreBusyRows};
ghost use Rattle.latest_place.specs.Lazy.{AreLateRows, AreLazy, IsLazyPlacement};

use crate::Late;
use crate::equations::{late_rows, placement_of};
use crate::parts::placed_by_parts;
use down_safe::{Busy, DownRule, EarliestSites, earliest_over};
use flow_graph::{Blocks, Edges, Graph};
use mir_base::Memory;
use motion_rewrite::{ExprTable, Placement};
use std::alloc::Global;

/// At which nodes each expression of the table is used, delayed, latest and isolated, each as rows with one row for
/// each node and one bit for each expression. The graph is split, `edges` are those of `graph`, and `busy` are the rows
/// of the busy placement, by the same rule, of which two are copied. It fails only with `Memory`.
pub fn late<R: DownRule>(
    alloc: Global,
    rule: &R,
    graph: &Graph,
    edges: &Edges,
    table: &ExprTable,
    busy: &Busy,
) -> Result<Late, Memory>
    requires split { IsSplit graph.now.nodes }
    requires edges { edges.now ≡ edges_of graph.now.nodes }
    requires busy { AreBusyRows graph.now table.now (R.is_down rule.now graph.now) busy.now }
    ensures { IfOk result (AreLateRows graph.now table.now (R.is_down rule.now graph.now)) }
{
    let blocks = Blocks::of(alloc, graph, edges)?;
    let used = busy.uses.copied(alloc)?;
    let earliest = busy.earliest.copied(alloc)?;
    late_rows(alloc, rule, graph, edges, &blocks, table, used, earliest)
}

/// The lazy placement of each expression of the table, with one row for each node and one bit for each expression: it
/// inserts at the latest nodes that are not isolated, and replaces the uses that are not both latest and isolated. The
/// graph is split, and `edges` are those of `graph`. It fails only with `Memory`.
pub fn lazy<R: DownRule>(
    alloc: Global,
    rule: &R,
    graph: &Graph,
    edges: &Edges,
    table: &ExprTable,
) -> Result<Placement, Memory>
    requires split { IsSplit graph.now.nodes }
    requires edges { edges.now ≡ edges_of graph.now.nodes }
    ensures insert { IfOk result (λ p. HaveShape graph.now (length table.now) p.insert) }
    ensures replace { IfOk result (λ p. HaveShape graph.now (length table.now) p.replace) }
    ensures lazy { IfOk result (AreLazy graph.now table.now (R.is_down rule.now graph.now)) }

    // admissible, and no admissible placement evaluates less on any full path
    ensures optimal { IfOk result (AreOptimal graph.now table.now (R.is_down rule.now graph.now)) }

    // so the graph can be flattened by it
    ensures flattens { IfOk result (CanFlattenBy graph.now table.now) }
{
    let blocks = Blocks::of(alloc, graph, edges)?;
    let placement = placed_by_parts(alloc, rule, graph, edges, &blocks, table)?;
    // The proof needs what holds of every graph: that each node is reached.
    let _ = graph.nodes();
    Ok(placement)
}

/// The lazy placement of each expression of the table, all at once, with the blocks of the graph at hand.
pub(crate) fn placed<R: DownRule>(
    alloc: Global,
    rule: &R,
    graph: &Graph,
    edges: &Edges,
    blocks: &Blocks,
    table: &ExprTable,
) -> Result<Placement, Memory>
    requires split { IsSplit graph.now.nodes }
    requires edges { edges.now ≡ edges_of graph.now.nodes }
    requires blocks { AreBlocksOf graph.now.nodes blocks.now }
    ensures { IfOk result (IsLazyPlacement (R.is_down rule.now) graph.now table.now) }
{
    let EarliestSites {
        uses: used,
        earliest,
    } = earliest_over(alloc, rule, graph, edges, blocks, table)?;
    let late = late_rows(alloc, rule, graph, edges, blocks, table, used, earliest)?;
    let placement = placement_of(late.uses, late.latest, late.isolated);
    Ok(placement)
}
