// The equations of the lazy placement. In go the rows of the nodes that use each expression and at which it is
// earliest; out come those at which it is delayed, latest and isolated, and what is placed from that.
ghost use Rattle.std.specs.Prelude.{◌≡◌, IfOk, OnOk};
ghost use Rattle.bit_rows.specs.Bits.{AreAlike};
ghost use Rattle.flow_graph.specs.Blocks.{AreBlocksOf};
ghost use Rattle.flow_graph.specs.Edges.{IsSplit, edges_of};
ghost use Rattle.flow_graph.specs.Graphs.{IsGraph};
ghost use Rattle.path_laws.specs.Paths.{HaveShape, width};
ghost use Rattle.motion_rewrite.specs.Expressions.{uses};
ghost use Rattle.motion_rewrite.specs.Rows.{AreRowsOf, AreRowsWhere};
ghost use Rattle.down_safe.specs.Busy.{IsEarliest};
ghost use Rattle.latest_place.specs.Lazy.{AreLateRows};
ghost use Rattle.latest_place.specs.Rows.{AreDelayedRows, AreInsertedRows, AreIsolatedRows, AreLatestRows, AreLikeUses, AreNeededRows, AreReplacedRows};

use crate::Late;
use bit_rows::Rows;
use down_safe::DownRule;
use flow_graph::{Blocks, Edges, Graph};
use mir_base::Memory;
use motion_rewrite::{ExprTable, Placement};
use path_laws::{backward_some_over, forward_all_over, last_nodes, some_successor};
use std::alloc::Global;
use std::mem;

/// Where the nodes of a graph use each bit.
#[derive(Clone, Copy)]
struct Uses<'a> {
    graph: &'a Graph,
    edges: &'a Edges,
    blocks: &'a Blocks,
    rows: &'a Rows,
}

/// Where each expression is delayed, latest and isolated, one row after the other, of the rows of the nodes that use it
/// and at which it is earliest. `edges` and `blocks` are those of the graph, which is split.
pub(crate) fn late_rows<R: DownRule>(
    alloc: Global,
    rule: &R,
    graph: &Graph,
    edges: &Edges,
    blocks: &Blocks,
    table: &ExprTable,
    used: Rows,
    earliest: Rows,
) -> Result<Late, Memory>
    requires split { IsSplit graph.now.nodes }
    requires edges { edges.now ≡ edges_of graph.now.nodes }
    requires blocks { AreBlocksOf graph.now.nodes blocks.now }
    requires used_are { AreRowsOf graph.now table.now (uses graph.now) used }
    requires earliest_are { AreRowsWhere graph.now table.now
        (λ e. IsEarliest graph.now e (R.is_down rule.now graph.now e)) earliest }
    ensures { IfOk result (AreLateRows graph.now table.now (R.is_down rule.now graph.now)) }
{
    let _ = rule;
    let _ = table;
    let uses = Uses {
        graph,
        edges,
        blocks,
        rows: &used,
    };
    let delayed = delayed_rows(alloc, &uses, &earliest)?;
    mem::drop(earliest);
    let latest = latest_rows(alloc, &uses, &delayed)?;
    let isolated = isolated_rows(alloc, &uses, &latest)?;
    Ok(Late {
        uses: used,
        delayed,
        latest,
        isolated,
    })
}

/// Delayed: an evaluation at the earliest nodes can be put off to here. On every path to the node stands an earliest
/// node, from which on no node before it uses the expression.
fn delayed_rows(alloc: Global, uses: &Uses<'_>, earliest: &Rows) -> Result<Rows, Memory>
    requires { AreLikeUses uses.now earliest.now }
    ensures shape { IfOk result (HaveShape uses.now.graph.now (width earliest.now)) }
    ensures bits { IfOk result (AreDelayedRows uses.now.graph.now earliest.now uses.now.rows.now) }
{
    let born = earliest.without(alloc, uses.rows)?;
    let blocks = uses.blocks;
    let mut rows = forward_all_over(alloc, uses.graph, uses.edges, blocks, &born, uses.rows)?;
    rows.or_rows(earliest);
    Ok(rows)
}

/// Latest: the delay ends here, at a use, or before a node that it does not reach.
fn latest_rows(alloc: Global, uses: &Uses<'_>, delayed: &Rows) -> Result<Rows, Memory>
    requires { AreLikeUses uses.now delayed.now }
    ensures shape { IfOk result (HaveShape uses.now.graph.now (width delayed.now)) }
    ensures bits { IfOk result (AreLatestRows uses.now.graph.now delayed.now uses.now.rows.now) }
{
    let rows = last_nodes(alloc, uses.graph, uses.edges, delayed, uses.rows)?;
    Ok(rows)
}

/// Isolated: nothing after the node uses what is evaluated.
fn isolated_rows(alloc: Global, uses: &Uses<'_>, latest: &Rows) -> Result<Rows, Memory>
    requires { AreLikeUses uses.now latest.now }
    ensures graph { OnOk result
        (IsGraph uses.now.graph.now.vars uses.now.graph.now.received uses.now.graph.now.nodes) }
    ensures shape { IfOk result (HaveShape uses.now.graph.now (width latest.now)) }
    ensures bits { IfOk result (AreIsolatedRows uses.now.graph.now latest.now uses.now.rows.now) }
{
    let mut rows = needed_rows(alloc, uses, latest)?;
    rows.flip_rows(0);
    Ok(rows)
}

/// Where what is evaluated is still used after the node.
fn needed_rows(alloc: Global, uses: &Uses<'_>, latest: &Rows) -> Result<Rows, Memory>
    requires { AreLikeUses uses.now latest.now }
    ensures graph { OnOk result
        (IsGraph uses.now.graph.now.vars uses.now.graph.now.received uses.now.graph.now.nodes) }
    ensures shape { IfOk result (HaveShape uses.now.graph.now (width latest.now)) }
    ensures bits { IfOk result (AreNeededRows uses.now.graph.now latest.now uses.now.rows.now) }
{
    let born = uses.rows.without(alloc, latest)?;
    let ahead = backward_some_over(alloc, uses.graph, uses.edges, uses.blocks, &born, latest)?;
    let needed = some_successor(alloc, uses.graph, uses.edges, &ahead)?;
    Ok(needed)
}

/// The placement that inserts at the latest nodes that are not isolated, and replaces the uses that are not both latest
/// and isolated.
pub(crate) fn placement_of(uses: Rows, latest: Rows, isolated: Rows) -> Placement
    requires uses { AreAlike uses latest }
    requires isolated { AreAlike isolated latest }
    ensures insert_alike { AreAlike latest result.insert }
    ensures replace_alike { AreAlike uses result.replace }
    ensures inserted { AreInsertedRows latest isolated result.insert }
    ensures replaced { AreReplacedRows uses latest isolated result.replace }
{
    let mut left_alone = isolated;
    left_alone.and_rows(&latest);
    let mut insert = latest;
    insert.minus_rows(&left_alone);
    let mut replace = uses;
    replace.minus_rows(&left_alone);
    Placement { insert, replace }
}
