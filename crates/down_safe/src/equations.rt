// The equations that say where an expression is safe: available, down by a rule, and earliest.
ghost use Rattle.std.specs.Prelude.{◌≡◌, IfOk};
ghost use Rattle.flow_graph.specs.Blocks.{AreBlocksOf};
ghost use Rattle.flow_graph.specs.Edges.{IsSplit, edges_of};
ghost use Rattle.motion_rewrite.specs.Placements.{IsAvailable};
ghost use Rattle.motion_rewrite.specs.Rows.{AreRowsWhere};
ghost use Rattle.down_safe.specs.Busy.{AreBusyRows, AreEarliestOf, AreSitesOf, IsEarliest};

use crate::bits::{available_rows, earliest_rows};
use crate::{Busy, DownRule, EarliestSites, Sites};
use bit_rows::Rows;
use flow_graph::{Blocks, Edges, Graph};
use mir_base::Memory;
use motion_rewrite::{ExprTable, kill_rows, use_rows};
use std::alloc::Global;

/// At which nodes each expression of the table is used, available, down by the rule, and earliest, each as rows with
/// one row for each node and one bit for each expression. The graph is split, and `edges` are those of `graph`. It
/// fails only with `Memory`.
pub fn busy<R: DownRule>(
    alloc: Global,
    rule: &R,
    graph: &Graph,
    edges: &Edges,
    table: &ExprTable,
) -> Result<Busy, Memory>
    requires split { IsSplit graph.now.nodes }
    requires edges { edges.now ≡ edges_of graph.now.nodes }
    ensures { IfOk result (AreBusyRows graph.now table.now (R.is_down rule.now graph.now)) }
{
    let blocks = Blocks::of(alloc, graph, edges)?;
    busy_over(alloc, rule, graph, edges, &blocks, table)
}

/// The same, with the blocks of the graph at hand.
fn busy_over<R: DownRule>(
    alloc: Global,
    rule: &R,
    graph: &Graph,
    edges: &Edges,
    blocks: &Blocks,
    table: &ExprTable,
) -> Result<Busy, Memory>
    requires split { IsSplit graph.now.nodes }
    requires edges { edges.now ≡ edges_of graph.now.nodes }
    requires blocks { AreBlocksOf graph.now.nodes blocks.now }
    ensures { IfOk result (AreBusyRows graph.now table.now (R.is_down rule.now graph.now)) }
{
    let uses = use_rows(alloc, graph, table)?;
    let kills = kill_rows(alloc, graph, table)?;
    let sites = Sites {
        graph,
        edges,
        blocks,
        uses: &uses,
        kills: &kills,
    };
    let available = available(alloc, &sites, table)?;
    let anticipatable = rule.down(alloc, &sites, table)?;
    let kept = available.copied(alloc)?;
    let earliest = earliest(alloc, rule, &sites, table, available, &anticipatable)?;
    Ok(Busy {
        uses,
        available: kept,
        anticipatable,
        earliest,
    })
}

/// At which nodes each expression of the table is used, and earliest by the rule, with the blocks of the graph at hand.
/// Of the rows that lead to them none are kept. It fails only with `Memory`.
pub fn earliest_over<R: DownRule>(
    alloc: Global,
    rule: &R,
    graph: &Graph,
    edges: &Edges,
    blocks: &Blocks,
    table: &ExprTable,
) -> Result<EarliestSites, Memory>
    requires split { IsSplit graph.now.nodes }
    requires edges { edges.now ≡ edges_of graph.now.nodes }
    requires blocks { AreBlocksOf graph.now.nodes blocks.now }
    ensures { IfOk result (AreEarliestOf graph.now table.now (R.is_down rule.now graph.now)) }
{
    let uses = use_rows(alloc, graph, table)?;
    let kills = kill_rows(alloc, graph, table)?;
    let sites = Sites {
        graph,
        edges,
        blocks,
        uses: &uses,
        kills: &kills,
    };
    let available = available(alloc, &sites, table)?;
    let anticipatable = rule.down(alloc, &sites, table)?;
    let earliest = earliest(alloc, rule, &sites, table, available, &anticipatable)?;
    Ok(EarliestSites { uses, earliest })
}

/// Available: every path from Start has evaluated the expression, and no operand has been assigned since.
fn available(alloc: Global, sites: &Sites<'_>, table: &ExprTable) -> Result<Rows, Memory>
    requires { AreSitesOf sites.now table.now }
    ensures { IfOk result
        (AreRowsWhere sites.now.graph.now table.now (IsAvailable sites.now.graph.now)) }
{
    let _ = table;
    let rows = available_rows(alloc, sites)?;
    Ok(rows)
}

/// Earliest: down by the rule, with a predecessor that kills the expression, or at which it is neither available nor
/// down.
fn earliest<R: DownRule>(
    alloc: Global,
    rule: &R,
    sites: &Sites<'_>,
    table: &ExprTable,
    available: Rows,
    anticipatable: &Rows,
) -> Result<Rows, Memory>
    requires sites { AreSitesOf sites.now table.now }
    requires available { AreRowsWhere sites.now.graph.now table.now
        (IsAvailable sites.now.graph.now) available }
    requires anticipatable { AreRowsWhere sites.now.graph.now table.now
        (R.is_down rule.now sites.now.graph.now) anticipatable.now }
    ensures { IfOk result (AreRowsWhere sites.now.graph.now table.now
        (λ e. IsEarliest sites.now.graph.now e (R.is_down rule.now sites.now.graph.now e))) }
{
    let _ = rule;
    let _ = table;
    let rows = earliest_rows(alloc, sites, available, anticipatable)?;
    Ok(rows)
}
