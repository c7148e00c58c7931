// What code motion finds out of an expression of a split graph.
ghost use Rattle.std.specs.Prelude.{◌≡◌, IfOk, OnOk};
ghost use Rattle.flow_graph.specs.Edges.{IsSplit, edges_of};

use crate::tests::shown::put_bit;
use bit_rows::Rows;
use down_safe::{Busy, EveryPath, busy};
use flow_graph::{Edges, Graph, is_split};
use latest_place::{Late, late, lazy};
use mir_base::Memory;
use motion_rewrite::{ExprTable, Placement, exprs, kill_rows, use_rows};
use std::alloc::Global;
use std::mem;
use std::test::Fail;

/// Appends where an expression of a graph, which has to be split, is used, killed, available, anticipatable, earliest,
/// delayed, latest and isolated, and where the busy placement and the lazy one insert and replace it. The expression is
/// the one of this number in the table.
pub(crate) fn put_motion(
    alloc: Global,
    text: &mut String,
    graph: &Graph,
    number: usize,
) -> Result<(), Fail> {
    let edges = split_edges(alloc, graph)?;
    let put = put_over(alloc, text, graph, &edges, number);
    mem::drop(edges);
    Ok(put?)
}

/// The edges of a graph that has to be split.
pub(crate) fn split_edges(alloc: Global, graph: &Graph) -> Result<Edges, Fail>
    ensures edges { IfOk result (λ edges. edges ≡ edges_of graph.now.nodes) }
    ensures split { OnOk result (IsSplit graph.now.nodes) }
{
    let edges = Edges::of(alloc, graph)?;
    if !is_split(graph, &edges) {
        return Err("a split graph".into());
    }
    Ok(edges)
}

/// The same, over the edges of a graph that is split.
fn put_over(
    alloc: Global,
    text: &mut String,
    graph: &Graph,
    edges: &Edges,
    number: usize,
) -> Result<(), Memory>
    requires split { IsSplit graph.now.nodes }
    requires edges { edges.now ≡ edges_of graph.now.nodes }
{
    let table = exprs(alloc, graph)?;
    let put = put_table(alloc, text, graph, edges, &table, number);
    mem::drop(table);
    put
}

/// The same, of the table of the expressions.
fn put_table(
    alloc: Global,
    text: &mut String,
    graph: &Graph,
    edges: &Edges,
    table: &ExprTable,
    number: usize,
) -> Result<(), Memory>
    requires split { IsSplit graph.now.nodes }
    requires edges { edges.now ≡ edges_of graph.now.nodes }
{
    put_rows(text, "used", use_rows(alloc, graph, table), number)?;
    put_rows(text, "killed", kill_rows(alloc, graph, table), number)?;
    put_equations(alloc, text, graph, edges, table, number)?;
    let placement = lazy(alloc, &EveryPath, graph, edges, table);
    put_placement(text, placement, number)
}

/// Appends a line for rows that a call answers.
fn put_rows(
    text: &mut String,
    name: &str,
    rows: Result<Rows, Memory>,
    number: usize,
) -> Result<(), Memory> {
    let rows = rows?;
    let put = put_bit(text, name, &rows, number);
    mem::drop(rows);
    put
}

/// Appends a line for each equation of the lazy placement, and the busy placement.
fn put_equations(
    alloc: Global,
    text: &mut String,
    graph: &Graph,
    edges: &Edges,
    table: &ExprTable,
    number: usize,
) -> Result<(), Memory>
    requires split { IsSplit graph.now.nodes }
    requires edges { edges.now ≡ edges_of graph.now.nodes }
{
    let busy = busy(alloc, &EveryPath, graph, edges, table)?;
    let late = late(alloc, &EveryPath, graph, edges, table, &busy);
    let put = put_safe_and_late(text, &busy, late, number);
    mem::drop(busy);
    put
}

/// The same, where these were found.
fn put_safe_and_late(
    text: &mut String,
    busy: &Busy,
    late: Result<Late, Memory>,
    number: usize,
) -> Result<(), Memory> {
    let late = late?;
    let put = put_found(text, busy, &late, number);
    mem::drop(late);
    put
}

/// Appends a line each for where the expression is available, anticipatable and earliest, and where it is delayed,
/// latest and isolated; and the busy placement, which inserts where it is earliest and replaces each use.
fn put_found(text: &mut String, busy: &Busy, late: &Late, number: usize) -> Result<(), Memory> {
    put_bit(text, "available", &busy.available, number)?;
    put_bit(text, "anticipatable", &busy.anticipatable, number)?;
    put_bit(text, "earliest", &busy.earliest, number)?;
    put_bit(text, "delayed", &late.delayed, number)?;
    put_bit(text, "latest", &late.latest, number)?;
    put_bit(text, "isolated", &late.isolated, number)?;
    put_bit(text, "busy inserted", &busy.earliest, number)?;
    put_bit(text, "busy replaced", &busy.uses, number)
}

/// Appends a line for the insertions of the lazy placement, and one for its replacements.
fn put_placement(
    text: &mut String,
    placement: Result<Placement, Memory>,
    number: usize,
) -> Result<(), Memory> {
    let placement = placement?;
    let put = put_places(text, &placement, number);
    mem::drop(placement);
    put
}

/// Appends these two lines.
fn put_places(text: &mut String, placement: &Placement, number: usize) -> Result<(), Memory> {
    put_bit(text, "lazy inserted", &placement.insert, number)?;
    put_bit(text, "lazy replaced", &placement.replace, number)
}
