// On how many edges the lazy placement of a split graph holds its temporaries.
ghost use Rattle.std.specs.Prelude.{◌≡◌, ◌<◌, length};
ghost use Rattle.bit_rows.specs.Bits.{AreEquallyLong};
ghost use Rattle.flow_graph.specs.Edges.{IsSplit, edges_of};

use crate::tests::placing::split_edges;
use crate::tests::shown::put_rhs;
use down_safe::EveryPath;
use flow_graph::{Edges, Graph};
use latest_place::lazy;
use live_range::{Held, RangeCounts, count_ranges, ranges};
use mir_base::{Expr, Memory, Name, Rhs};
use motion_rewrite::{ExprTable, Placement, exprs};
use std::alloc::Global;
use std::mem;
use std::test::Fail;

/// For each expression of a graph, which has to be split, that the lazy placement inserts, appends a line with the
/// expression, the number of its insertions, that of its replaced uses, and that of the edges on which its temporary is
/// held; and one with these edges.
pub(crate) fn put_ranges(alloc: Global, text: &mut String, graph: &Graph) -> Result<(), Fail> {
    let edges = split_edges(alloc, graph)?;
    let put = put_over(alloc, text, graph, &edges);
    mem::drop(edges);
    Ok(put?)
}

/// Appends these lines, by the edges of the graph, which is split.
fn put_over(alloc: Global, text: &mut String, graph: &Graph, edges: &Edges) -> Result<(), Memory>
    requires split { IsSplit graph.now.nodes }
    requires edges { edges.now ≡ edges_of graph.now.nodes }
{
    let table = exprs(alloc, graph)?;
    let put = put_table(alloc, text, graph, edges, &table);
    mem::drop(table);
    put
}

/// Appends the lines of where the temporaries of a table live.
fn put_table(
    alloc: Global,
    text: &mut String,
    graph: &Graph,
    edges: &Edges,
    table: &ExprTable,
) -> Result<(), Memory>
    requires split { IsSplit graph.now.nodes }
    requires edges { edges.now ≡ edges_of graph.now.nodes }
{
    let placement = lazy(alloc, &EveryPath, graph, edges, table)?;
    let held = ranges(alloc, &EveryPath, graph, edges, table, &placement);
    let put = match held {
        Ok(held) => put_held(alloc, text, graph.vars(), edges, table, &placement, &held),
        Err(refused) => Err(refused),
    };
    mem::drop(placement);
    put
}

/// Appends the lines of these expressions.
fn put_held(
    alloc: Global,
    text: &mut String,
    vars: &[Name],
    edges: &Edges,
    table: &ExprTable,
    placement: &Placement,
    held: &Held,
) -> Result<(), Memory>
    requires insert { AreEquallyLong (length table.now) placement.now.insert }
    requires replace { AreEquallyLong (length table.now) placement.now.replace }
    requires edges { AreEquallyLong (length table.now) held.now.edges }
{
    let counts = count_ranges(alloc, table.len(), placement, held)?;
    let put = put_lines(text, vars, edges, table, held, &counts);
    mem::drop(counts);
    put
}

/// Appends the lines of each.
fn put_lines(
    text: &mut String,
    vars: &[Name],
    edges: &Edges,
    table: &ExprTable,
    held: &Held,
    counts: &RangeCounts,
) -> Result<(), Memory> {
    for number in 0..table.len() {
        put_line(text, vars, table, counts, number)?;
        put_edges(text, edges, held, counts, number)?;
    }
    Ok(())
}

/// Appends the line of the expression of this number, where it is inserted.
fn put_line(
    text: &mut String,
    vars: &[Name],
    table: &ExprTable,
    counts: &RangeCounts,
    number: usize,
) -> Result<(), Memory>
    requires { number < length table.now }
{
    let (inserted, replaced, held) = numbers_of(counts, number);
    if inserted > 0 {
        put_rhs(text, vars, &rhs_of(table.get(number)))?;
        write!(
            text,
            " inserted {inserted} replaced {replaced} held {held}\n"
        )?;
    }
    Ok(())
}

/// How often the expression of this number is inserted, replaced and held.
fn numbers_of(counts: &RangeCounts, number: usize) -> (usize, usize, usize) {
    (
        number_of(counts.inserted.items(), number),
        number_of(counts.replaced.items(), number),
        number_of(counts.held.items(), number),
    )
}

/// The number at a place, and 0 past the last.
fn number_of(numbers: &[usize], place: usize) -> usize {
    match numbers.get(place) {
        Some(number) => *number,
        None => 0,
    }
}

/// Appends a line with the edges on which the temporary of an expression is held, where it is inserted.
fn put_edges(
    text: &mut String,
    edges: &Edges,
    held: &Held,
    counts: &RangeCounts,
    number: usize,
) -> Result<(), Memory> {
    let (inserted, _, _) = numbers_of(counts, number);
    if inserted == 0 {
        return Ok(());
    }
    text.push_str("on")?;
    for place in 0..held.edges.len() {
        if number < held.edges.bits() && held.edges.get(place, number) && place < edges.len() {
            let edge = edges.edge(place);
            write!(text, " {}-{}", edge.source, edge.target)?;
        }
    }
    text.push('\n')
}

/// The expression as a right side.
fn rhs_of(expr: &Expr) -> Rhs {
    match expr {
        Expr::Un(op, a) => Rhs::Unary(*op, *a),
        Expr::Bin(op, a, b) => Rhs::Binary(*op, *a, *b),
    }
}
