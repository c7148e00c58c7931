// Where a bit holds by the three statements about paths; and that the call that makes its own blocks gives the same
// rows.
ghost use Rattle.std.specs.Prelude.{◌≡◌, IfOk};
ghost use Rattle.flow_graph.specs.Blocks.{AreBlocksOf};
ghost use Rattle.flow_graph.specs.Edges.{edges_of};
ghost use Rattle.path_laws.specs.Paths.{HaveShape};

use crate::tests::shown::put_bit;
use bit_rows::Rows;
use flow_graph::{Blocks, Edges, Graph};
use mir_base::Memory;
use path_laws::{
    backward_all_over, backward_some_over, forward_all, forward_all_over, some_successor,
};
use std::alloc::Global;
use std::mem;
use std::test::Fail;

/// Appends where a bit holds by a statement about paths. The words are the statement's name and, after `born` and
/// `stop`, the nodes at which the bit is born and stopped. It holds `before` a node on every path to it, `after` it on
/// every path from it, `ahead` on some path from it, and `beyond` it on some path from a successor.
pub(crate) fn put_held(
    alloc: Global,
    text: &mut String,
    words: &str,
    graph: &Graph,
) -> Result<(), Fail> {
    let (name, born_and_stopped) = words.split_once(" born").ok_or("no births")?;
    let (born, stop) = born_and_stopped.split_once(" stop").ok_or("no stops")?;
    let edges = Edges::of(alloc, graph)?;
    let put = put_along(alloc, text, name, graph, &edges, born, stop);
    mem::drop(edges);
    Ok(put?)
}

/// The same, along the edges of the graph.
fn put_along(
    alloc: Global,
    text: &mut String,
    name: &str,
    graph: &Graph,
    edges: &Edges,
    born: &str,
    stop: &str,
) -> Result<(), Memory>
    requires { edges.now ≡ edges_of graph.now.nodes }
{
    let born = rows_at(alloc, graph, born)?;
    let put = put_from(alloc, text, name, graph, edges, &born, stop);
    mem::drop(born);
    put
}

/// The same, from where the bit is born.
fn put_from(
    alloc: Global,
    text: &mut String,
    name: &str,
    graph: &Graph,
    edges: &Edges,
    born: &Rows,
    stop: &str,
) -> Result<(), Memory>
    requires edges { edges.now ≡ edges_of graph.now.nodes }
    requires born { HaveShape graph.now 1 born.now }
{
    let stop = rows_at(alloc, graph, stop)?;
    let put = put_between(alloc, text, name, graph, edges, born, &stop);
    mem::drop(stop);
    put
}

/// The same, to where it is stopped.
fn put_between(
    alloc: Global,
    text: &mut String,
    name: &str,
    graph: &Graph,
    edges: &Edges,
    born: &Rows,
    stop: &Rows,
) -> Result<(), Memory>
    requires edges { edges.now ≡ edges_of graph.now.nodes }
    requires born { HaveShape graph.now 1 born.now }
    requires stop { HaveShape graph.now 1 stop.now }
{
    let blocks = Blocks::of(alloc, graph, edges)?;
    let held = held(alloc, statement_of(name), graph, edges, &blocks, born, stop);
    mem::drop(blocks);
    let held = held?;
    let put = put_bit(text, name, &held, 0);
    let put = match statement_of(name) {
        Statement::Before => {
            let plain = forward_all(alloc, graph, edges, born, stop);
            put_both(text, put, &held, plain)
        }
        Statement::After | Statement::Ahead | Statement::Beyond => put,
    };
    mem::drop(held);
    put
}

/// Appends, where the call that makes its own blocks says otherwise, what it says.
fn put_both(
    text: &mut String,
    put: Result<(), Memory>,
    held: &Rows,
    plain: Result<Rows, Memory>,
) -> Result<(), Memory> {
    let plain = plain?;
    let both = put_other(text, put, held, &plain);
    mem::drop(plain);
    both
}

/// The same, where both are found.
fn put_other(
    text: &mut String,
    put: Result<(), Memory>,
    held: &Rows,
    plain: &Rows,
) -> Result<(), Memory> {
    put?;
    if are_same(held, plain) {
        return Ok(());
    }
    put_bit(text, "by itself before", plain, 0)
}

/// Whether bit 0 of both holds at the same nodes.
fn are_same(held: &Rows, plain: &Rows) -> bool {
    for node in 0..held.len().max(plain.len()) {
        if holds(held, node) != holds(plain, node) {
            return false;
        }
    }
    true
}

/// Whether bit 0 holds at a node.
fn holds(rows: &Rows, node: usize) -> bool {
    node < rows.len() && 0 < rows.bits() && rows.get(node, 0)
}

/// A statement about paths.
#[derive(Clone, Copy, Debug, PartialEq, Eq)]
enum Statement {
    Before,
    After,
    Ahead,
    Beyond,
}

/// The statement of this name.
fn statement_of(name: &str) -> Statement {
    match name {
        "before" => Statement::Before,
        "after" => Statement::After,
        "ahead" => Statement::Ahead,
        _ => Statement::Beyond,
    }
}

/// The rows of where a bit holds by the statement, that is born and stopped at these nodes.
fn held(
    alloc: Global,
    statement: Statement,
    graph: &Graph,
    edges: &Edges,
    blocks: &Blocks,
    born: &Rows,
    stop: &Rows,
) -> Result<Rows, Memory>
    requires edges { edges.now ≡ edges_of graph.now.nodes }
    requires blocks { AreBlocksOf graph.now.nodes blocks.now }
    requires born { HaveShape graph.now 1 born.now }
    requires stop { HaveShape graph.now 1 stop.now }
{
    match statement {
        Statement::Before => forward_all_over(alloc, graph, edges, blocks, born, stop),
        Statement::After => backward_all_over(alloc, graph, edges, blocks, born, stop),
        Statement::Ahead => backward_some_over(alloc, graph, edges, blocks, born, stop),
        Statement::Beyond => {
            let ahead = backward_some_over(alloc, graph, edges, blocks, born, stop)?;
            let beyond = some_successor(alloc, graph, edges, &ahead);
            mem::drop(ahead);
            beyond
        }
    }
}

/// Rows of one bit for each node, true at the nodes whose numbers are among these words.
fn rows_at(alloc: Global, graph: &Graph, words: &str) -> Result<Rows, Memory>
    ensures { IfOk result (λ rows. HaveShape graph.now 1 rows) }
{
    let mut rows = Rows::new(alloc, graph.len(), 1)?;
    for word in words.split(' ') {
        if let Ok(node) = word.parse::<usize>() {
            if node < rows.len() {
                rows.set(node, 0, true);
            }
        }
    }
    Ok(rows)
}
