// Where the assignments of a graph are delayed and inserted, and where its variables are live.
ghost use Rattle.std.specs.Prelude.{◌<◌, length};
ghost use Rattle.path_laws.specs.Paths.{HaveShape};

use crate::tests::shown::{put_bit, put_rhs, put_var};
use bit_rows::Rows;
use dead_code::live_rows;
use flow_graph::{Edges, Graph};
use graph_edit::GraphFlow;
use mir_base::{Memory, Name};
use path_laws::some_successor;
use sink_code::DelayedPatterns;
use std::alloc::Global;
use std::mem;

// ---- patterns

/// For each pattern of a graph that can still move, appends a line with the pattern, and one each with the nodes at
/// which it is blocked, delayed and inserted.
pub(crate) fn put_delays(alloc: Global, text: &mut String, graph: &Graph) -> Result<(), Memory> {
    let edges = Edges::of(alloc, graph)?;
    let found = DelayedPatterns::of(alloc, graph, &edges);
    mem::drop(edges);
    let found = found?;
    let put = put_patterns(text, graph.vars(), &found);
    mem::drop(found);
    put
}

/// Appends the lines of these patterns.
fn put_patterns(text: &mut String, vars: &[Name], found: &DelayedPatterns) -> Result<(), Memory> {
    for number in 0..found.table.len() {
        put_pattern(text, vars, found, number)?;
    }
    Ok(())
}

/// Appends the lines of the pattern of this number.
fn put_pattern(
    text: &mut String,
    vars: &[Name],
    found: &DelayedPatterns,
    number: usize,
) -> Result<(), Memory>
    requires { number < length found.now.table }
{
    let pattern = *found.table.get(number);
    put_var(text, vars, pattern.var)?;
    text.push_str(" <- ")?;
    put_rhs(text, vars, &pattern.rhs)?;
    text.push('\n')?;
    put_bit(text, "blocked", &found.blocked, number)?;
    put_bit(text, "delayed", &found.delayed, number)?;
    put_bit(text, "inserted", &found.inserted, number)
}

// ---- variables

/// For each variable of a graph, appends a line with the nodes before which it is live, and one with those after which
/// it is, that is before some successor.
pub(crate) fn put_live(alloc: Global, text: &mut String, graph: &Graph) -> Result<(), Memory> {
    let flow = GraphFlow::of(alloc, graph)?;
    let live = live_rows(alloc, graph, &flow);
    mem::drop(flow);
    let live = live?;
    let put = put_with(alloc, text, graph, &live);
    mem::drop(live);
    put
}

/// Appends these lines, where `live` says which variables are live before each node.
fn put_with(alloc: Global, text: &mut String, graph: &Graph, live: &Rows) -> Result<(), Memory>
    requires { HaveShape graph.now (length graph.now.vars) live.now }
{
    let edges = Edges::of(alloc, graph)?;
    let after = some_successor(alloc, graph, &edges, live);
    mem::drop(edges);
    let after = after?;
    let put = put_variables(text, graph.vars(), live, &after);
    mem::drop(after);
    put
}

/// Appends the lines of these variables.
fn put_variables(
    text: &mut String,
    vars: &[Name],
    live: &Rows,
    after: &Rows,
) -> Result<(), Memory> {
    for x in 0..vars.len() {
        put_var(text, vars, x)?;
        put_bit(text, " before", live, x)?;
        put_var(text, vars, x)?;
        put_bit(text, " after", after, x)?;
    }
    Ok(())
}
