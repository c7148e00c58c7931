// What the rows of each node's neighbours say of it.
ghost use Rattle.std.specs.Prelude.{◌≡◌, ◌+◌, ◌<◌, length, IfOk, OnOk};
ghost use Rattle.flow_graph.specs.Edges.{edges_of};
ghost use Rattle.flow_graph.specs.Graphs.{IsGraph};
ghost use Rattle.path_laws.specs.Leads.{SomeStep, TellLasts, TellSteps};
ghost use Rattle.path_laws.specs.Paths.{HaveShape, IsLastNode, SomePred, SomeSucc, TellEach, width};

use crate::graph_edges::{flow_edge, leaving};
use bit_rows::Rows;
use flow_graph::{Edges, Graph};
use mir_base::Memory;
use std::alloc::Global;

/// Bit b at node n is true exactly where some predecessor of n has it. Rows go by nodes, and have equally many bits;
/// `edges` are those of `graph`. It fails only with `Memory`.
pub fn some_predecessor(
    alloc: Global,
    graph: &Graph,
    edges: &Edges,
    rows: &Rows,
) -> Result<Rows, Memory>
    requires edges { edges.now ≡ edges_of graph.now.nodes }
    requires rows { HaveShape graph.now (width rows.now) rows.now }
    ensures graph { OnOk result (IsGraph graph.now.vars graph.now.received graph.now.nodes) }
    ensures shape { IfOk result (HaveShape graph.now (width rows.now)) }
    ensures joins { IfOk result (TellEach graph.now (SomePred graph.now.nodes rows.now)) }
{
    let all = one_step_on(alloc, graph, edges, false, rows.bits(), rows)?;
    Ok(all)
}

/// Bit b at node n is true exactly where some successor of n has it. Rows go by nodes, and have equally many bits;
/// `edges` are those of `graph`. It fails only with `Memory`.
pub fn some_successor(
    alloc: Global,
    graph: &Graph,
    edges: &Edges,
    rows: &Rows,
) -> Result<Rows, Memory>
    requires edges { edges.now ≡ edges_of graph.now.nodes }
    requires rows { HaveShape graph.now (width rows.now) rows.now }
    ensures graph { OnOk result (IsGraph graph.now.vars graph.now.received graph.now.nodes) }
    ensures shape { IfOk result (HaveShape graph.now (width rows.now)) }
    ensures joins { IfOk result (TellEach graph.now (SomeSucc graph.now.nodes rows.now)) }
{
    let all = one_step_on(alloc, graph, edges, true, rows.bits(), rows)?;
    Ok(all)
}

/// Bit b at node n is true exactly where `rows` has it, and `stop` has it too or `rows` has it not at some successor of
/// n: where what `rows` say of the bit ends. Rows go by nodes, and have equally many bits; `edges` are those of
/// `graph`. It fails only with `Memory`.
pub fn last_nodes(
    alloc: Global,
    graph: &Graph,
    edges: &Edges,
    rows: &Rows,
    stop: &Rows,
) -> Result<Rows, Memory>
    requires edges { edges.now ≡ edges_of graph.now.nodes }
    requires rows { HaveShape graph.now (width rows.now) rows.now }
    requires stop { HaveShape graph.now (width rows.now) stop.now }
    ensures graph { OnOk result (IsGraph graph.now.vars graph.now.received graph.now.nodes) }
    ensures shape { IfOk result (HaveShape graph.now (width rows.now)) }
    ensures last { IfOk result (TellEach graph.now (IsLastNode graph.now.nodes rows.now stop.now)) }
{
    let all = lasts(alloc, graph, edges, rows.bits(), rows, stop)?;
    Ok(all)
}

/// The same of rows of so many bits.
fn lasts(
    alloc: Global,
    graph: &Graph,
    edges: &Edges,
    bits: usize,
    rows: &Rows,
    stop: &Rows,
) -> Result<Rows, Memory>
    requires edges { edges.now ≡ edges_of graph.now.nodes }
    requires rows { HaveShape graph.now bits rows.now }
    requires stop { HaveShape graph.now bits stop.now }
    ensures graph { OnOk result (IsGraph graph.now.vars graph.now.received graph.now.nodes) }
    ensures shape { IfOk result (HaveShape graph.now bits) }
    ensures last { IfOk result (TellEach graph.now (IsLastNode graph.now.nodes rows.now stop.now)) }
{
    let count = graph.nodes().len();
    let mut all = Rows::with_room(alloc, count, bits)?;
    for node in 0..count {
        push_last(graph, edges, bits, rows, stop, node, &mut all)?;
    }
    Ok(all)
}

/// Puts the row of a node at the end: the bits of which it is a last node.
fn push_last(
    graph: &Graph,
    edges: &Edges,
    bits: usize,
    rows: &Rows,
    stop: &Rows,
    node: usize,
    all: &mut Rows,
) -> Result<(), Memory>
    requires edges { edges.now ≡ edges_of graph.now.nodes }
    requires rows { HaveShape graph.now bits rows.now }
    requires stop { HaveShape graph.now bits stop.now }
    requires node { node < length graph.now.nodes }
    requires all { TellLasts graph.now.nodes bits rows.now stop.now node all.old }
    ensures { OnOk result
        (TellLasts graph.now.nodes bits rows.now stop.now (node + 1) all.new) }
{
    let _nodes = graph.nodes();
    let _ = bits;
    let here = rows.row(node);
    all.push(&stop.row(node))?;
    all.and_from(node, &here);
    let (first, end) = leaving(edges, false, node);
    for number in first..end {
        let (_, next) = flow_edge(edges, false, number);
        all.or_minus_from(node, &here, &rows.row(next));
    }
    Ok(())
}

/// At which nodes each bit is true one step on, from a node to a successor, or, against the edges, to a predecessor.
fn one_step_on(
    alloc: Global,
    graph: &Graph,
    edges: &Edges,
    against: bool,
    bits: usize,
    rows: &Rows,
) -> Result<Rows, Memory>
    requires edges { edges.now ≡ edges_of graph.now.nodes }
    requires rows { HaveShape graph.now bits rows.now }
    ensures graph { OnOk result (IsGraph graph.now.vars graph.now.received graph.now.nodes) }
    ensures shape { IfOk result (HaveShape graph.now bits) }
    ensures joins { IfOk result (TellEach graph.now (SomeStep against graph.now.nodes rows.now)) }
{
    let count = graph.nodes().len();
    let mut all = Rows::with_room(alloc, count, bits)?;
    for node in 0..count {
        push_step(graph, edges, against, bits, rows, node, &mut all)?;
    }
    Ok(all)
}

/// Puts the row of a node at the end: the disjunction of the rows of its neighbours one step on.
fn push_step(
    graph: &Graph,
    edges: &Edges,
    against: bool,
    bits: usize,
    rows: &Rows,
    node: usize,
    all: &mut Rows,
) -> Result<(), Memory>
    requires edges { edges.now ≡ edges_of graph.now.nodes }
    requires rows { HaveShape graph.now bits rows.now }
    requires node { node < length graph.now.nodes }
    requires all { TellSteps against graph.now.nodes bits rows.now node all.old }
    ensures { OnOk result
        (TellSteps against graph.now.nodes bits rows.now (node + 1) all.new) }
{
    let _nodes = graph.nodes();
    let (first, end) = leaving(edges, !against, node);
    if first < end {
        let (_, start) = flow_edge(edges, !against, first);
        all.push(&rows.row(start))?;
        for number in first + 1..end {
            let (_, next) = flow_edge(edges, !against, number);
            all.or_from(node, &rows.row(next));
        }
        Ok(())
    } else {
        all.push_false(bits)
    }
}
