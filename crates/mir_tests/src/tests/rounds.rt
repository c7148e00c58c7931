// How many rounds of sinking there are.
use crate::tests::support::graph_of;
use edge_split::split;
use flow_graph::{Edges, Graph, is_split};
use sink_rounds::{round, rounds};
use std::alloc::{AllocError, Global};
use std::mem;
use std::test::Fail;

/// Of sums, each of the one before, that one way from a test alone needs, each round sinks one more: the last is no
/// longer read before the test once the one behind it has sunk. Three have sunk after three rounds, and the fourth
/// round changes nothing. Twenty would want twenty-one rounds, and sixteen are made.
#[test]
fn rounds_stop_at_sixteen(rt: HostRuntime) -> Result<(), Fail> {
    for (sums, made) in [(3, (4, false)), (20, (16, true))].iter() {
        assert!(rt; rounds_of(rt.alloc(), *sums)? == *made);
    }
    Ok(())
}

/// How many rounds are made of a unit with so many sums, and whether one more would change the last.
fn rounds_of(alloc: Global, sums: u32) -> Result<(usize, bool), Fail> {
    let text = chain(alloc, sums)?;
    let graph = graph_of(alloc, text.as_str());
    mem::drop(text);
    let graph = graph?;
    let split = split(alloc, &graph);
    mem::drop(graph);
    let split = split?;
    let rounds = rounds_on(alloc, &split);
    mem::drop(split);
    rounds
}

/// The text of a unit with so many sums, each of the one before, of which one way from a test needs the last.
fn chain(alloc: Global, sums: u32) -> Result<String, AllocError> {
    let mut text = String::new(alloc);
    put_chain(&mut text, sums)?;
    Ok(text)
}

/// Appends it.
fn put_chain(text: &mut String, sums: u32) -> Result<(), AllocError> {
    text.push_str("main: begin\nreceive x0(val)\n")?;
    for sum in 0..sums {
        write!(text, "x{} <- x{sum} + 1\n", sum + 1)?;
    }
    write!(text, "if x0 goto L\nreturn x0\nL: return x{sums}\nend")
}

/// How many rounds are made of a graph, which has to be split, and whether one more would change the last.
fn rounds_on(alloc: Global, graph: &Graph) -> Result<(usize, bool), Fail> {
    let edges = Edges::of(alloc, graph)?;
    let splits = is_split(graph, &edges);
    mem::drop(edges);
    if !splits {
        return Err("not split".into());
    }
    let made = rounds(alloc, graph)?;
    let counted = counted(alloc, made.graphs.items());
    mem::drop(made);
    counted
}

/// How many graphs there are, and whether a round would change the last.
fn counted(alloc: Global, graphs: &[Graph]) -> Result<(usize, bool), Fail> {
    let last = graphs.last().ok_or("no round")?;
    Ok((graphs.len(), would_change(alloc, last)?))
}

/// Whether a round changes a graph, which has to be split.
fn would_change(alloc: Global, graph: &Graph) -> Result<bool, Fail> {
    let edges = Edges::of(alloc, graph)?;
    let splits = is_split(graph, &edges);
    mem::drop(edges);
    if !splits {
        return Err("not split".into());
    }
    Ok(round(alloc, graph)?.changed)
}
