// The blocks of a line of prints.
use crate::tests::support::graph_of;
use flow_graph::{Blocks, Edges, Graph};
use mir_base::Memory;
use std::alloc::{AllocError, Global};
use std::mem;
use std::test::Fail;

/// 4,096 prints are one block of 4,098 nodes.
#[test]
fn a_line_is_one_block(rt: HostRuntime) -> Result<(), Fail> {
    assert!(rt; nodes_and_blocks(rt.alloc())? == (4098, 1));
    Ok(())
}

/// How many nodes and how many blocks they have.
fn nodes_and_blocks(alloc: Global) -> Result<(usize, usize), Fail> {
    let text = prints(alloc)?;
    let graph = graph_of(alloc, text.as_str());
    mem::drop(text);
    let graph = graph?;
    let (nodes, blocks) = (graph.len(), blocks_of(alloc, &graph));
    mem::drop(graph);
    Ok((nodes, blocks?))
}

/// The text of a unit of 4,096 prints.
fn prints(alloc: Global) -> Result<String, AllocError> {
    let mut text = String::new(alloc);
    put_prints(&mut text)?;
    Ok(text)
}

/// Appends it.
fn put_prints(text: &mut String) -> Result<(), AllocError> {
    text.push_str("main: begin\n")?;
    for _ in 0..4096 {
        text.push_str("print 1\n")?;
    }
    text.push_str("end")
}

/// How many blocks the graph has.
fn blocks_of(alloc: Global, graph: &Graph) -> Result<usize, Memory> {
    let edges = Edges::of(alloc, graph)?;
    let blocks = Blocks::of(alloc, graph, &edges);
    mem::drop(edges);
    let blocks = blocks?;
    let count = blocks.len();
    mem::drop(blocks);
    Ok(count)
}
