// The edges between blocks.
ghost use Rattle.std.specs.Prelude.{◌≡◌, ◌<◌, length, IfOk, OnOk};
ghost use Rattle.flow_graph.specs.Blocks.{AreBlocksOf};
ghost use Rattle.flow_graph.specs.Edges.{edges_of};
ghost use Rattle.path_laws.specs.Between.{AddsOut, AreBlockEdges, IsAhead, IsAheadOf};

use crate::graph_edges::{flow_edge, leaving};
use flow_graph::{Blocks, Edge, Edges, Graph};
use mir_base::Memory;
use std::alloc::Global;

/// The edges of a flow over blocks.
#[derive(Drop)]
pub struct BlockEdges {
    /// From block to block, in order of the blocks that they leave.
    pub edges: Vec<Edge>,
    /// For each block the number of its first edge, and at the end the number of edges.
    pub firsts: Vec<usize>,
}

/// The edges from block to block, for a flow over blocks: along the edges of the graph each leaves the last node of its
/// block; `against` them each is turned round, and leaves the first. `edges` and `blocks` are those of `graph`. It
/// fails only with `Memory`.
pub fn edges_between(
    alloc: Global,
    graph: &Graph,
    edges: &Edges,
    blocks: &Blocks,
    against: bool,
) -> Result<BlockEdges, Memory>
    requires edges { edges.now ≡ edges_of graph.now.nodes }
    requires blocks { AreBlocksOf graph.now.nodes blocks.now }
    ensures { IfOk result (AreBlockEdges against graph.now.nodes blocks.now.lists) }
{
    let count = blocks.len();
    // Hardly more than two edges leave a block.
    let mut list = Vec::with_capacity(alloc, count.saturating_mul(2))?;
    let mut firsts = Vec::with_capacity(alloc, count.saturating_add(1))?;
    firsts.push(0)?;
    for block in 0..count {
        let from = ahead(blocks.nodes(block), against);
        leave(graph, edges, blocks, against, block, from, &mut list)?;
        firsts.push(list.len())?;
    }
    Ok(BlockEdges {
        edges: list,
        firsts,
    })
}

/// The node from which the flow leaves a block.
fn ahead(nodes: &[usize], against: bool) -> usize
    requires { 0 < length nodes.now }
    ensures { IsAhead against result nodes.now }
{
    if against {
        nodes[0]
    } else {
        nodes[nodes.len() - 1]
    }
}

/// Adds the edges that leave a block.
fn leave(
    graph: &Graph,
    edges: &Edges,
    blocks: &Blocks,
    against: bool,
    block: usize,
    from: usize,
    list: &mut Vec<Edge>,
) -> Result<(), Memory>
    requires edges { edges.now ≡ edges_of graph.now.nodes }
    requires blocks { AreBlocksOf graph.now.nodes blocks.now }
    requires from { from < length graph.now.nodes }
    requires ahead { IsAheadOf against blocks.now.lists block from }
    ensures { OnOk result (
        AddsOut against graph.now blocks.now block from list.old.items list.new.items) }
{
    let _nodes = graph.nodes();
    let (first, end) = leaving(edges, against, from);
    for number in first..end {
        let (_, target) = flow_edge(edges, against, number);
        list.push(Edge {
            source: block,
            target: blocks.block_of(target),
        })?;
    }
    Ok(())
}
