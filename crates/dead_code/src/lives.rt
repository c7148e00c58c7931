// Which variables are live before each node, block by block.
ghost use Rattle.std.specs.Prelude.{◌≡◌, ◌+◌, ◌<◌, length, IfOk};
ghost use Rattle.flow_graph.specs.Blocks.{AreBlocksOf};
ghost use Rattle.flow_graph.specs.Edges.{edges_of};
ghost use Rattle.path_laws.specs.Paths.{HaveShape};
ghost use Rattle.dead_code.specs.Dead.{AreLiveAfterFrom};
ghost use Rattle.graph_edit.specs.GraphFlows.{IsFlowOf};
ghost use Rattle.dead_code.specs.LiveRows.{AreLiveTo, TellLive};

use crate::dead::{live_after, pass_back};
use bit_rows::Rows;
use flow_graph::{Blocks, Edges, Graph};
use graph_edit::GraphFlow;
use mir_base::Memory;
use std::alloc::Global;

/// Which variables are live before each node, as rows with one row for each node and one bit for each variable. A
/// variable is live before a node where some path from the node comes to a node that reads it, with no node before that
/// one assigning it. `flow` has the graph's edges and blocks. It fails only with `Memory`.
pub fn live_rows(alloc: Global, graph: &Graph, flow: &GraphFlow) -> Result<Rows, Memory>
    requires { IsFlowOf graph.now.nodes flow.now }
    ensures shape { IfOk result (HaveShape graph.now (length graph.now.vars)) }
    ensures live { IfOk result (TellLive graph.now) }
{
    let rows = live_before(alloc, graph, &flow.edges, &flow.blocks)?;
    Ok(rows)
}

/// The rows of what is live before the nodes of a graph, by its edges and its blocks.
#[tactic(auto, using(crate::proofs::LiveNodes::live_no_block))]
fn live_before(alloc: Global, graph: &Graph, edges: &Edges, blocks: &Blocks) -> Result<Rows, Memory>
    requires edges { edges.now ≡ edges_of graph.now.nodes }
    requires blocks { AreBlocksOf graph.now.nodes blocks.now }
    ensures shape { IfOk result (HaveShape graph.now (length graph.now.vars)) }
    ensures live { IfOk result (TellLive graph.now) }
{
    let mut live = live_after(alloc, graph, edges, blocks)?;
    let mut rows = Rows::new(alloc, graph.len(), graph.vars().len())?;
    for block in 0..blocks.len() {
        fill_live(graph, blocks, block, &mut live, &mut rows);
    }
    Ok(rows)
}

/// Writes into `rows` what is live before each node of a block, from the last to the first. Row `block` of `live` has
/// what is live after the block, and in the end what is live before it.
fn fill_live(graph: &Graph, blocks: &Blocks, block: usize, live: &mut Rows, rows: &mut Rows)
    requires blocks { AreBlocksOf graph.now.nodes blocks.now }
    requires block { block < length blocks.now.lists }
    requires live { AreLiveAfterFrom graph.now blocks.now.lists block live.old }
    requires rows { AreLiveTo graph.now blocks.now.lists block rows.old }
    ensures live { AreLiveAfterFrom graph.now blocks.now.lists (block + 1) live.new }
    ensures rows { AreLiveTo graph.now blocks.now.lists (block + 1) rows.new }
{
    let nodes = graph.nodes();
    let shared = graph.shared();
    let list = blocks.nodes(block);
    for back in 0..list.len() {
        let n = list[list.len() - 1 - back];
        let node = &nodes[n];
        pass_back(graph, live, block, node, shared);
        rows.or_from(n, &live.row(block));
    }
}
