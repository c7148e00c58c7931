// Which assignments are dead, block by block.
ghost use Rattle.std.specs.Prelude.{◌≡◌, ◌+◌, ◌<◌, ◌≤◌, length, IfOk};
ghost use Rattle.mir_base.specs.Shapes.{AllBelow};
ghost use Rattle.bit_rows.specs.Bits.{row_of};
ghost use Rattle.flow_graph.specs.Blocks.{AreBlocksOf};
ghost use Rattle.flow_graph.specs.Edges.{edges_of};
ghost use Rattle.flow_graph.specs.Graphs.{node_vars};
ghost use Rattle.dead_code.specs.Dead.{AreAccessesTo, AreBlockAccesses, AreFlaggedTo, AreLiveAfter, AreLiveAfterFrom, PassesBack, TellDead, is_dead_by};
ghost use Rattle.graph_edit.specs.GraphFlows.{IsFlowOf};

use crate::liveness::{mark_assigned, mark_read};
use bit_rows::Rows;
use flow_graph::{Blocks, Edges, Graph, Node};
use graph_edit::{GraphFlow, touches_none};
use mir_base::{Memory, divides};
use path_laws::backward_some_ends;
use std::alloc::Global;

/// For each node whether it is a dead assignment: its right side does not divide, and its variable is not live after
/// it. `flow` has the graph's edges and blocks. It fails only with `Memory`.
pub(crate) fn dead_nodes(
    alloc: Global,
    graph: &Graph,
    flow: &GraphFlow,
) -> Result<Vec<bool>, Memory>
    requires { IsFlowOf graph.now.nodes flow.now }
    ensures { IfOk result (λ dead. TellDead graph.now dead.items) }
{
    let dead = flagged(alloc, graph, &flow.edges, &flow.blocks)?;
    Ok(dead)
}

/// What blocks do with variables: one row for each block, one bit for each variable.
#[derive(Drop)]
struct BlockAccesses {
    /// Which variables a block reads before it assigns them.
    reads: Rows,
    /// Which variables it assigns.
    assigns: Rows,
}

/// Which variables each block reads before it assigns them, and which it assigns.
#[tactic(auto, using(crate::proofs::Flagging::accessed_no_block))]
fn block_accesses(alloc: Global, graph: &Graph, blocks: &Blocks) -> Result<BlockAccesses, Memory>
    requires { AreBlocksOf graph.now.nodes blocks.now }
    ensures { IfOk result (AreBlockAccesses graph.now blocks.now.lists) }
{
    let vars = graph.vars().len();
    let mut reads = Rows::new(alloc, blocks.len(), vars)?;
    let mut assigns = Rows::new(alloc, blocks.len(), vars)?;
    for block in 0..blocks.len() {
        access(graph, blocks, block, &mut reads, &mut assigns);
    }
    Ok(BlockAccesses { reads, assigns })
}

/// The same of one block.
fn access(graph: &Graph, blocks: &Blocks, block: usize, reads: &mut Rows, assigns: &mut Rows)
    requires blocks { AreBlocksOf graph.now.nodes blocks.now }
    requires block { block < length blocks.now.lists }
    requires rows { AreAccessesTo graph.now blocks.now.lists block reads.old assigns.old }
    ensures { AreAccessesTo graph.now blocks.now.lists (block + 1) reads.new assigns.new }
{
    let nodes = graph.nodes();
    let shared = graph.shared();
    let list = blocks.nodes(block);
    for back in 0..list.len() {
        let node = &nodes[list[list.len() - 1 - back]];
        if touches_none(node) {
            continue;
        }
        mark_assigned(graph, assigns, block, node, shared, true);
        pass_back(graph, reads, block, node, shared);
    }
}

/// Which variables are live after each block: before some node to which its last leads.
pub(crate) fn live_after(
    alloc: Global,
    graph: &Graph,
    edges: &Edges,
    blocks: &Blocks,
) -> Result<Rows, Memory>
    requires edges { edges.now ≡ edges_of graph.now.nodes }
    requires blocks { AreBlocksOf graph.now.nodes blocks.now }
    ensures { IfOk result (AreLiveAfter graph.now blocks.now.lists) }
{
    let made = block_accesses(alloc, graph, blocks)?;
    let bits = graph.vars().len();
    let after = backward_some_ends(
        alloc,
        graph,
        edges,
        blocks,
        &made.reads,
        &made.assigns,
        bits,
    )?;
    Ok(after)
}

/// Which nodes are dead, by rows of what is live after each block.
fn flagged(
    alloc: Global,
    graph: &Graph,
    edges: &Edges,
    blocks: &Blocks,
) -> Result<Vec<bool>, Memory>
    requires edges { edges.now ≡ edges_of graph.now.nodes }
    requires blocks { AreBlocksOf graph.now.nodes blocks.now }
    ensures { IfOk result (λ dead. TellDead graph.now dead.items) }
{
    let mut live = live_after(alloc, graph, edges, blocks)?;
    let mut dead = vec![in alloc; false; graph.len()]?;
    for block in 0..blocks.len() {
        flag(graph, blocks, block, &mut live, dead.as_mut_slice());
    }
    Ok(dead)
}

/// Flags the dead nodes of one block. In the row of the block goes what is live after it.
fn flag(graph: &Graph, blocks: &Blocks, block: usize, live: &mut Rows, dead: &mut [bool])
    requires blocks { AreBlocksOf graph.now.nodes blocks.now }
    requires block { block < length blocks.now.lists }
    requires live { AreLiveAfterFrom graph.now blocks.now.lists block live.old }
    requires dead { AreFlaggedTo graph.now blocks.now.lists block dead.old }
    ensures live { AreLiveAfterFrom graph.now blocks.now.lists (block + 1) live.new }
    ensures dead { AreFlaggedTo graph.now blocks.now.lists (block + 1) dead.new }
{
    let nodes = graph.nodes();
    let shared = graph.shared();
    let list = blocks.nodes(block);
    for back in 0..list.len() {
        let n = list[list.len() - 1 - back];
        let node = &nodes[n];
        dead[n] = is_dead(node, live, block);
        if touches_none(node) {
            continue;
        }
        pass_back(graph, live, block, node, shared);
    }
}

/// Whether a node is a dead assignment, by the row of what is live after it.
fn is_dead(node: &Node, live: &Rows, row: usize) -> bool
    requires row { row < length live.now }
    requires below { AllBelow (length (row_of live.now row)) (node_vars node.now) }
    ensures { result ≡ is_dead_by live.now row node.now }
{
    match node {
        Node::Start(_) => false,
        Node::Skip(_) => false,
        Node::Assign(x, rhs, _) => !divides(rhs) && !live.get(row, *x),
        Node::Print(_, _) => false,
        Node::Guard(_, _, _) => false,
        Node::Call(_, _, _, _) => false,
        Node::Test(_, _, _) => false,
        Node::Return(_) => false,
    }
}

/// A row of what is live after a node becomes that of what is live before it. `shared` is the number of the globals of
/// the graph.
pub(crate) fn pass_back(graph: &Graph, rows: &mut Rows, row: usize, node: &Node, shared: usize)
    requires shared { shared ≡ graph.now.shared }
    requires globals { shared ≤ length (row_of rows.old row) }
    requires row { row < length rows.old }
    requires vars { AllBelow (length (row_of rows.old row)) (node_vars node.now) }
    ensures { PassesBack graph.now node.now row rows.old rows.new }
{
    mark_assigned(graph, rows, row, node, shared, false);
    mark_read(graph, rows, row, node, shared);
}
