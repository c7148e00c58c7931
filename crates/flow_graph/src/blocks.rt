// The blocks of a graph.
ghost use Rattle.std.specs.Prelude.{◌≡◌, ◌+◌, ◌<◌, ◌++◌, [], ◌∷◌, length, slice_get, slice_set, vec_len, Some, IfOk};
ghost use Rattle.std.specs.Vec.{vec_capacity};
ghost use Rattle.flow_graph.specs.Blocks.{AreBlocksOf, AreOnlyBlocks, AreStored, IsFirst, StandsIn, is_first, next_of, IsUnplaced, GluedToPlaced, HasRoomForUnplaced, IsFollowedBlock};
ghost use Rattle.flow_graph.specs.Edges.{edges_of};

use crate::tables::{bounds, filled, part};
use crate::{Edges, Graph};
use mir_base::{Items, Memory};
use std::alloc::Global;
use std::marker::Model;

/// The blocks of a graph. A block is a longest list of nodes in which each but the last is no Test and has the next as
/// its successor, and each but the first is entered by one edge. So a path that comes to a block's first node passes
/// all its nodes in this order, or ends in it. Every node stands in exactly one block, and the blocks are numbered from
/// 0 in order of their first nodes. Contracts see them as the number of nodes and the list of the blocks.
#[derive(Drop)]
pub struct Blocks {
    order: Items<usize>,
    starts: Items<usize>,
    block_of: Items<usize>,
}

impl Model for Blocks {
    ghost use Rattle.std.specs.Prelude.{length};
    ghost use Rattle.flow_graph.specs.Blocks.{AreParts, BlocksShape, parts_at};

    ghost Value = { BlocksShape };

    ghost view = { λ b. record { nodes = length b.block_of; lists = parts_at b.order b.starts } };

    ghost invariant = { λ b. AreParts b.order b.starts b.block_of };
}

impl Blocks {
    /// The blocks of a graph, in time linear in nodes and edges; `edges` are those of `graph`. It fails only with
    /// `Memory`.
    pub fn of(alloc: Global, graph: &Graph, edges: &Edges) -> Result<Blocks, Memory>
        requires { edges.now ≡ edges_of graph.now.nodes }
        ensures blocks { IfOk result (λ blocks. AreBlocksOf graph.now.nodes blocks) }

        // no other lists of lists are the blocks of this graph
        ensures only { IfOk result (λ blocks. AreOnlyBlocks graph.now.nodes blocks.lists) }
    {
        let nodes = graph.nodes().len();
        let mut order = Vec::with_capacity(alloc, nodes)?;
        let mut starts = Vec::with_capacity(alloc, nodes + 1)?;
        starts.push_reserved(0);
        let mut block_of = filled(alloc, nodes, nodes)?;
        for head in 0..nodes {
            add(graph, edges, head, &mut order, &mut starts, &mut block_of);
        }
        Ok(Blocks {
            order: Items::of(order),
            starts: Items::of(starts),
            block_of: Items::of(block_of),
        })
    }

    /// The number of blocks. It does not allocate.
    pub fn len(&self) -> usize
        ensures { result ≡ length self.now.lists }
    {
        self.starts.items().len() - 1
    }

    /// The nodes of the block of this number, in the order in which they are passed. It does not allocate.
    pub fn nodes(&self, block: usize) -> &[usize]
        requires { block < length self.now.lists }
        ensures { slice_get self.now.lists block ≡ Some result.now }
    {
        let (first, end) = bounds(self.starts.items(), block);
        part(self.order.items(), first, end)
    }

    /// The number of the block in which a node stands. It does not allocate.
    pub fn block_of(&self, node: usize) -> usize
        requires { node < self.now.nodes }
        ensures { StandsIn self.now.lists result node }
    {
        self.block_of.items()[node]
    }
}

/// Adds the block that begins at this node, if one does.
fn add(
    graph: &Graph,
    edges: &Edges,
    head: usize,
    order: &mut Vec<usize>,
    starts: &mut Vec<usize>,
    block_of: &mut [usize],
)
    requires edges { edges.now ≡ edges_of graph.now.nodes }
    requires there { head < length graph.now.nodes }
    requires before { AreStored graph.now.nodes head order.old.items starts.old.items block_of.old }
    requires room { HasRoomForUnplaced (length graph.now.nodes) order.old block_of.old }
    requires starts { vec_capacity starts.old ≡ length graph.now.nodes + 1 }
    ensures after { AreStored graph.now.nodes (head + 1)
        order.new.items starts.new.items block_of.new }
    ensures room { HasRoomForUnplaced (length graph.now.nodes) order.new block_of.new }
    ensures starts { vec_capacity starts.new ≡ vec_capacity starts.old }
{
    if !begins(graph, edges, head, block_of) {
        return;
    }
    let block = starts.len() - 1;
    follow(graph, edges, head, block, order, block_of);
    starts.push_reserved(order.len());
}

/// Whether a node is the first of its block. One that has its block already is not, since blocks are made in order of
/// their first nodes, and so its edges are not looked at.
fn begins(graph: &Graph, edges: &Edges, node: usize, block_of: &[usize]) -> bool
    requires edges { edges.now ≡ edges_of graph.now.nodes }
    requires there { node < length graph.now.nodes }
    requires long { length block_of.now ≡ length graph.now.nodes }
    requires unplaced { IsFirst graph.now.nodes node →
        IsUnplaced (length graph.now.nodes) block_of.now node }
    ensures { result ≡ is_first graph.now.nodes node }
{
    if block_of[node] == graph.len() {
        is_first(graph, edges, node)
    } else {
        false
    }
}

/// Adds the block that begins at this node, and puts its number at its nodes.
fn follow(
    graph: &Graph,
    edges: &Edges,
    head: usize,
    block: usize,
    order: &mut Vec<usize>,
    block_of: &mut [usize],
)
    requires edges { edges.now ≡ edges_of graph.now.nodes }
    requires there { head < length graph.now.nodes }
    requires block { block < length graph.now.nodes }
    requires first { IsFirst graph.now.nodes head }
    requires long { length block_of.old ≡ length graph.now.nodes }
    requires unplaced { IsUnplaced (length graph.now.nodes) block_of.old head }
    requires closed { GluedToPlaced graph.now.nodes block_of.old }
    requires room { HasRoomForUnplaced (length graph.now.nodes) order.old block_of.old }
    ensures block { IsFollowedBlock graph.now.nodes head block order.old.items order.new.items
        block_of.old block_of.new }
    ensures room { HasRoomForUnplaced (length graph.now.nodes) order.new block_of.new }
{
    let _nodes = graph.nodes();
    let mut node = head;
    put(node, block, order, block_of);
    while let Some(next) = next(graph, edges, node) {
        put(next, block, order, block_of);
        node = next;
    }
}

/// Adds a node to the block of this number. There is room for all nodes, and each has one block.
fn put(node: usize, block: usize, order: &mut Vec<usize>, block_of: &mut [usize])
    requires there { node < length block_of.old }
    requires room { vec_len order.old < vec_capacity order.old }
    ensures order { order.new.items ≡ order.old.items ++ node ∷ [] }
    ensures block_of { block_of.new ≡ slice_set block_of.old node block }
    ensures len { vec_len order.new ≡ vec_len order.old + 1 }
    ensures capacity { vec_capacity order.new ≡ vec_capacity order.old }
{
    order.push_reserved(node);
    block_of[node] = block;
}

/// The node after `node` in its block, where there is one.
fn next(graph: &Graph, edges: &Edges, node: usize) -> Option<usize>
    requires edges { edges.now ≡ edges_of graph.now.nodes }
    requires there { node < length graph.now.nodes }
    ensures { result ≡ next_of graph.now.nodes node }
{
    let _nodes = graph.nodes();
    match edges.only_succ(node) {
        None => None,
        Some(next) => match edges.only_pred(next) {
            None => None,
            Some(_) => Some(next),
        },
    }
}

/// Whether a node is the first of its block.
fn is_first(graph: &Graph, edges: &Edges, node: usize) -> bool
    requires edges { edges.now ≡ edges_of graph.now.nodes }
    requires there { node < length graph.now.nodes }
    ensures { result ≡ is_first graph.now.nodes node }
{
    match edges.only_pred(node) {
        None => true,
        Some(before) => match edges.only_succ(before) {
            None => true,
            Some(_) => false,
        },
    }
}
