// What the occurrences of patterns come to in their blocks: insertions before nodes, or that a pattern leaves a block.
ghost use Rattle.std.specs.Prelude.{◌≡◌, ◌<◌, suc, not, [], Some, length, IfOk, OnOk};
ghost use Rattle.flow_graph.specs.Blocks.{AreBlocksOf};
ghost use Rattle.sink_code.specs.Inside.{AreFoundInBlock, AreInside, AreInsideFrom, AreTakenInBlock, IsInBlock, IsNodeAt, OccursAt};
ghost use Rattle.sink_code.specs.BlockPlaces.{AreBlockPlaces};
ghost use Rattle.flow_graph.specs.Paths.{is_return};

use crate::inserting::{PutBefore, put_of};
use crate::patterns::{Pattern, Patterns, pattern_at};
use crate::places::BlockPlaces;
use flow_graph::{Blocks, Graph, Node};
use key_table::KeyTable;
use mir_base::Memory;
use std::alloc::Global;

/// A pattern that leaves a block in which it occurs, by its number in a table.
#[derive(Clone, Copy, Debug)]
pub(crate) struct Leaving {
    pub(crate) block: usize,
    pub(crate) number: usize,
}

/// What the occurrences come to.
#[derive(Drop)]
pub(crate) struct Inside {
    /// The insertions before nodes of the same block.
    pub(crate) puts: Vec<PutBefore>,
    /// The patterns: each that leaves a block is among them.
    pub(crate) table: Patterns,
    /// Which leaves which.
    pub(crate) leaving: Vec<Leaving>,
}

/// Where the occurrences in all blocks of a graph go: each before the first later node of its block that stops it;
/// where there is none, the pattern leaves the block, or is gone where the block ends with a Return. It fails only with
/// `Memory`.
pub(crate) fn found_inside(alloc: Global, graph: &Graph, blocks: &Blocks) -> Result<Inside, Memory>
    requires { AreBlocksOf graph.now.nodes blocks.now }
    ensures { IfOk result (AreInside graph.now blocks.now.lists) }
{
    let count = blocks.len();
    let mut places = BlockPlaces::new(alloc, graph, count)?;
    let mut found = nothing_yet(alloc, graph.len())?;
    for later in 0..count {
        let block = count - 1 - later;
        inside_block(graph, blocks, block, &mut places, &mut found)?;
    }
    Ok(found)
}

/// Nothing found. Room for what occurrences at so many nodes come to is taken at once.
fn nothing_yet(alloc: Global, nodes: usize) -> Result<Inside, Memory>
    ensures puts { IfOk result (λ found. found.puts.items ≡ []) }
    ensures table { IfOk result (λ found. found.table ≡ []) }
    ensures leaving { IfOk result (λ found. found.leaving.items ≡ []) }
{
    let puts = Vec::with_capacity(alloc, nodes)?;
    let leaving = Vec::with_capacity(alloc, nodes)?;
    Ok(Inside {
        puts,
        table: KeyTable::new(alloc),
        leaving,
    })
}

/// What the occurrences in one block come to, once those of the later blocks are found.
fn inside_block(
    graph: &Graph,
    blocks: &Blocks,
    block: usize,
    places: &mut BlockPlaces,
    found: &mut Inside,
) -> Result<(), Memory>
    requires blocks { AreBlocksOf graph.now.nodes blocks.now }
    requires block { block < length blocks.now.lists }
    requires places { AreBlockPlaces graph.now (suc block) places.old }
    requires found { AreInsideFrom graph.now blocks.now.lists (suc block) found.old }
    ensures places { OnOk result (AreBlockPlaces graph.now block places.new) }
    ensures found { OnOk result (AreInsideFrom graph.now blocks.now.lists block found.new) }
{
    let nodes = graph.nodes();
    let list = blocks.nodes(block);
    let at = InBlock {
        graph,
        blocks,
        block,
        list,
        goes_on: goes_on(&nodes[list[list.len() - 1]]),
    };
    for back in 0..list.len() {
        pass_node(&at, list.len() - 1 - back, places, found)?;
    }
    Ok(())
}

/// A block of a graph: its nodes, and whether paths go on from the last of them.
#[derive(Drop)]
struct InBlock<'a> {
    graph: &'a Graph,
    blocks: &'a Blocks,
    block: usize,
    list: &'a [usize],
    goes_on: bool,
}

/// Whether paths go on from a node: it is no Return.
pub(crate) fn goes_on(node: &Node) -> bool
    ensures { result ≡ not (is_return (Some node.now)) }
{
    match node {
        Node::Start(_) => true,
        Node::Skip(_) => true,
        Node::Assign(_, _, _) => true,
        Node::Print(_, _) => true,
        Node::Guard(_, _, _) => true,
        Node::Call(_, _, _, _) => true,
        Node::Test(_, _, _) => true,
        Node::Return(_) => false,
    }
}

/// What an occurrence at the node of this index comes to, where there is one; then the node is taken in. Those after it
/// in its block are.
fn pass_node(
    at: &InBlock<'_>,
    index: usize,
    places: &mut BlockPlaces,
    found: &mut Inside,
) -> Result<(), Memory>
    requires block { IsInBlock at.now }
    requires index { index < length at.now.list.now }
    requires places { AreTakenInBlock at.now (suc index) places.old }
    requires found { AreFoundInBlock at.now (suc index) found.old }
    ensures places { OnOk result (AreTakenInBlock at.now index places.new) }
    ensures found { OnOk result (AreFoundInBlock at.now index found.new) }
{
    let nodes = at.graph.nodes();
    let _shared = at.graph.shared();
    let node = &nodes[at.list[index]];
    occurs(at, index, node, places, found)?;
    places.take_in(at.graph, node, at.block, index);
    Ok(())
}

/// What an occurrence at this node comes to, where there is one. The nodes after it in its block are taken in.
fn occurs(
    at: &InBlock<'_>,
    index: usize,
    node: &Node,
    places: &BlockPlaces,
    found: &mut Inside,
) -> Result<(), Memory>
    requires block { IsInBlock at.now }
    requires node { IsNodeAt at.now index node.now }
    requires places { AreTakenInBlock at.now (suc index) places.now }
    requires found { AreFoundInBlock at.now (suc index) found.old }
    ensures { OnOk result (AreFoundInBlock at.now index found.new) }
{
    match pattern_at(node) {
        Some(pattern) => sinks(at, index, pattern, places, found),
        None => Ok(()),
    }
}

/// What an occurrence of this pattern comes to.
fn sinks(
    at: &InBlock<'_>,
    index: usize,
    pattern: Pattern,
    places: &BlockPlaces,
    found: &mut Inside,
) -> Result<(), Memory>
    requires block { IsInBlock at.now }
    requires occurs { OccursAt at.now.graph.now at.now.list.now index pattern }
    requires places { AreTakenInBlock at.now (suc index) places.now }
    requires found { AreFoundInBlock at.now (suc index) found.old }
    ensures { OnOk result (AreFoundInBlock at.now index found.new) }
{
    let _nodes = at.graph.nodes();
    let stop = places.stop_of(&pattern, at.block, at.list.len());
    if stop < at.list.len() {
        found.puts.push(put_of(at.list[stop], &pattern))?;
        Ok(())
    } else if at.goes_on {
        let number = found.table.number(pattern)?;
        let block = at.block;
        found.leaving.push(Leaving { block, number })?;
        Ok(())
    } else {
        Ok(())
    }
}
