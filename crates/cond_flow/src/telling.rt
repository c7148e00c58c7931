// What is known before all nodes, by the states of the blocks.
ghost use Rattle.std.specs.Prelude.{◌≡◌, ◌<◌, length, IfOk, OnOk};
ghost use Rattle.flow_graph.specs.Blocks.{AreBlocksOf, IsChain};
ghost use Rattle.cond_flow.specs.Blockwise.{AreLeastOver};
ghost use Rattle.cond_flow.specs.KnownBefore.{AreKnownBefore};
ghost use Rattle.cond_flow.specs.Outsides.{rules_in};
ghost use Rattle.cond_flow.specs.States.{state_where};
ghost use Rattle.cond_flow.specs.Telling.{IsTold, IsToldOf, TellsIn, TellsStates};

use crate::states::BlockState;
use crate::transfer::step;
use crate::{Facts, Knowledge, Outside};
use fix_solve::Work;
use flow_graph::{Blocks, Graph};
use mir_base::Memory;
use std::alloc::Global;

/// What is known before each node of a graph by the least states of its blocks: of each variable, or `None` where no
/// run comes to the node. It fails only with `Memory`.
pub(crate) fn tell_blocks<K: Knowledge>(
    alloc: Global,
    graph: &Graph,
    blocks: &Blocks,
    states: &Work<BlockState<K>>,
    outside: &Outside<K>,
) -> Result<Vec<Option<Vec<K>>>, Memory>
    requires blocks { AreBlocksOf graph.now.nodes blocks.now }
    requires states { AreLeastOver K.below (rules_in outside.now K.rules) graph.now blocks.now
        states.now }
    ensures long { IfOk result (λ all. length all.items ≡ length graph.now.nodes) }
    ensures known { IfOk result (λ all.
        AreKnownBefore K.below (rules_in outside.now K.rules) graph.now all.items) }
{
    let nodes = graph.nodes();
    let mut all = nothing(alloc, nodes.len())?;
    for block in 0..blocks.len() {
        tell_block(
            alloc,
            graph,
            blocks.nodes(block),
            states.value(block),
            outside,
            &mut all,
        )?;
    }
    Ok(all)
}

/// So many nodes of which nothing is told yet.
pub(crate) fn nothing<K: Knowledge>(
    alloc: Global,
    count: usize,
) -> Result<Vec<Option<Vec<K>>>, Memory>
    ensures { IfOk result (λ all. length all.items ≡ count) }
{
    let mut all = Vec::with_capacity(alloc, count)?;
    for _ in 0..count {
        all.push(None)?;
    }
    Ok(all)
}

/// Tells what is known before the nodes of a block, of which the first has this state.
fn tell_block<K: Knowledge>(
    alloc: Global,
    graph: &Graph,
    list: &[usize],
    state: &BlockState<K>,
    outside: &Outside<K>,
    all: &mut Vec<Option<Vec<K>>>,
) -> Result<(), Memory>
    requires chain { IsChain graph.now.nodes list.now }
    requires long { length all.old.items ≡ length graph.now.nodes }
    ensures { OnOk result (TellsIn (rules_in outside.now K.rules) graph.now list.now state.now (length list.now)
        all.old.items all.new.items) }
{
    let mut known = state.known.copied(alloc)?;
    tell_list(alloc, graph, list, state.reached, &mut known, outside, all)?;
    Ok(())
}

/// Tells what is known before these nodes, where `reached` says whether the first of them is reached and `known` what
/// is known before it.
fn tell_list<K: Knowledge>(
    alloc: Global,
    graph: &Graph,
    list: &[usize],
    reached: bool,
    known: &mut Facts<K>,
    outside: &Outside<K>,
    all: &mut Vec<Option<Vec<K>>>,
) -> Result<(), Memory>
    requires chain { IsChain graph.now.nodes list.now }
    requires long { length all.old.items ≡ length graph.now.nodes }
    ensures { OnOk result (TellsIn (rules_in outside.now K.rules) graph.now list.now (state_where reached known.old)
        (length list.now) all.old.items all.new.items) }
{
    let mut reaches = reached;
    for i in 0..list.len() {
        let n = list[i];
        put(alloc, all, n, reaches, known)?;
        let node = graph.node(n);
        reaches = step(
            reaches,
            known,
            node,
            0,
            graph.shared(),
            graph.received(),
            outside,
        );
    }
    Ok(())
}

/// Puts what is known before a node in its place.
fn put<K: Knowledge>(
    alloc: Global,
    all: &mut Vec<Option<Vec<K>>>,
    n: usize,
    reached: bool,
    known: &Facts<K>,
) -> Result<(), Memory>
    requires { n < length all.old.items }
    ensures { OnOk result (IsToldOf TellsStates n (state_where reached known.now) all.old.items
        all.new.items) }
{
    let told = told(alloc, reached, known)?;
    all[n] = told;
    Ok(())
}

/// A copy of what is known, where the node is reached.
pub(crate) fn told<K: Knowledge>(
    alloc: Global,
    reached: bool,
    known: &Facts<K>,
) -> Result<Option<Vec<K>>, Memory>
    ensures { IfOk result (IsTold (state_where reached known.now)) }
{
    if reached {
        let copy = known.listed(alloc, K::top())?;
        Ok(Some(copy))
    } else {
        Ok(None)
    }
}
