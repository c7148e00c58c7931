// The least states of the blocks.
ghost use Rattle.std.specs.Prelude.{◌≡◌, ◌*◌, ◌<◌, length, IfOk};
ghost use Rattle.flow_graph.specs.Blocks.{AreBlocksOf};
ghost use Rattle.cond_flow.specs.Blockwise.{AreLeastOver, AreTargets, IsTargetOf};
ghost use Rattle.cond_flow.specs.Outsides.{rules_in};
ghost use Rattle.cond_flow.specs.Passing.{first_known};

use crate::flow::{StateFlow, last};
use crate::states::BlockState;
use crate::transfer::enter_globals;
use crate::{Facts, Knowledge, Outside};
use fix_solve::{Steps, Work, solve};
use flow_graph::{Blocks, Edges, Graph};
use mir_base::Memory;
use std::alloc::Global;
use std::marker::{Brand, PhantomData};
use std::sync::ledger::{Blank, Ledger};

/// The blocks of the graph.
pub(crate) fn blocks_of(alloc: Global, graph: &Graph) -> Result<Blocks, Memory>
    ensures { IfOk result (AreBlocksOf graph.now.nodes) }
{
    let edges = Edges::of(alloc, graph)?;
    let blocks = Blocks::of(alloc, graph, &edges)?;
    Ok(blocks)
}

/// The least states of the blocks of a graph, where this is known outside.
pub(crate) fn least<K: Knowledge>(
    alloc: Global,
    graph: &Graph,
    blocks: &Blocks,
    outside: &Outside<K>,
) -> Result<Work<BlockState<K>>, Memory>
    requires { AreBlocksOf graph.now.nodes blocks.now }
    ensures { IfOk result
        (AreLeastOver K.below (rules_in outside.now K.rules) graph.now blocks.now) }
{
    let targets = targets(alloc, graph, blocks)?;
    let zeros = zeros(alloc, graph.shared(), graph.vars().len(), outside)?;
    let work = least_from::<K, Brand>(
        alloc,
        graph,
        blocks,
        targets.as_slice(),
        &zeros,
        outside,
        Blank::new(1),
    )?;
    Ok(work)
}

/// What is known before Start of so many variables: that each is 0 that is no global.
fn zeros<K: Knowledge>(
    alloc: Global,
    shared: usize,
    count: usize,
    outside: &Outside<K>,
) -> Result<Facts<K>, Memory>
    ensures { IfOk result (λ zeros.
        zeros ≡ first_known (rules_in outside.now K.rules) shared count) }
{
    let mut zeros = Facts::repeated(alloc, count, K::zero())?;
    enter_globals(&mut zeros, shared, outside);
    Ok(zeros)
}

/// The least states, with the counter that this blank ledger gives.
fn least_from<K: Knowledge, L: Ledger>(
    alloc: Global,
    graph: &Graph,
    blocks: &Blocks,
    targets: &[usize],
    zeros: &Facts<K>,
    outside: &Outside<K>,
    blank: Blank,
) -> Result<Work<BlockState<K>>, Memory>
    requires name { blank.name ≡ L.name }
    requires parts { blank.parts ≡ L.parts }
    requires some { 0 < blank.parts }
    requires blocks { AreBlocksOf graph.now.nodes blocks.now }
    requires targets { AreTargets graph.now.nodes blocks.now.lists targets.now }
    requires zeros { zeros.now
        ≡ first_known (rules_in outside.now K.rules) graph.now.shared (length graph.now.vars) }
    ensures { IfOk result
        (AreLeastOver K.below (rules_in outside.now K.rules) graph.now blocks.now) }
{
    let _nodes = graph.nodes();
    let flow = StateFlow {
        graph,
        blocks,
        entry: blocks.block_of(0),
        targets,
        zeros,
        outside,
        ledger: PhantomData,
    };
    let mut steps = Steps::<L>::new(blank);
    let mut work = Work::new(alloc, &flow)?;
    solve(&mut work, &flow, &mut steps);
    Ok(work)
}

/// The block to which each edge of a block leads.
fn targets(alloc: Global, graph: &Graph, blocks: &Blocks) -> Result<Vec<usize>, Memory>
    requires { AreBlocksOf graph.now.nodes blocks.now }
    ensures { IfOk result (λ targets. AreTargets graph.now.nodes blocks.now.lists targets.items) }
{
    let mut targets = Vec::new(alloc);
    for block in 0..blocks.len() {
        let last = last(blocks.nodes(block));
        let taken = target(graph, blocks, last, 0, block);
        let other = target(graph, blocks, last, 1, block);
        targets.push(taken)?;
        targets.push(other)?;
    }
    Ok(targets)
}

/// The block to which the edge at this slot of a node leads, and `otherwise` where there is no such edge.
fn target(graph: &Graph, blocks: &Blocks, node: usize, slot: usize, otherwise: usize) -> usize
    requires blocks { AreBlocksOf graph.now.nodes blocks.now }
    requires there { node < length graph.now.nodes }
    requires otherwise { otherwise < length blocks.now.lists }
    ensures { IsTargetOf graph.now.nodes blocks.now.lists node slot result }
{
    let _nodes = graph.nodes();
    let succs = graph.succs(node);
    match succs.as_slice().get(slot) {
        None => otherwise,
        Some(s) => blocks.block_of(*s),
    }
}
