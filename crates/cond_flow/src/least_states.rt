// The least states of a graph, and what is known before a node.
ghost use Rattle.std.specs.Prelude.{◌≡◌, ◌<◌, [], length, IfOk};
ghost use Rattle.std.specs.Option.{option_map};
ghost use Rattle.flow_graph.specs.Blocks.{AreBlocksOf, IsChain};
ghost use Rattle.cond_flow.specs.Blockwise.{AreLeastOver};
ghost use Rattle.cond_flow.specs.Holding.{HoldsBefore, StatesHold};
ghost use Rattle.cond_flow.specs.KnownBefore.{AreKnownBefore, AreStatesOf, IsKnownBefore, IsOnlyKnownBefore, PassesTo};
ghost use Rattle.cond_flow.specs.Outsides.{rules_in};
ghost use Rattle.cond_flow.specs.Rewriting.{IsAmong};
ghost use Rattle.cond_flow.specs.States.{state_where};

use crate::solving::{blocks_of, least};
use crate::states::BlockState;
use crate::telling::{tell_blocks, told};
use crate::transfer::step;
use crate::{Facts, Knowledge, Outside};
use fix_solve::Work;
use flow_graph::{Blocks, Graph};
use mir_base::Memory;
use std::alloc::Global;
use std::marker::Model;

/// The least states of a graph, by which `rewritten` makes its graph: what is known before each node. They are kept for
/// the first nodes of the blocks. Contracts see the blocks, and the state of each.
#[derive(Drop)]
pub struct LeastStates<K: Knowledge> {
    blocks: Blocks,
    values: Work<BlockState<K>>,
}

impl<K: Knowledge> Model for LeastStates<K> {
    ghost use Rattle.cond_flow.specs.KnownBefore.{StatesShape};

    ghost Value = { StatesShape K };

    ghost view = { λ s. record { blocks = s.blocks; values = s.values } };
}

impl<K: Knowledge> LeastStates<K> {
    /// The least states of a graph. It fails only with `Memory`.
    pub fn of(alloc: Global, graph: &Graph) -> Result<LeastStates<K>, Memory>
        ensures { IfOk result (AreStatesOf K.below K.rules graph.now) }
    {
        let blocks = blocks_of(alloc, graph)?;
        let nothing = Facts::repeated(alloc, 0, K::top())?;
        let values = least_in(alloc, graph, &blocks, &nothing)?;
        Ok(LeastStates { blocks, values })
    }

    /// The state of a node by the least states: what is known of each variable before it, by the numbers of the
    /// variables, or `None` where they say that no run comes to the node. The states are those of `graph`. It walks
    /// from the first node of the block to this one. It fails only with `Memory`.
    pub fn before(
        &self,
        alloc: Global,
        graph: &Graph,
        node: usize,
    ) -> Result<Option<Vec<K>>, Memory>
        requires states { AreStatesOf K.below K.rules graph.now self.now }
        requires there { node < length graph.now.nodes }
        ensures known { IfOk result (λ known. IsKnownBefore K.below K.rules graph.now node
            (option_map (λ list. list.items) known)) }

        // nothing else is
        ensures only { IfOk result (λ known. IsOnlyKnownBefore K.below K.rules graph.now node
            (option_map (λ list. list.items) known)) }

        // in each run that comes to the node it holds of the values; with `None` no run comes there
        ensures holds { IfOk result (λ known. HoldsBefore K.holds K.rules graph.now node
            (option_map (λ list. list.items) known)) }
    {
        let _nodes = graph.nodes();
        let block = self.blocks.block_of(node);
        let list = self.blocks.nodes(block);
        let state = self.values.value(block);
        let mut known = state.known.copied(alloc)?;
        let nothing = Facts::repeated(alloc, 0, K::top())?;
        let reaches = pass_in(graph, list, node, state.reached, &mut known, &nothing);
        let told = told(alloc, reaches, &known)?;
        Ok(told)
    }

    /// What `before` tells of each node, by the numbers of the nodes. Each block is walked once, and what is known is
    /// copied for each node. The states are those of `graph`. It fails only with `Memory`.
    pub fn before_each(&self, alloc: Global, graph: &Graph) -> Result<Vec<Option<Vec<K>>>, Memory>
        requires { AreStatesOf K.below K.rules graph.now self.now }
        ensures long { IfOk result (λ all. length all.items ≡ length graph.now.nodes) }
        ensures known { IfOk result (λ all. AreKnownBefore K.below K.rules graph.now all.items) }
    {
        let nothing = Facts::repeated(alloc, 0, K::top())?;
        let all = tell_in(alloc, graph, &self.blocks, &self.values, &nothing)?;
        Ok(all)
    }
}

/// Has no effect; carries the theorem that what the least states of a graph say is true of its runs: where a run comes
/// to a node, what is known there holds of its values, and no run comes to a node that they call unreached.
pub fn states_hold<K: Knowledge>(graph: &Graph)
    ensures { StatesHold K.below K.holds K.rules graph.now }
{
    let _ = graph;
}

/// The least states of the blocks where nothing is known outside, with empty facts.
fn least_in<K: Knowledge>(
    alloc: Global,
    graph: &Graph,
    blocks: &Blocks,
    nothing: &Facts<K>,
) -> Result<Work<BlockState<K>>, Memory>
    requires blocks { AreBlocksOf graph.now.nodes blocks.now }
    requires nothing { nothing.now ≡ [] }
    ensures { IfOk result (AreLeastOver K.below K.rules graph.now blocks.now) }
{
    let outside = Outside {
        entry: nothing,
        backs: &[],
    };
    let values = least(alloc, graph, blocks, &outside)?;
    Ok(values)
}

/// What is known before each node there.
fn tell_in<K: Knowledge>(
    alloc: Global,
    graph: &Graph,
    blocks: &Blocks,
    states: &Work<BlockState<K>>,
    nothing: &Facts<K>,
) -> Result<Vec<Option<Vec<K>>>, Memory>
    requires blocks { AreBlocksOf graph.now.nodes blocks.now }
    requires states { AreLeastOver K.below K.rules graph.now blocks.now states.now }
    requires nothing { nothing.now ≡ [] }
    ensures long { IfOk result (λ all. length all.items ≡ length graph.now.nodes) }
    ensures known { IfOk result (λ all. AreKnownBefore K.below K.rules graph.now all.items) }
{
    let outside = Outside {
        entry: nothing,
        backs: &[],
    };
    let all = tell_blocks(alloc, graph, blocks, states, &outside)?;
    Ok(all)
}

/// Turns what is known before the first node of its block into what passes to this node there, and answers whether
/// anything does.
fn pass_in<K: Knowledge>(
    graph: &Graph,
    list: &[usize],
    node: usize,
    reached: bool,
    known: &mut Facts<K>,
    nothing: &Facts<K>,
) -> bool
    requires chain { IsChain graph.now.nodes list.now }
    requires stands { IsAmong list.now (length list.now) node }
    requires nothing { nothing.now ≡ [] }
    ensures { PassesTo K.rules graph.now list.now node (state_where reached known.old)
        (state_where result known.new) }
{
    let outside = Outside {
        entry: nothing,
        backs: &[],
    };
    pass_to(graph, list, node, reached, known, &outside)
}

/// The same, where this is known outside.
fn pass_to<K: Knowledge>(
    graph: &Graph,
    list: &[usize],
    node: usize,
    reached: bool,
    known: &mut Facts<K>,
    outside: &Outside<K>,
) -> bool
    requires chain { IsChain graph.now.nodes list.now }
    requires stands { IsAmong list.now (length list.now) node }
    ensures { PassesTo (rules_in outside.now K.rules) graph.now list.now node
        (state_where reached known.old) (state_where result known.new) }
{
    let mut reaches = reached;
    let mut place = 0;
    while list[place] != node {
        let here = graph.node(list[place]);
        reaches = step(
            reaches,
            known,
            here,
            0,
            graph.shared(),
            graph.received(),
            outside,
        );
        place += 1;
    }
    reaches
}
