// What units hand over and back, by what is known where they do.
ghost use Rattle.std.specs.Prelude.{◌≡◌, ◌<◌, length, map, IfOk, OnOk};
ghost use Rattle.std.specs.Option.{option_map};
ghost use Rattle.mir_base.specs.Frames.{shared_vars};
ghost use Rattle.flow_graph.specs.Blocks.{AreBlocksOf, IsChain};
ghost use Rattle.cond_flow.specs.Blockwise.{AreLeastOver};
ghost use Rattle.cond_flow.specs.Handing.{AreHanded, handed, handed_at, handed_by};
ghost use Rattle.cond_flow.specs.Outsides.{rules_in};
ghost use Rattle.cond_flow.specs.Rules.{OutsideShape, known_at, within};
ghost use Rattle.cond_flow.specs.States.{state_where};
ghost use Rattle.cond_flow.specs.Telling.{HandsIn, IsToldOf, TellsHanded};

use crate::solving::{blocks_of, least};
use crate::states::BlockState;
use crate::telling::nothing;
use crate::transfer::step;
use crate::{Facts, Knowledge, Outside};
use fix_solve::Work;
use flow_graph::{Blocks, Graph, Node};
use mir_base::{Memory, Operand, Rhs};
use std::alloc::Global;

/// What is known by the least states, where this is known outside: by the numbers of the nodes, of each global and then
/// of each operand that a call hands over, and of each global and then of the result that a return hands back; `None`
/// at other nodes, and where no run comes to. It fails only with `Memory`.
pub fn handed<K: Knowledge>(
    alloc: Global,
    graph: &Graph,
    outside: &Outside<K>,
) -> Result<Vec<Option<Vec<K>>>, Memory>
    ensures { IfOk result (λ all.
        AreHanded K.below (rules_in outside.now K.rules) graph.now all.items) }
{
    let blocks = blocks_of(alloc, graph)?;
    let states = least(alloc, graph, &blocks, outside)?;
    let all = hand_blocks(alloc, graph, &blocks, &states, outside)?;
    Ok(all)
}

/// The same by the least states of the blocks.
pub(crate) fn hand_blocks<K: Knowledge>(
    alloc: Global,
    graph: &Graph,
    blocks: &Blocks,
    states: &Work<BlockState<K>>,
    outside: &Outside<K>,
) -> Result<Vec<Option<Vec<K>>>, Memory>
    requires blocks { AreBlocksOf graph.now.nodes blocks.now }
    requires states { AreLeastOver K.below (rules_in outside.now K.rules) graph.now blocks.now
        states.now }
    ensures { IfOk result (λ all.
        AreHanded K.below (rules_in outside.now K.rules) graph.now all.items) }
{
    let nodes = graph.nodes();
    let mut all = nothing(alloc, nodes.len())?;
    for block in 0..blocks.len() {
        hand_block(
            alloc,
            graph,
            blocks.nodes(block),
            states.value(block),
            outside,
            &mut all,
        )?;
    }
    Ok(all)
}

/// Puts what the nodes of a block hand over in their places, of which the first has this state.
fn hand_block<K: Knowledge>(
    alloc: Global,
    graph: &Graph,
    list: &[usize],
    state: &BlockState<K>,
    outside: &Outside<K>,
    all: &mut Vec<Option<Vec<K>>>,
) -> Result<(), Memory>
    requires chain { IsChain graph.now.nodes list.now }
    requires long { length all.old.items ≡ length graph.now.nodes }
    ensures { OnOk result (HandsIn (rules_in outside.now K.rules) graph.now list.now state.now
        (length list.now) all.old.items all.new.items) }
{
    let mut known = state.known.copied(alloc)?;
    hand_list(alloc, graph, list, state.reached, &mut known, outside, all)?;
    Ok(())
}

/// The same of these nodes, where `reached` says whether the first of them is reached and `known` what is known before
/// it.
fn hand_list<K: Knowledge>(
    alloc: Global,
    graph: &Graph,
    list: &[usize],
    reached: bool,
    known: &mut Facts<K>,
    outside: &Outside<K>,
    all: &mut Vec<Option<Vec<K>>>,
) -> Result<(), Memory>
    requires chain { IsChain graph.now.nodes list.now }
    requires long { length all.old.items ≡ length graph.now.nodes }
    ensures { OnOk result (HandsIn (rules_in outside.now K.rules) graph.now list.now
        (state_where reached known.old) (length list.now) all.old.items all.new.items) }
{
    let mut reaches = reached;
    for i in 0..list.len() {
        let n = list[i];
        let node = graph.node(n);
        put(alloc, all, graph, n, reaches, known)?;
        reaches = step(
            reaches,
            known,
            node,
            0,
            graph.shared(),
            graph.received(),
            outside,
        );
    }
    Ok(())
}

/// Puts what a node hands over in its place.
fn put<K: Knowledge>(
    alloc: Global,
    all: &mut Vec<Option<Vec<K>>>,
    graph: &Graph,
    n: usize,
    reached: bool,
    known: &Facts<K>,
) -> Result<(), Memory>
    requires low { n < length all.old.items }
    requires there { n < length graph.now.nodes }
    ensures { OnOk result ((outside : OutsideShape K) → IsToldOf
        (TellsHanded (within outside K.rules) graph.now) n (state_where reached known.now) all.old.items all.new.items) }
{
    let handed = handed_at(alloc, reached, known, graph.shared(), graph.node(n))?;
    all[n] = handed;
    Ok(())
}

/// What a node hands over, where `reached` says whether it is reached and `known` what is known before it.
fn handed_at<K: Knowledge>(
    alloc: Global,
    reached: bool,
    known: &Facts<K>,
    shared: usize,
    node: &Node,
) -> Result<Option<Vec<K>>, Memory>
    ensures { IfOk result (λ told. (outside : OutsideShape K)
        → option_map (λ list. list.items) told
        ≡ handed_at (within outside K.rules) shared node.now (state_where reached known.now)) }
{
    if reached {
        let told = handed_by(alloc, known, shared, node)?;
        Ok(told)
    } else {
        Ok(None)
    }
}

/// What a node hands over that is reached.
fn handed_by<K: Knowledge>(
    alloc: Global,
    known: &Facts<K>,
    shared: usize,
    node: &Node,
) -> Result<Option<Vec<K>>, Memory>
    ensures { IfOk result (λ told. (outside : OutsideShape K)
        → option_map (λ list. list.items) told
        ≡ handed_by (within outside K.rules) shared node.now known.now) }
{
    match node {
        Node::Call(_, _, args, _) => {
            let list = hand_over(alloc, known, shared, args.items())?;
            Ok(Some(list))
        }
        Node::Return(a) => {
            let list = hand_over(alloc, known, shared, &[*a])?;
            Ok(Some(list))
        }
        _ => Ok(None),
    }
}

/// What is known of the globals and of operands.
fn hand_over<K: Knowledge>(
    alloc: Global,
    known: &Facts<K>,
    shared: usize,
    operands: &[Operand],
) -> Result<Vec<K>, Memory>
    ensures { IfOk result (λ list. list.items ≡ handed K.rules shared operands.now known.now) }
{
    let mut list = globals_known(alloc, known, shared)?;
    for a in operands {
        list.push(K::of_rhs(known, Rhs::Plain(*a)))?;
    }
    Ok(list)
}

/// What is known of the globals.
fn globals_known<K: Knowledge>(
    alloc: Global,
    known: &Facts<K>,
    shared: usize,
) -> Result<Vec<K>, Memory>
    ensures { IfOk result (λ list.
        list.items ≡ map (known_at K.rules known.now) (shared_vars shared)) }
{
    let mut list = Vec::new(alloc);
    for x in 0..shared {
        list.push(known.get(x, K::top()))?;
    }
    Ok(list)
}
