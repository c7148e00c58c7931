// What is found out of a graph and what is made of it, by one solution.
ghost use Rattle.std.specs.Prelude.{IfOk};
ghost use Rattle.cond_flow.specs.Handing.{AreHanded};
ghost use Rattle.cond_flow.specs.Outsides.{rules_in};
ghost use Rattle.cond_flow.specs.Rewritten.{IsMadeWithin};

use crate::handing::hand_blocks;
use crate::rewriting::{made_of, rewrite};
use crate::solving::{blocks_of, least};
use crate::{Knowledge, Outside};
use flow_graph::Graph;
use mir_base::Memory;
use std::alloc::Global;

/// What the nodes of a graph hand over, as `handed` answers it, and the graph that `rewritten_within` makes.
#[derive(Drop)]
pub struct Solved<K: Knowledge> {
    pub handed: Vec<Option<Vec<K>>>,
    pub made: Graph,
}

/// What `handed` and `rewritten_within` answer, where this is known outside, of one solution. It fails only with
/// `Memory`.
pub fn solved_within<K: Knowledge>(
    alloc: Global,
    graph: &Graph,
    outside: &Outside<K>,
) -> Result<Solved<K>, Memory>
    ensures handed { IfOk result (λ solved.
        AreHanded K.below (rules_in outside.now K.rules) graph.now solved.handed.items) }
    ensures made { IfOk result (λ solved.
        IsMadeWithin K.below (rules_in outside.now K.rules) graph.now solved.made) }
{
    let blocks = blocks_of(alloc, graph)?;
    let states = least(alloc, graph, &blocks, outside)?;
    let handed = hand_blocks(alloc, graph, &blocks, &states, outside)?;
    let nodes = rewrite(alloc, graph, &blocks, &states, outside)?;
    let made = made_of(alloc, graph, outside, nodes)?;
    Ok(Solved { handed, made })
}
