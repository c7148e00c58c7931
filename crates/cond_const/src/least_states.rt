// The least states of a graph, and what is known before a node.
ghost use Rattle.std.specs.Prelude.{◌≡◌, ◌<◌, length, IfOk};
ghost use Rattle.std.specs.Option.{option_map};
ghost use Rattle.cond_const.specs.Holding.{HoldsBefore, StatesHold};
ghost use Rattle.cond_const.specs.KnownBefore.{AreKnownBefore, AreStatesOf, IsKnownBefore, IsOnlyKnownBefore};

use crate::known::Known;
use cond_flow::LeastStates as StatesBy;
use flow_graph::Graph;
use mir_base::Memory;
use std::alloc::Global;
use std::marker::Model;

/// The least states of a graph, by which `fold` makes its graph: what is known before each node. They are kept for the
/// first nodes of the blocks. Contracts see the blocks, and the state of each.
#[derive(Drop)]
pub struct LeastStates {
    states: StatesBy<Known>,
}

impl Model for LeastStates {
    ghost use Rattle.cond_const.specs.KnownBefore.{StatesShape};

    ghost Value = { StatesShape };

    ghost view = { λ s. s.states };
}

impl LeastStates {
    /// The least states of a graph. It fails only with `Memory`.
    pub fn of(alloc: Global, graph: &Graph) -> Result<LeastStates, Memory>
        ensures { IfOk result (AreStatesOf graph.now) }
    {
        let states = StatesBy::of(alloc, graph)?;
        Ok(LeastStates { states })
    }

    /// The state of a node by the least states: what is known of each variable before it, by the numbers of the
    /// variables, or `None` where they say that no run comes to the node. The states are those of `graph`. It walks
    /// from the first node of the block to this one. It fails only with `Memory`.
    pub fn before(
        &self,
        alloc: Global,
        graph: &Graph,
        node: usize,
    ) -> Result<Option<Vec<Known>>, Memory>
        requires states { AreStatesOf graph.now self.now }
        requires there { node < length graph.now.nodes }
        ensures known { IfOk result (λ known.
            IsKnownBefore graph.now node (option_map (λ list. list.items) known)) }

        // nothing else is
        ensures only { IfOk result (λ known.
            IsOnlyKnownBefore graph.now node (option_map (λ list. list.items) known)) }

        // in each run that comes to the node every `Fixed` variable has its value; with `None` no run comes there
        ensures holds { IfOk result (λ known.
            HoldsBefore graph.now node (option_map (λ list. list.items) known)) }
    {
        let told = self.states.before(alloc, graph, node)?;
        Ok(told)
    }

    /// What `before` tells of each node, by the numbers of the nodes. Each block is walked once, and what is known is
    /// copied for each node. The states are those of `graph`. It fails only with `Memory`.
    pub fn before_each(
        &self,
        alloc: Global,
        graph: &Graph,
    ) -> Result<Vec<Option<Vec<Known>>>, Memory>
        requires { AreStatesOf graph.now self.now }
        ensures long { IfOk result (λ all. length all.items ≡ length graph.now.nodes) }
        ensures known { IfOk result (λ all. AreKnownBefore graph.now all.items) }
    {
        let all = self.states.before_each(alloc, graph)?;
        Ok(all)
    }
}

/// Has no effect; carries the theorem that what the least states of a graph say is true of its runs: where a run comes
/// to a node, each variable that they call `Fixed` there has that value, and no run comes to a node that they call
/// unreached.
pub fn states_hold(graph: &Graph)
    ensures { StatesHold graph.now }
{
    cond_flow::states_hold::<Known>(graph);
}
