// What the least states say is true of runs.
ghost use Rattle.cond_flow.specs.Holding.{StatesHold};
ghost use Rattle.zero_flow.specs.ZeroFacts.{BelowZeroFact, ZeroFactHolds};
ghost use Rattle.zero_flow.specs.ZeroRules.{zero_rules};

use crate::facts::ZeroFact;
use flow_graph::Graph;

/// Has no effect; carries the theorem that what the least states of a graph say is true of its runs: where a run comes
/// to a node, each variable that they call 0 there is 0, each that they call not 0 is not 0, and no run comes to a node
/// that they call unreached.
pub fn zeros_hold(graph: &Graph)
    ensures { StatesHold BelowZeroFact ZeroFactHolds zero_rules graph.now }
{
    cond_flow::states_hold::<ZeroFact>(graph);
}
