// What a round and the rounds of a graph give.
use flow_graph::Graph;
use mir_base::Items;

/// One round of sinking and pruning.
#[derive(Drop)]
pub struct Round {
    /// The graph that the round makes.
    pub graph: Graph,
    /// Whether its layout is another than that of the graph before it.
    pub changed: bool,
}

/// The rounds of a graph.
#[derive(Drop)]
pub struct Rounds {
    /// The graph that each round makes, in their order.
    pub graphs: Items<Graph>,
}
