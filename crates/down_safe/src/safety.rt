// Where expressions may be evaluated.
use bit_rows::Rows;
use flow_graph::{Blocks, Edges, Graph};

/// Where the nodes of a graph use and kill expressions: each has one row for each node, and one bit for each
/// expression.
#[derive(Clone, Copy)]
pub struct Sites<'a> {
    /// The graph.
    pub graph: &'a Graph,
    /// Its edges.
    pub edges: &'a Edges,
    /// Its blocks.
    pub blocks: &'a Blocks,
    /// Which expressions each node uses.
    pub uses: &'a Rows,
    /// Which expressions each node kills.
    pub kills: &'a Rows,
}

/// Where expressions may be evaluated: each has one row for each node of a graph, and one bit for each expression.
#[derive(Drop)]
pub struct Busy {
    /// Where an expression is used.
    pub uses: Rows,
    /// Where it is available: every path from Start has evaluated it, and no operand has been assigned since.
    pub available: Rows,
    /// Where it is down by the rule: what follows uses it. By `EveryPath` that is where it is anticipatable.
    pub anticipatable: Rows,
    /// Where it is earliest: down by the rule, with a predecessor that kills it or is not safe.
    pub earliest: Rows,
}

/// Where expressions are used and earliest: each has one row for each node of a graph, and one bit for each expression.
#[derive(Drop)]
pub struct EarliestSites {
    /// Where an expression is used.
    pub uses: Rows,
    /// Where it is earliest: down by the rule, with a predecessor that kills it or is not safe.
    pub earliest: Rows,
}
