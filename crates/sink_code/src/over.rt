// A graph with its edges and blocks, and a table of patterns of it.
use crate::patterns::Patterns;
use flow_graph::{Blocks, Edges, Graph};

/// A graph with its edges and blocks, and a table of patterns that leave blocks of it.
#[derive(Drop)]
pub(crate) struct OverBlocks<'a> {
    pub(crate) graph: &'a Graph,
    pub(crate) edges: &'a Edges,
    pub(crate) blocks: &'a Blocks,
    pub(crate) table: &'a Patterns,
}
