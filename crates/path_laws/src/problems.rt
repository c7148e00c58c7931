// What a path call solves.
use bit_rows::Rows;
use flow_graph::{Blocks, Edges, Graph};

/// A problem of paths over a graph: along its edges or against them, on every path or on some, with rows that say where
/// each bit is born and where it is stopped.
#[derive(Drop)]
pub(crate) struct Problem<'a> {
    pub(crate) graph: &'a Graph,
    pub(crate) edges: &'a Edges,
    pub(crate) blocks: &'a Blocks,
    pub(crate) against: bool,
    pub(crate) every: bool,
    pub(crate) bits: usize,
    pub(crate) born: &'a Rows,
    pub(crate) stop: &'a Rows,
}
