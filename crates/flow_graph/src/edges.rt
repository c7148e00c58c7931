// The edges of a graph, by source and by target.
ghost use Rattle.std.specs.Prelude.{◌≡◌, ◌<◌, length, List, slice_get, suc, IfOk, Some};
ghost use Rattle.flow_graph.specs.Blocks.{only};
ghost use Rattle.flow_graph.specs.Graphs.{succs_at};
ghost use Rattle.flow_graph.specs.declared.nodes.Node.{Node};
ghost use Rattle.flow_graph.specs.Edges.{by_target, edges_of, first_entering, first_leaving, preds_among};

use crate::Graph;
use crate::edge_lists::{counts, list, sort};
use crate::tables::{bounds, entry, part};
use mir_base::{Items, Memory};
use std::alloc::Global;
use std::marker::Model;

/// An edge: `target` is a successor of `source`.
#[derive(Clone, Copy, Debug, PartialEq, Eq)]
pub struct Edge {
    /// The number of the node that it leaves.
    pub source: usize,
    /// The number of the node that it enters.
    pub target: usize,
}

/// All edges of a graph. They are numbered from 0 in order of source and then of successor slot. They are numbered a
/// second time by target: first those that enter node 0, then those that enter node 1, and so on, those of one node in
/// the order of the first numbering. Contracts see them as the number of nodes and the list of edges.
#[derive(Drop)]
pub struct Edges {
    nodes: usize,
    edges: Items<Edge>,
    sources: Items<usize>,
    targets: Items<usize>,
    starts: Items<usize>,
    entries: Items<usize>,
}

impl Model for Edges {
    ghost use Rattle.flow_graph.specs.Edges.{AreIndexed, EdgesShape};

    ghost Value = { EdgesShape };

    ghost view = { λ e. record { nodes = e.nodes; edges = e.edges } };

    ghost invariant = { λ e. AreIndexed e.nodes e.edges e.sources e.targets e.starts e.entries };
}

impl Edges {
    /// The edges of a graph, in time linear in nodes and edges. It fails only with `Memory`.
    pub fn of(alloc: Global, graph: &Graph) -> Result<Edges, Memory>
        ensures { IfOk result (λ edges. edges ≡ edges_of graph.now.nodes) }
    {
        let nodes = graph.nodes();
        let listed = list(alloc, nodes)?;
        let counts = counts(alloc, nodes.len(), listed.edges.as_slice())?;
        let sorted = sort(alloc, nodes.len(), counts, listed.edges.as_slice())?;
        Ok(Edges {
            nodes: nodes.len(),
            edges: Items::of(listed.edges),
            sources: Items::of(sorted.sources),
            targets: Items::of(sorted.targets),
            starts: Items::of(listed.starts),
            entries: Items::of(sorted.entries),
        })
    }

    /// The number of edges. It does not allocate.
    pub fn len(&self) -> usize
        ensures { result ≡ length self.now.edges }
    {
        self.edges.items().len()
    }

    /// The edge of this number. It does not allocate.
    pub fn edge(&self, number: usize) -> Edge
        requires { number < length self.now.edges }
        ensures { slice_get self.now.edges number ≡ Some result }
    {
        self.edges.items()[number]
    }

    /// The numbers of the edges that leave a node: from the first answer up to, and not including, the second. It does
    /// not allocate.
    pub fn leaving(&self, node: usize) -> (usize, usize)
        requires { node < self.now.nodes }
        ensures first { result.0 ≡ first_leaving node self.now.edges }
        ensures end { result.1 ≡ first_leaving (suc node) self.now.edges }
    {
        bounds(self.starts.items(), node)
    }

    /// The only successor of a node, where it has one alone. It does not allocate.
    pub(crate) fn only_succ(&self, node: usize) -> Option<usize>
        requires { node < self.now.nodes }
        ensures { (nodes : List Node) → self.now ≡ edges_of nodes →
            result ≡ only (succs_at nodes node) }
    {
        let leaving = self.leaving(node);
        if leaving.1 - leaving.0 == 1 {
            Some(self.edge(leaving.0).target)
        } else {
            None
        }
    }

    /// The edge of this number by target. It does not allocate.
    pub fn entering_edge(&self, number: usize) -> Edge
        requires { number < length (by_target self.now.nodes self.now.edges) }
        ensures { slice_get (by_target self.now.nodes self.now.edges) number ≡ Some result }
    {
        Edge {
            source: self.sources.items()[number],
            target: self.targets.items()[number],
        }
    }

    /// The numbers by target of the edges that enter a node: from the first answer up to, and not including, the
    /// second. It does not allocate.
    pub fn entering(&self, node: usize) -> (usize, usize)
        requires { node < self.now.nodes }
        ensures first { result.0 ≡ first_entering node self.now.edges }
        ensures end { result.1 ≡ first_entering (suc node) self.now.edges }
    {
        bounds(self.entries.items(), node)
    }

    /// The source of the edge that enters a node, where one alone does. It does not allocate.
    pub(crate) fn only_pred(&self, node: usize) -> Option<usize>
        requires { node < self.now.nodes }
        ensures { result ≡ only (preds_among node self.now.edges) }
    {
        let numbers = self.entering(node);
        if numbers.1 - numbers.0 == 1 {
            Some(entry(self.sources.items(), numbers.0))
        } else {
            None
        }
    }

    /// The sources of the edges that enter a node, one entry for each edge. It does not allocate.
    pub fn preds(&self, node: usize) -> &[usize]
        requires { node < self.now.nodes }
        ensures { result.now ≡ preds_among node self.now.edges }
    {
        let (first, end) = self.entering(node);
        part(self.sources.items(), first, end)
    }
}
