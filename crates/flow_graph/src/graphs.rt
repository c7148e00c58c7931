// Graphs, whose parts are known to fit together.
ghost use Rattle.std.specs.Prelude.{◌≡◌, ◌<◌, length, slice_get, Some};
ghost use Rattle.flow_graph.specs.Graphs.{IsGraph, SharesVars, node_succs, succs_at};

use crate::Node;
use crate::sharing::Names;
use mir_base::{Items, Name};
use smallvec::SmallVec;
use std::alloc::Global;
use std::marker::Model;

/// The flow graph of a unit. Node 0 is the only `Start`, no edge leads to it, and every node is reached from it.
/// Successors are below the number of nodes. The names of the variables are distinct, the received variables are
/// distinct and are no globals, the globals are the first variables, and every variable that is received or stands in a
/// node has a name. Contracts see a graph as its name, the number of globals, the names of its variables, its received
/// variables and its nodes.
#[derive(Drop)]
pub struct Graph {
    pub(crate) name: Name,
    pub(crate) shared: usize,
    pub(crate) vars: Names,
    pub(crate) received: Items<usize>,
    pub(crate) nodes: Vec<Node>,
    pub(crate) alloc: Global,
}

impl Model for Graph {
    ghost use Rattle.flow_graph.specs.Graphs.{GraphShape, IsGraph, SharesVars};

    ghost Value = { GraphShape };

    ghost view = { λ graph. record {
      name = graph.name;
      shared = graph.shared;
      vars = graph.vars;
      received = graph.received;
      nodes = graph.nodes.items;
    } };

    ghost invariant = { λ graph.
        IsGraph graph.vars graph.received graph.nodes.items
        × SharesVars graph.shared graph.vars graph.received };
}

impl Graph {
    /// The number of nodes. It does not allocate.
    pub fn len(&self) -> usize
        ensures { result ≡ length self.now.nodes }
    {
        self.nodes.len()
    }

    /// The node of this number. It does not allocate.
    pub fn node(&self, node: usize) -> &Node
        requires { node < length self.now.nodes }
        ensures { slice_get self.now.nodes node ≡ Some result.now }
    {
        &self.nodes[node]
    }

    /// The successors of the node of this number, in order: of a Test `taken` and then `other`, of a Return none. It
    /// does not allocate.
    pub fn succs(&self, node: usize) -> SmallVec<usize, 2>
        requires { node < length self.now.nodes }
        ensures { result.items ≡ succs_at self.now.nodes node }
    {
        let node = &self.nodes[node];
        succs_of(self.alloc, node)
    }

    /// All nodes, by number. It does not allocate.
    pub fn nodes(&self) -> &[Node]
        ensures value { result.now ≡ self.now.nodes }
        ensures graph { IsGraph self.now.vars self.now.received result.now }
    {
        self.nodes.as_slice()
    }

    /// The name of the unit. It does not allocate.
    pub fn name(&self) -> &Name
        ensures { result.now ≡ self.now.name }
    {
        &self.name
    }

    /// How many of the variables are globals: the first ones. It does not allocate.
    pub fn shared(&self) -> usize
        ensures value { result ≡ self.now.shared }
        ensures shares { SharesVars result self.now.vars self.now.received }
    {
        self.shared
    }

    /// The names of the variables, by number. It does not allocate.
    pub fn vars(&self) -> &[Name]
        ensures { result.now ≡ self.now.vars }
    {
        self.vars.items()
    }

    /// The same names, to be shared. It does not allocate.
    pub fn shared_names(&self) -> &Names
        ensures { result.now ≡ self.now.vars }
    {
        &self.vars
    }

    /// The received variables, in the order of the arguments. It does not allocate.
    pub fn received(&self) -> &[usize]
        ensures { result.now ≡ self.now.received }
    {
        self.received.items()
    }
}

/// The successors of a node, in a list that has room for them in itself.
fn succs_of(alloc: Global, node: &Node) -> SmallVec<usize, 2>
    ensures { result.items ≡ node_succs node.now }
{
    let mut succs = SmallVec::new(alloc);
    if let Some(succ) = node.first_succ() {
        succs.push_reserved(succ);
    }
    if let Some(succ) = node.second_succ() {
        succs.push_reserved(succ);
    }
    succs
}
