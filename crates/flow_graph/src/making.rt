// Graphs from other graphs: a pass writes a list of nodes, and the graph of those that are reached is made of it.
ghost use Rattle.std.specs.Prelude.{◌≡◌, ◌<◌, IfOk};
ghost use Rattle.mir_base.specs.UnitRuns.{UnitCheaper, UnitSame};
ghost use Rattle.flow_graph.specs.Calls.{NodesCall, CallsAmong};
ghost use Rattle.flow_graph.specs.Graphs.{CanMake, AllReached, IsGraph, SharesVars};
ghost use Rattle.flow_graph.specs.Retained.{IsMade};
ghost use Rattle.flow_graph.specs.Machines.{graph_machine, machine_of};

use crate::retain::make;
use crate::{Graph, Names, Node};
use mir_base::{Items, Memory, Name};
use std::alloc::Global;

impl Graph {
    /// The graph with the name, the variables and the received variables of this one, and with those of `nodes` that
    /// are reached from node 0, renumbered in their old order. The first of `nodes` is their only Start, no edge leads
    /// to it, and successors and variables are in range. Other crates make graphs by this call, `lower` and
    /// `of_parts` alone. It fails only with `Memory`.
    pub fn with_nodes(&self, alloc: Global, nodes: Vec<Node>) -> Result<Graph, Memory>
        requires { CanMake self.now.vars self.now.received nodes.items }
        ensures made { IfOk result (λ graph.
            IsMade self.now.name self.now.shared self.now.vars self.now.received
            nodes.items graph) }

        // where every node is reached, the nodes are those of the list
        ensures whole { IfOk result (λ graph. AllReached nodes.items → graph.nodes ≡ nodes.items) }

        // the graph does the same as the list of nodes whole, and evaluates no more operators
        ensures same { IfOk result (λ graph.
            UnitSame (graph_machine self.now.shared self.now.received nodes.items)
            (machine_of graph)) }
        ensures cheaper { IfOk result (λ graph.
            UnitCheaper (graph_machine self.now.shared self.now.received nodes.items)
            (machine_of graph)) }

        // the graph makes no calls but those of the list
        ensures calls { IfOk result (λ graph.
            CallsAmong (NodesCall graph.nodes) (NodesCall nodes.items)) }
    {
        let graph = made_of(self, alloc, nodes)?;
        Ok(graph)
    }

    /// The graph with these parts, which fit together as those of a graph do, for crates that make graphs of their own.
    /// It does not allocate.
    pub fn of_parts(
        alloc: Global,
        name: Name,
        shared: usize,
        vars: Names,
        received: Items<usize>,
        nodes: Vec<Node>,
    ) -> Graph
        requires graph { IsGraph vars received nodes.items }
        requires shares { SharesVars shared vars received }
        ensures name { result.name ≡ name }
        ensures shared { result.shared ≡ shared }
        ensures vars { result.vars ≡ vars }
        ensures received { result.received ≡ received }
        ensures nodes { result.nodes ≡ nodes.items }
    {
        Graph {
            name,
            shared,
            vars,
            received,
            nodes,
            alloc,
        }
    }

    /// The parts of this graph. Other crates edit the nodes of a graph in place by this call and `of_parts`. It does
    /// not allocate.
    pub fn into_parts(self) -> Parts
        ensures name { result.name ≡ self.name }
        ensures shared { result.shared ≡ self.shared }
        ensures vars { result.vars ≡ self.vars }
        ensures received { result.received ≡ self.received }
        ensures nodes { result.nodes.items ≡ self.nodes }
        ensures graph { IsGraph result.vars result.received result.nodes.items }
        ensures shares { SharesVars result.shared result.vars result.received }
    {
        Parts {
            name: self.name,
            shared: self.shared,
            vars: self.vars,
            received: self.received,
            nodes: self.nodes,
        }
    }
}

/// The parts of a graph, of which `Graph::of_parts` makes one.
#[derive(Drop)]
pub struct Parts {
    /// The name of the unit.
    pub name: Name,
    /// How many of the variables are globals: the first ones.
    pub shared: usize,
    /// The names of the variables, by number.
    pub vars: Names,
    /// The received variables, in the order of the arguments.
    pub received: Items<usize>,
    /// The nodes, by number.
    pub nodes: Vec<Node>,
}

/// The graph of those of `nodes` that are reached, with all else of `graph`.
fn made_of(graph: &Graph, alloc: Global, nodes: Vec<Node>) -> Result<Graph, Memory>
    requires { CanMake graph.now.vars graph.now.received nodes.items }
    ensures { IfOk result (λ made.
        IsMade graph.now.name graph.now.shared graph.now.vars graph.now.received nodes.items made) }
{
    let name = graph.name().clone()?;
    let vars = graph.shared_names().share()?;
    let received = Vec::from_slice(alloc, graph.received())?;
    make(alloc, name, graph.shared(), vars, received, nodes)
}
