// The split graph.
ghost use Rattle.std.specs.Prelude.{◌≡◌, ◌^◌, ◌<◌, [], ◌∷◌, length, IfOk, OnOk};
ghost use Rattle.mir_base.specs.Shapes.{AllBelow};
ghost use Rattle.flow_graph.specs.Edges.{IsSplit};
ghost use Rattle.flow_graph.specs.Graphs.{AllWithin, node_succs};
ghost use Rattle.flow_graph.specs.Passes.{GraphDividesUnchanged, GraphKeeps};
ghost use Rattle.edge_split.specs.NewSkips.{MakesSkips, node_through, succs_through};
ghost use Rattle.edge_split.specs.Split.{CountEntries, IsEdgeSplit, split_nodes};

use crate::entries::entries;
use flow_graph::{Graph, Node};
use mir_base::Memory;
use std::alloc::Global;

/// The split graph: for each edge that enters a node with more than one entering edge, in the order of source and then
/// of successor slot, a new Skip is put on the edge. The new Skips take the next numbers, and old nodes keep theirs.
/// The time is linear in nodes and edges. It fails only with `Memory`.
pub fn split(alloc: Global, graph: &Graph) -> Result<Graph, Memory>
    ensures exact { IfOk result (IsEdgeSplit graph.now) }
    ensures split { IfOk result (λ made. IsSplit made.nodes) }

    // it has the name of the graph, does the same, evaluates no more operators, and makes no other calls
    ensures keeps { IfOk result (GraphKeeps graph.now) }

    // each dividing assignment stays as it is, with its operands
    ensures divides { IfOk result (GraphDividesUnchanged graph.now) }
{
    let entries = entries(alloc, graph)?;
    let nodes = all_nodes(alloc, graph.nodes(), entries)?;
    let made = graph.with_nodes(alloc, nodes)?;
    Ok(made)
}

/// Has no effect; carries the theorem that the split graph of a graph, whoever made it, is split.
pub fn split_splits(graph: &Graph, made: &Graph)
    requires { IsEdgeSplit graph.now made.now }
    ensures { IsSplit made.now.nodes }
{
    // The proof needs what holds of every graph.
    let _nodes = graph.nodes();
}

/// The nodes of the split graph: the old ones, and after them the new Skips. `entries` are how many edges enter each
/// node, counted up to two.
fn all_nodes(alloc: Global, old: &[Node], entries: Vec<usize>) -> Result<Vec<Node>, Memory>
    requires within { AllWithin old.now }
    requires long { length entries.items ≡ length old.now }
    requires counts { CountEntries old.now entries.items }
    ensures { IfOk result (λ nodes. nodes.items ≡ split_nodes old.now) }
{
    let mut skips = NewSkips {
        entries,
        first: old.len(),
        made: Vec::new(alloc),
    };
    let mut nodes = Vec::with_capacity(alloc, old.len())?;
    for node in old {
        let rerouted = skips.reroute(node)?;
        nodes.push(rerouted)?;
    }
    nodes.append(&mut skips.made)?;
    Ok(nodes)
}

/// The new Skips, which are made in the order of the edges.
#[derive(Drop)]
struct NewSkips {
    /// How many edges of the old graph enter each node.
    entries: Vec<usize>,
    /// The number of the first new Skip.
    first: usize,
    /// The new Skips so far.
    made: Vec<Node>,
}

impl NewSkips {
    /// The node with each of its edges into a join led through a new Skip, which is appended to `made`. It fails
    /// only with `Memory`.
    fn reroute(&mut self, node: &Node) -> Result<Node, Memory>
        requires within { AllBelow (length self.old.entries.items) (node_succs node.now) }
        requires room { self.old.first < 2 ^ 63 }
        ensures entries { self.new.entries.items ≡ self.old.entries.items }
        ensures first { self.new.first ≡ self.old.first }
        ensures made { OnOk result (MakesSkips self.old self.new (node_succs node.now)) }
        ensures node { IfOk result (λ made. made ≡ node_through self.old node.now) }
    {
        Ok(match node {
            Node::Start(next) => Node::Start(self.entry(*next)?),
            Node::Skip(next) => Node::Skip(self.entry(*next)?),
            Node::Assign(x, rhs, next) => Node::Assign(*x, *rhs, self.entry(*next)?),
            Node::Print(a, next) => Node::Print(*a, self.entry(*next)?),
            Node::Guard(test, number, next) => { Node::Guard(*test, *number, self.entry(*next)?) }
            Node::Call(into, unit, args, next) => {
                Node::Call(*into, *unit, args.clone()?, self.entry(*next)?)
            }
            Node::Test(test, taken, other) => {
                let taken = self.entry(*taken)?;
                Node::Test(*test, taken, self.entry(*other)?)
            }
            Node::Return(a) => Node::Return(*a),
        })
    }

    /// Where an edge to this target leads: to a new Skip where the target is a join.
    fn entry(&mut self, target: usize) -> Result<usize, Memory>
        requires within { target < length self.old.entries.items }
        requires room { self.old.first < 2 ^ 63 }
        ensures entries { self.new.entries.items ≡ self.old.entries.items }
        ensures first { self.new.first ≡ self.old.first }
        ensures made { OnOk result (MakesSkips self.old self.new (target ∷ [])) }
        ensures entry { IfOk result (λ entry. entry ∷ [] ≡ succs_through self.old (target ∷ [])) }
    {
        if self.entries[target] > 1 {
            let entry = self.first + self.made.len();
            self.made.push(Node::Skip(target))?;
            Ok(entry)
        } else {
            Ok(target)
        }
    }
}
