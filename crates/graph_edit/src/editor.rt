// Edits of a graph: new assignments before nodes, and changed assignments. All memory for them is allocated by `open`.
ghost use Rattle.std.specs.Prelude.{◌≡◌, ◌++◌, ◌+◌, ◌<◌, ◌≤◌, ℕ, length, slice_get, take, IfOk, IsTrue};
ghost use Rattle.mir_base.specs.Shapes.{AllBelow, AllDiffer, rhs_vars};
ghost use Rattle.node_list.specs.Lists.{is_listed};
ghost use Rattle.graph_edit.specs.Edited.{edited_from, leads, AreFirsts, EachHasFirst, OldsLeadToOlds};
ghost use Rattle.graph_edit.specs.Editing.{change_to, graph_changed, graph_extended, graph_put, is_assignment, rhs_below};
ghost use Rattle.flow_graph.specs.Graphs.{SuccsBelow};
ghost use Rattle.graph_edit.specs.Insertions.{changed};
ghost use Rattle.flow_graph.specs.Retained.{redirected};

use flow_graph::{Graph, Names, Node, redirect_in_place};
use mir_base::{Items, Memory, Name, Rhs};
use node_list::Links;
use std::alloc::{AllocError, Global};
use std::marker::Model;
use std::mem;

/// A graph that is being edited: `open` takes a graph, `put_before` and `change` edit it, and `close` gives the graph.
/// Contracts see it as the graph as it stands and the number of assignments for which there is still room.
///
/// The old nodes are those of the graph that was opened. Each has a list of nodes that ends with it: the new
/// assignments before it, in order, and then the node. An edge of an old node leads to the first node of its target's
/// list; the edge of a new node leads to the next node of its own list.
#[derive(Drop)]
pub struct Editor {
    name: Name,
    shared: usize,
    vars: Names,
    received: Items<usize>,
    nodes: Vec<Node>,
    olds: usize,
    used: usize,
    links: Links,
    alloc: Global,
}

impl Model for Editor {
    ghost use Rattle.std.specs.Prelude.{◌-◌, length};
    ghost use Rattle.flow_graph.specs.Graphs.{SharesVars};
    ghost use Rattle.graph_edit.specs.Edited.{edited_nodes, HoldsEdits};
    ghost use Rattle.graph_edit.specs.Editing.{EditorShape};

    ghost Value = { EditorShape };

    ghost view = { λ editor. record {
      graph = record {
        name = editor.name;
        shared = editor.shared;
        vars = editor.vars;
        received = editor.received;
        nodes = edited_nodes editor.links.lists editor.used editor.nodes.items;
      };
      spare = length editor.nodes.items - editor.used;
    } };

    ghost invariant = { λ editor.
        HoldsEdits editor.vars editor.received editor.nodes.items
        editor.olds editor.used editor.links
        × SharesVars editor.shared editor.vars editor.received };
}

impl Editor {
    /// The graph with the variables `extra` after its own, and with room for `room` new assignments. The names of the
    /// graph's variables and of `extra` together are distinct. All memory for the edits is allocated here. It fails
    /// only with `Memory`.
    pub fn open(
        alloc: Global,
        graph: &Graph,
        extra: Vec<Name>,
        room: usize,
    ) -> Result<Editor, Memory>
        requires { AllDiffer (graph.now.vars ++ extra.items) }
        ensures graph { IfOk result (λ made. made.graph ≡ graph_extended extra.items graph.now) }
        ensures spare { IfOk result (λ editor. editor.spare ≡ room) }
    {
        let Some(total) = graph.len().checked_add(room) else {
            return Err(AllocError);
        };
        let name = graph.name().clone()?;
        let vars = graph.shared_names().with(alloc, extra)?;
        let received = Vec::from_slice(alloc, graph.received())?;
        let nodes = with_room(alloc, graph.nodes(), room)?;
        let links = Links::one_each(alloc, total, graph.len())?;
        Ok(Editor {
            name,
            shared: graph.shared(),
            vars,
            received: Items::of(received),
            nodes,
            olds: graph.len(),
            used: graph.len(),
            links,
            alloc,
        })
    }

    /// Puts the assignment of `rhs` to the variable `x` right before `node`, behind those that were put there earlier.
    /// It gets the next number, its successor is the node, and all edges that entered the node now enter it. There is
    /// room for it, `node` is a node of the graph and not Start, and `x` and the variables of `rhs` are variables of
    /// the graph. It does not allocate.
    pub fn put_before(&mut self, node: usize, x: usize, rhs: Rhs)
        requires spare { 1 ≤ self.old.spare }
        requires some { 1 ≤ node }
        requires node { node < length self.old.graph.nodes }
        requires x { x < length self.old.graph.vars }
        requires rhs { AllBelow (length self.old.graph.vars) (rhs_vars rhs) }
        ensures graph { self.new.graph ≡ graph_put node x rhs self.old.graph }
        ensures spare { self.new.spare + 1 ≡ self.old.spare }
    {
        let new = self.used;
        self.nodes[new] = Node::Assign(x, rhs, node);
        self.links.insert_before(node, new);
        self.used = new + 1;
    }

    /// Gives an assignment the right side `rhs`, or makes it a Skip where `rhs` is `None`. `node` is an assignment, and
    /// the variables of `rhs` are variables of the graph. It does not allocate.
    pub fn change(&mut self, node: usize, rhs: Option<Rhs>)
        requires node { IsTrue (is_assignment (slice_get self.old.graph.nodes node)) }
        requires rhs { rhs_below (length self.old.graph.vars) rhs }
        ensures graph { self.new.graph ≡ graph_changed node (change_to rhs) self.old.graph }
        ensures spare { self.new.spare ≡ self.old.spare }
    {
        let old = mem::replace(&mut self.nodes[node], Node::Skip(0));
        self.nodes[node] = changed(old, rhs);
    }

    /// The graph with all edits made. It fails only with `Memory`.
    pub fn close(self) -> Result<Graph, Memory>
        ensures { IfOk result (λ graph. graph ≡ self.graph) }
    {
        let mut nodes = self.nodes;
        nodes.truncate(self.used);
        lead_nodes(&mut nodes, self.olds, &self.links);
        Ok(Graph::of_parts(
            self.alloc,
            self.name,
            self.shared,
            self.vars,
            self.received,
            nodes,
        ))
    }
}

/// Copies of the nodes, and `room` Skips after them.
fn with_room(alloc: Global, nodes: &[Node], room: usize) -> Result<Vec<Node>, Memory>
    ensures all { IfOk result (λ all. take (length nodes.now) all.items ≡ nodes.now) }
    ensures long { IfOk result (λ all. length all.items ≡ length nodes.now + room) }
{
    let mut all = Vec::with_capacity(alloc, nodes.len().saturating_add(room))?;
    for node in nodes {
        all.push(node.clone()?)?;
    }
    for _ in 0..room {
        all.push(Node::Skip(0))?;
    }
    Ok(all)
}

/// The assignment with another right side, or a Skip in its place; any other node as it is.
pub(crate) fn changed(node: Node, rhs: Option<Rhs>) -> Node
    ensures { result ≡ changed (change_to rhs) node }
{
    match node {
        Node::Start(next) => Node::Start(next),
        Node::Skip(next) => Node::Skip(next),
        Node::Assign(x, _, next) => match rhs {
            Some(rhs) => Node::Assign(x, rhs, next),
            None => Node::Skip(next),
        },
        Node::Print(a, next) => Node::Print(a, next),
        Node::Guard(test, number, next) => Node::Guard(test, number, next),
        Node::Call(into, unit, args, next) => Node::Call(into, unit, args, next),
        Node::Test(test, taken, other) => Node::Test(test, taken, other),
        Node::Return(a) => Node::Return(a),
    }
}

/// Sets the successors of all nodes by the lists. The first `olds` nodes are old, and each of them has a list.
fn lead_nodes(nodes: &mut [Node], olds: usize, links: &Links)
    requires count { length links.now.lists ≡ olds }
    requires firsts { EachHasFirst links.now.lists }
    requires listed { (n : ℕ) → n < length nodes.old → IsTrue (is_listed links.now.lists n) }
    requires below { OldsLeadToOlds olds nodes.old }
    ensures { nodes.new ≡ edited_from links.now.lists 0 nodes.old }
{
    let firsts = links.firsts();
    for number in 0..nodes.len() {
        lead_node(number, &mut nodes[number], olds, firsts, links);
    }
}

/// Sets the successors of the node of this number by the lists.
fn lead_node(number: usize, node: &mut Node, olds: usize, firsts: &[usize], links: &Links)
    requires count { length links.now.lists ≡ olds }
    requires long { length firsts.now ≡ olds }
    requires firsts { AreFirsts olds links.now.lists firsts.now }
    requires listed { IsTrue (is_listed links.now.lists number) }
    requires below { number < olds → SuccsBelow olds node.old }
    ensures { node.new ≡ redirected (leads links.now.lists number) node.old }
{
    if number < olds {
        redirect_in_place(node, firsts);
    } else {
        aim(node, links.next(number).unwrap_or(0));
    }
}

/// Gives the node one number for all its successors.
fn aim(node: &mut Node, to: usize)
    ensures { node.new ≡ redirected (λ n. to) node.old }
{
    match node {
        Node::Start(next) => *next = to,
        Node::Skip(next) => *next = to,
        Node::Assign(_, _, next) => *next = to,
        Node::Print(_, next) => *next = to,
        Node::Guard(_, _, next) => *next = to,
        Node::Call(_, _, _, next) => *next = to,
        Node::Test(_, taken, other) => {
            *taken = to;
            *other = to;
        }
        Node::Return(_) => {}
    }
}
