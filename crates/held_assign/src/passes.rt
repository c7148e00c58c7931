// The graph in which each node becomes what the assignments that hold before it make of it.
ghost use Rattle.std.specs.Prelude.{◌≡◌, ◌<◌, ℕ, length, IfOk, Option};
ghost use Rattle.mir_base.specs.declared.instructions.Rhs.{Rhs};
ghost use Rattle.flow_graph.specs.declared.nodes.Node.{Node};
ghost use Rattle.flow_graph.specs.Passes.{GraphKeeps, KeepsSplit, KeepsSuccs};
ghost use Rattle.held_assign.specs.HeldPasses.{AreMadeByRows, DoesAsTheOld, IsMadeByHeld, IsOnlyMadeByHeld, ReadsWhatHolds, StandsInPlace};
ghost use Rattle.held_assign.specs.Rows.{IsLookup, held_at};

use crate::held::HeldAssigns;
use crate::in_place::made_in_place;
use crate::picking::Picks;
use crate::values::held_values;
use flow_graph::{Graph, Node};
use mir_base::Memory;
use std::alloc::Global;

/// A choice of assignments, with what a node becomes by those that hold before it.
pub trait HeldPass: Picks {
    ghost becomes: { (ℕ → Option Rhs) → Node → Node };

    /// What node n becomes. It fails only with `Memory`.
    fn node(&self, alloc: Global, held: &HeldAssigns, n: usize, node: &Node) -> Result<Node, Memory>
        requires lookup { IsLookup (length held.now.targets) (length held.now.held) held.now }
        requires there { n < length held.now.held }
        ensures { IfOk result (λ made. made ≡ becomes (held_at held.now n) node.now) };

    ghost in_place: { StandsInPlace becomes };

    ghost reads: { ReadsWhatHolds becomes };

    ghost does: { (pass : Self) → DoesAsTheOld (Self.picked pass) becomes };
}

/// The graph in which each node becomes what the pass makes of it, by the picked assignments that hold before it. All is
/// decided on the graph as it was, in one step.
///
/// The graph does the same and evaluates no more operators. It fails only with `Memory`.
pub fn made_by_held<P: HeldPass>(alloc: Global, graph: &Graph, pass: &P) -> Result<Graph, Memory>
    ensures made { IfOk result (IsMadeByHeld (P.picked pass.now) P.becomes graph.now) }

    // there is no other such graph
    ensures only { IfOk result (IsOnlyMadeByHeld (P.picked pass.now) P.becomes graph.now) }

    // it has the name of the graph, does the same, evaluates no more operators, and makes no other calls
    ensures keeps { IfOk result (GraphKeeps graph.now) }

    // its edges are those of the graph, so it is split where the graph is
    ensures succs { IfOk result (KeepsSuccs graph.now) }
    ensures split { IfOk result (KeepsSplit graph.now) }
{
    held_values(graph);
    let held = HeldAssigns::of(alloc, graph, pass)?;
    let nodes = nodes_by_rows(alloc, graph, &held, pass)?;
    let made = made_in_place(alloc, graph, nodes)?;
    Ok(made)
}

/// What the nodes of a graph become, by the rows of the assignments that hold.
fn nodes_by_rows<P: HeldPass>(
    alloc: Global,
    graph: &Graph,
    held: &HeldAssigns,
    pass: &P,
) -> Result<Vec<Node>, Memory>
    requires { IsLookup (length graph.now.vars) (length graph.now.nodes) held.now }
    ensures { IfOk result (λ nodes.
        AreMadeByRows P.becomes held.now graph.now.nodes nodes.items) }
{
    let old = graph.nodes();
    let mut nodes = Vec::with_capacity(alloc, old.len())?;
    for n in 0..old.len() {
        let node = pass.node(alloc, held, n, &old[n])?;
        nodes.push(node)?;
    }
    Ok(nodes)
}
