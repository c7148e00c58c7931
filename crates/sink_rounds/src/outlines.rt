// Whether two graphs have one layout, where possible without making it.
ghost use Rattle.std.specs.Prelude.{◌≡◌, count_by, IfOk};
ghost use Rattle.flow_graph.specs.Layouts.{IsLayout};
ghost use Rattle.graph_edit.specs.GraphFlows.{IsFlowOf};
ghost use Rattle.sink_rounds.specs.Outlines.{IsCompared, IsOutlineOf, is_assign};

use flow_graph::{Graph, Node, layout};
use graph_edit::GraphFlow;
use mir_base::{Memory, Unit as MirUnit};
use std::alloc::Global;
use std::mem;
use unit_equal::same_unit;

/// What is known of the layout of a graph.
#[derive(Drop)]
pub(crate) struct Outline {
    /// How many assignments the graph has; its layout has as many.
    pub(crate) assigns: usize,
    /// The layout, where it had to be made.
    pub(crate) unit: Option<MirUnit>,
}

impl Outline {
    /// What is known of the layout of a graph before it is made. It does not allocate.
    pub(crate) fn of(graph: &Graph) -> Outline
        ensures { IsOutlineOf graph.now result }
    {
        Outline {
            assigns: assigns(graph.nodes()),
            unit: None,
        }
    }

    /// The layout of a graph of which this is known: it is made, where it has not been yet.
    fn into_unit(self, alloc: Global, graph: &Graph) -> Result<MirUnit, Memory>
        requires { IsOutlineOf graph.now self }
        ensures { IfOk result (IsLayout graph.now) }
    {
        let Outline { unit, .. } = self;
        match unit {
            Some(unit) => Ok(unit),
            None => {
                let unit = layout(alloc, graph)?;
                Ok(unit)
            }
        }
    }
}

/// How many of these nodes are assignments.
fn assigns(nodes: &[Node]) -> usize
    ensures { result ≡ count_by is_assign nodes.now }
{
    let mut count = 0;
    for node in nodes {
        count += usize::from(is_assign(node));
    }
    count
}

/// Whether a node is an assignment.
fn is_assign(node: &Node) -> bool
    ensures { result ≡ is_assign node.now }
{
    match node {
        Node::Start(_) => false,
        Node::Skip(_) => false,
        Node::Assign(_, _, _) => true,
        Node::Print(_, _) => false,
        Node::Guard(_, _, _) => false,
        Node::Call(_, _, _, _) => false,
        Node::Test(_, _, _) => false,
        Node::Return(_) => false,
    }
}

/// Whether two graphs have different layouts, what is known of that of the second, and its edges and blocks, where they
/// are still there.
#[derive(Drop)]
pub(crate) struct Compared {
    pub(crate) outline: Outline,
    pub(crate) changed: bool,
    pub(crate) flow: Option<GraphFlow>,
}

/// Compares the layout of a graph, of which this is known, with that of another, of which these are the edges and the
/// blocks. Where these have not equally many assignments, neither layout is made, and the edges and the blocks are
/// handed on; else they are let go first. It fails only with `Memory`.
pub(crate) fn compare(
    alloc: Global,
    graph: &Graph,
    known: Outline,
    other: &Graph,
    flow: GraphFlow,
) -> Result<Compared, Memory>
    requires known { IsOutlineOf graph.now known }
    requires flow { IsFlowOf other.now.nodes flow }
    ensures { IfOk result (IsCompared graph.now other.now) }
{
    let _olds = graph.nodes();
    let _news = other.nodes();
    let outline = Outline::of(other);
    if outline.assigns == known.assigns {
        mem::drop(flow);
        let compared = laid_out(alloc, graph, known, other)?;
        Ok(compared)
    } else {
        Ok(Compared {
            outline,
            changed: true,
            flow: Some(flow),
        })
    }
}

/// The same by the two layouts.
fn laid_out(alloc: Global, graph: &Graph, known: Outline, other: &Graph) -> Result<Compared, Memory>
    requires { IsOutlineOf graph.now known }
    ensures { IfOk result (IsCompared graph.now other.now) }
{
    let unit = known.into_unit(alloc, graph)?;
    let laid = layout(alloc, other)?;
    let changed = !same_unit(&unit, &laid);
    let assigns = assigns(other.nodes());
    Ok(Compared {
        outline: Outline {
            assigns,
            unit: Some(laid),
        },
        changed,
        flow: None,
    })
}
