// The distinct picked assignments of a graph.
ghost use Rattle.std.specs.Prelude.{◌≡◌, length, IfOk};
ghost use Rattle.mir_base.specs.Shapes.{AllDiffer, operand_vars, rhs_vars};
ghost use Rattle.flow_graph.specs.Numbering.{is_in};
ghost use Rattle.held_assign.specs.Assignments.{AreHoldable, AreInOrder, HasAssignments, HasOnlyAssignments, picked_of, picked_assignment};
ghost use Rattle.held_assign.specs.Holding.{can_hold};

use crate::Picks;
use crate::keys::AsPicked;
use flow_graph::{Graph, Node};
use key_rows::node_keys;
use key_table::KeyTable;
use mir_base::{Memory, Operand, Rhs, divides};
use std::alloc::Global;

/// The assignment `target <- rhs`.
#[derive(Clone, Copy, Debug, PartialEq, Eq, Hash)]
pub struct Assignment {
    /// The variable that is assigned, by number.
    pub target: usize,
    /// The right side.
    pub rhs: Rhs,
}

/// The picked assignments that the nodes of a graph are, in order of the first node that is each.
pub(crate) fn table_of<P: Picks>(
    alloc: Global,
    graph: &Graph,
    picks: &P,
) -> Result<KeyTable<Assignment>, Memory>
    ensures holdable { IfOk result (AreHoldable (P.picked picks.now) (length graph.now.vars)) }
    ensures all { IfOk result (HasAssignments (P.picked picks.now) graph.now.nodes) }
    ensures only { IfOk result (HasOnlyAssignments (P.picked picks.now) graph.now.nodes) }
    ensures differ { IfOk result AllDiffer }
    ensures order { IfOk result (AreInOrder (P.picked picks.now) graph.now.nodes) }
{
    let nodes = graph.nodes();
    let table = node_keys(alloc, nodes, &AsPicked { picks })?;
    Ok(table)
}

/// The picked assignment that a node is, where it is one.
pub(crate) fn picked_of<P: Picks>(picks: &P, node: &Node) -> Option<Assignment>
    ensures { result ≡ picked_of (P.picked picks.now) node.now }
{
    match node {
        Node::Assign(x, rhs, _) => picked_assignment(picks, *x, *rhs),
        _ => None,
    }
}

/// The assignment, where it is picked and can hold.
fn picked_assignment<P: Picks>(picks: &P, target: usize, rhs: Rhs) -> Option<Assignment>
    ensures { result ≡ picked_assignment (P.picked picks.now) target rhs }
{
    if picks.picks(target, rhs) && can_hold(target, rhs) {
        Some(Assignment { target, rhs })
    } else {
        None
    }
}

/// Whether an assignment never traps and does not read its own variable.
fn can_hold(target: usize, rhs: Rhs) -> bool
    ensures { result ≡ can_hold target rhs }
{
    !divides(&rhs) && !reads(rhs, target)
}

/// Whether a right side reads x.
fn reads(rhs: Rhs, x: usize) -> bool
    ensures { result ≡ is_in x (rhs_vars rhs) }
{
    match rhs {
        Rhs::Plain(a) => is_var(a, x),
        Rhs::Unary(_, a) => is_var(a, x),
        Rhs::Binary(_, a, b) => is_var(a, x) || is_var(b, x),
    }
}

/// Whether an operand is the variable x.
fn is_var(operand: Operand, x: usize) -> bool
    ensures { result ≡ is_in x (operand_vars operand) }
{
    match operand {
        Operand::Var(y) => y == x,
        Operand::Const(_) => false,
    }
}
