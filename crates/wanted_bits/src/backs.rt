// What the right side of each node shifts back.
ghost use Rattle.std.specs.Prelude.{◌≡◌, ◌<◌, length, IfOk};
ghost use Rattle.held_assign.specs.Rows.{IsLookup};
ghost use Rattle.wanted_bits.specs.ByRows.{shift_at};
ghost use Rattle.wanted_bits.specs.Found.{AreBacks};
ghost use Rattle.wanted_bits.specs.Walking.{HaveBacks, back_in, back_of};

use crate::picking::{PickShifts, Shift, shift_held};
use crate::wanting::{is_right_shift, shift_by};
use flow_graph::{Graph, Node};
use held_assign::HeldAssigns;
use mir_base::{Memory, Operand, Rhs};
use std::alloc::Global;

/// For each node the shift that its right side shifts back, where it does.
pub(crate) fn backs(alloc: Global, graph: &Graph) -> Result<Vec<Option<Shift>>, Memory>
    ensures { IfOk result (λ backs. AreBacks graph.now backs.items) }
{
    let _nodes = graph.nodes();
    let held = HeldAssigns::of(alloc, graph, &PickShifts)?;
    let backs = backs_by(alloc, graph, &held)?;
    Ok(backs)
}

/// The same by the shifts to the left that hold.
fn backs_by(alloc: Global, graph: &Graph, held: &HeldAssigns) -> Result<Vec<Option<Shift>>, Memory>
    requires { IsLookup (length graph.now.vars) (length graph.now.nodes) held.now }
    ensures long { IfOk result (λ backs. length backs.items ≡ length graph.now.nodes) }
    ensures backs { IfOk result (λ backs.
        HaveBacks graph.now (shift_at held.now) (back_in backs.items)) }
{
    let mut backs = Vec::with_capacity(alloc, graph.len())?;
    for n in 0..graph.len() {
        backs.push(back_of(held, n, graph.node(n)))?;
    }
    Ok(backs)
}

/// The shift that the right side of a node shifts back, where it does.
fn back_of(held: &HeldAssigns, n: usize, node: &Node) -> Option<Shift>
    requires lookup { IsLookup (length held.now.targets) (length held.now.held) held.now }
    requires there { n < length held.now.held }
    ensures { result ≡ back_of (shift_at held.now n) node.now }
{
    match node {
        Node::Assign(_, Rhs::Binary(op, Operand::Var(t), b), _) => {
            if is_right_shift(*op) {
                shift_by(shift_held(held.rhs_at(n, *t)), *b)
            } else {
                None
            }
        }
        _ => None,
    }
}
