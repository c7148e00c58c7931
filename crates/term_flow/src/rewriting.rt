// The nodes with operators with constants joined, and operands in order.
ghost use Rattle.std.specs.Prelude.{◌≡◌, ◌<◌, length};
ghost use Rattle.held_assign.specs.Rows.{IsLookup, held_at};
ghost use Rattle.term_flow.specs.Termed.{joined_rhs, termed_node};
ghost use Rattle.term_flow.specs.Terms.{joined_of, read_rhs};
ghost use Rattle.term_flow.specs.Meaning.{termed_does};
ghost use Rattle.term_flow.specs.Shapes.{termed_in_place, termed_reads};

use crate::joining::{PickTerms, joined_to};
use crate::ordering::in_order;
use crate::reading::read_rhs;
use flow_graph::Node;
use held_assign::{HeldAssigns, HeldPass};
use mir_base::{Memory, Rhs};
use std::alloc::Global;

impl HeldPass for PickTerms {
    ghost becomes = { termed_node };

    fn node(
        &self,
        _alloc: Global,
        held: &HeldAssigns,
        n: usize,
        node: &Node,
    ) -> Result<Node, Memory> {
        match node {
            Node::Assign(x, rhs, next) => Ok(Node::Assign(*x, joined_rhs(held, n, *rhs), *next)),
            _ => {
                let same = node.clone()?;
                Ok(same)
            }
        }
    }

    ghost in_place = { termed_in_place };

    ghost reads = { termed_reads };

    ghost does = { λ pass. termed_does };
}

/// What a right side becomes at node n, with its operands in order.
fn joined_rhs(held: &HeldAssigns, n: usize, rhs: Rhs) -> Rhs
    requires lookup { IsLookup (length held.now.targets) (length held.now.held) held.now }
    requires there { n < length held.now.held }
    ensures { result ≡ joined_rhs (held_at held.now n) rhs }
{
    match joined_of(held, n, rhs) {
        Some(joined) => in_order(joined),
        None => in_order(rhs),
    }
}

/// The right side that joins it to what its variable holds before node n, where there is one.
fn joined_of(held: &HeldAssigns, n: usize, rhs: Rhs) -> Option<Rhs>
    requires lookup { IsLookup (length held.now.targets) (length held.now.held) held.now }
    requires there { n < length held.now.held }
    ensures { result ≡ joined_of (held_at held.now n) (read_rhs rhs) }
{
    let term = read_rhs(rhs)?;
    let inner = held.rhs_at(n, term.var)?;
    joined_to(term, inner)
}
