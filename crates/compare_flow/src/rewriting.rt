// The nodes with comparisons in tests.
ghost use Rattle.std.specs.Prelude.{◌≡◌, ◌<◌, length};
ghost use Rattle.held_assign.specs.Rows.{IsLookup, held_at};
ghost use Rattle.compare_flow.specs.Compared.{compared_node, compared_test, truth_of};
ghost use Rattle.compare_flow.specs.Meaning.{compared_does};
ghost use Rattle.compare_flow.specs.Shapes.{compared_in_place, compared_reads};
ghost use Rattle.compare_flow.specs.Truths.{asked_in};

use crate::truths::{PickComparisons, asked_in, truth_test};
use flow_graph::Node;
use held_assign::{HeldAssigns, HeldPass};
use mir_base::{Memory, Test};
use std::alloc::Global;

impl HeldPass for PickComparisons {
    ghost becomes = { compared_node };

    fn node(
        &self,
        _alloc: Global,
        held: &HeldAssigns,
        n: usize,
        node: &Node,
    ) -> Result<Node, Memory> {
        match node {
            Node::Guard(test, number, next) => {
                Ok(Node::Guard(compared_test(held, n, *test), *number, *next))
            }
            Node::Test(test, taken, other) => {
                Ok(Node::Test(compared_test(held, n, *test), *taken, *other))
            }
            _ => {
                let same = node.clone()?;
                Ok(same)
            }
        }
    }

    ghost in_place = { compared_in_place };

    ghost reads = { compared_reads };

    ghost does = { λ pass. compared_does };
}

/// What a test becomes at node n.
fn compared_test(held: &HeldAssigns, n: usize, test: Test) -> Test
    requires lookup { IsLookup (length held.now.targets) (length held.now.held) held.now }
    requires there { n < length held.now.held }
    ensures { result ≡ compared_test (held_at held.now n) test }
{
    match truth_of(held, n, test) {
        Some(comparison) => comparison,
        None => test,
    }
}

/// The test for the comparison of the variable that a test asks for, where the variable holds one before node n.
fn truth_of(held: &HeldAssigns, n: usize, test: Test) -> Option<Test>
    requires lookup { IsLookup (length held.now.targets) (length held.now.held) held.now }
    requires there { n < length held.now.held }
    ensures { result ≡ truth_of (held_at held.now n) (asked_in test) }
{
    let asked = asked_in(test)?;
    let rhs = held.rhs_at(n, asked.var)?;
    truth_test(rhs, asked.holds)
}
