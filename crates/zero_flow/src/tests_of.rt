// Tests as relations of two operands, and the facts along their edges.
ghost use Rattle.std.specs.Prelude.{◌≡◌};
ghost use Rattle.zero_flow.specs.Zeros.{comparison, zeros_along, zeros_go};

use crate::facts::ZeroFact;
use crate::pairs::{left_fact, may_relate, right_fact};
use crate::reading::{put_zero, zero_of};
use cond_flow::Facts;
use mir_base::{Operand, RelOp, Test};

/// Whether a test may have this truth value.
pub(crate) fn may_go(facts: &Facts<ZeroFact>, test: Test, truth: bool) -> bool
    ensures { result ≡ zeros_go test truth facts.now }
{
    let x = zero_of(facts, left_of(test));
    let y = zero_of(facts, right_of(test));
    may_relate(relation_of(test), truth, x, y)
}

/// Leaves the facts where a test has this truth value: those of both operands are narrowed.
pub(crate) fn narrow(facts: &mut Facts<ZeroFact>, test: Test, truth: bool)
    ensures { facts.new ≡ zeros_along test truth facts.old }
{
    let op = relation_of(test);
    let a = left_of(test);
    let b = right_of(test);
    let x = zero_of(facts, a);
    let y = zero_of(facts, b);
    put_zero(facts, b, right_fact(op, truth, x, y));
    put_zero(facts, a, left_fact(op, truth, x, y));
}

/// The relation that a test asks for.
fn relation_of(test: Test) -> RelOp
    ensures { result ≡ (comparison test).op }
{
    match test {
        Test::Rel(op, _, _) => op,
        Test::Holds(_) => RelOp::Ne,
        Test::Fails(_) => RelOp::Eq,
    }
}

/// The first operand of a test.
fn left_of(test: Test) -> Operand
    ensures { result ≡ (comparison test).left }
{
    match test {
        Test::Rel(_, a, _) => a,
        Test::Holds(a) => a,
        Test::Fails(a) => a,
    }
}

/// The second operand of a test; a number holds where it is not 0.
fn right_of(test: Test) -> Operand
    ensures { result ≡ (comparison test).right }
{
    match test {
        Test::Rel(_, _, b) => b,
        Test::Holds(_) => Operand::Const(0),
        Test::Fails(_) => Operand::Const(0),
    }
}
