// Tests as relations of two operands, and the facts along their edges.
ghost use Rattle.std.specs.Prelude.{◌≡◌};
ghost use Rattle.bounds.specs.Edges.{comparison, facts_along, may_go, where_is};
ghost use Rattle.bounds.specs.Narrowing.{denied, turned};

use crate::facts::Fact;
use crate::reading::{fact_of, put_fact};
use crate::rules::{may_hold, narrowed};
use cond_flow::Facts;
use mir_base::{Operand, RelOp, Test};

/// Whether a test may have this truth value.
pub(crate) fn may_go(facts: &Facts<Fact>, test: Test, truth: bool) -> bool
    ensures { result ≡ may_go test truth facts.now }
{
    let op = relation_of(test, truth);
    let x = fact_of(facts, left_of(test));
    let y = fact_of(facts, right_of(test));
    may_hold(op, x, y)
}

/// Leaves the facts where a test has this truth value: those of both operands are narrowed.
pub(crate) fn narrow(facts: &mut Facts<Fact>, test: Test, truth: bool)
    ensures { facts.new ≡ facts_along test truth facts.old }
{
    let op = relation_of(test, truth);
    let a = left_of(test);
    let b = right_of(test);
    let x = fact_of(facts, a);
    let y = fact_of(facts, b);
    let left = narrowed(op, x, y);
    let right = narrowed(turned(op), y, x);
    put_fact(facts, b, right);
    put_fact(facts, a, left);
}

/// The relation that holds where a test has this truth value.
fn relation_of(test: Test, truth: bool) -> RelOp
    ensures { result ≡ (where_is truth (comparison test)).op }
{
    let op = match test {
        Test::Rel(op, _, _) => op,
        Test::Holds(_) => RelOp::Ne,
        Test::Fails(_) => RelOp::Eq,
    };
    if truth { op } else { denied(op) }
}

/// The first operand of a test.
fn left_of(test: Test) -> Operand
    ensures { result ≡ (comparison test).left }
{
    match test {
        Test::Rel(_, a, _) => a,
        Test::Holds(a) => a,
        Test::Fails(a) => a,
    }
}

/// The second operand of a test; a number holds where it is not 0.
fn right_of(test: Test) -> Operand
    ensures { result ≡ (comparison test).right }
{
    match test {
        Test::Rel(_, _, b) => b,
        Test::Holds(_) => Operand::Const(0),
        Test::Fails(_) => Operand::Const(0),
    }
}

/// The relation that holds where this one does not.
fn denied(op: RelOp) -> RelOp
    ensures { result ≡ denied op }
{
    match op {
        RelOp::Eq => RelOp::Ne,
        RelOp::Ne => RelOp::Eq,
        RelOp::Lt => RelOp::Ge,
        RelOp::Le => RelOp::Gt,
        RelOp::Gt => RelOp::Le,
        RelOp::Ge => RelOp::Lt,
    }
}

/// The relation of the second to the first.
fn turned(op: RelOp) -> RelOp
    ensures { result ≡ turned op }
{
    match op {
        RelOp::Eq => RelOp::Eq,
        RelOp::Ne => RelOp::Ne,
        RelOp::Lt => RelOp::Gt,
        RelOp::Le => RelOp::Ge,
        RelOp::Gt => RelOp::Lt,
        RelOp::Ge => RelOp::Le,
    }
}
