// What a test asks of a variable, and the test that asks for a comparison.
ghost use Rattle.std.specs.Prelude.{◌≡◌};
ghost use Rattle.compare_flow.specs.Truths.{asked_in, asked_by_relation, asked_of, asked_of_zero, denied, is_comparison, relation_of, relation_test, truth_test};

use held_assign::Picks;
use mir_base::{Op, Operand, RelOp, Rhs, Test, UnOp};

// ---- what a test asks

/// What a test asks of one variable.
#[derive(Clone, Copy, Debug, PartialEq, Eq)]
pub(crate) struct Asked {
    /// The variable.
    pub(crate) var: usize,
    /// Whether the test holds where the variable is not 0; else it holds where it is.
    pub(crate) holds: bool,
}

/// Of which variable a test asks whether it is 0, where it asks that alone.
pub(crate) fn asked_in(test: Test) -> Option<Asked>
    ensures { result ≡ asked_in test }
{
    match test {
        Test::Rel(op, a, b) => asked_by_relation(op, a, b),
        Test::Holds(a) => asked_of(a, true),
        Test::Fails(a) => asked_of(a, false),
    }
}

/// The same of a relation, one side of which is then the constant 0.
fn asked_by_relation(op: RelOp, a: Operand, b: Operand) -> Option<Asked>
    ensures { result ≡ asked_by_relation op a b }
{
    match op {
        RelOp::Eq => asked_of_zero(a, b, false),
        RelOp::Ne => asked_of_zero(a, b, true),
        RelOp::Lt => None,
        RelOp::Le => None,
        RelOp::Gt => None,
        RelOp::Ge => None,
    }
}

/// The variable of the two, where the other one is the constant 0.
fn asked_of_zero(a: Operand, b: Operand, holds: bool) -> Option<Asked>
    ensures { result ≡ asked_of_zero a b holds }
{
    match a {
        Operand::Var(_) => match b {
            Operand::Var(_) => None,
            Operand::Const(c) => { if c == 0 { asked_of(a, holds) } else { None } }
        },
        Operand::Const(c) => { if c == 0 { asked_of(b, holds) } else { None } }
    }
}

/// An operand, where it is a variable.
fn asked_of(a: Operand, holds: bool) -> Option<Asked>
    ensures { result ≡ asked_of a holds }
{
    match a {
        Operand::Var(var) => Some(Asked { var, holds }),
        Operand::Const(_) => None,
    }
}

// ---- comparisons

/// The choice of the right sides that are comparisons.
pub(crate) struct PickComparisons;

impl Picks for PickComparisons {
    ghost picked = { λ picks v rhs. is_comparison rhs };

    fn picks(&self, _target: usize, rhs: Rhs) -> bool {
        is_comparison(rhs)
    }
}

/// Whether a right side is a comparison: a relation, or `!`.
fn is_comparison(rhs: Rhs) -> bool
    ensures { result ≡ is_comparison rhs }
{
    match truth_test(rhs, true) {
        Some(_) => true,
        None => false,
    }
}

/// The test that holds where a comparison gives 1, or where it gives 0; `None` for any other right side.
pub(crate) fn truth_test(rhs: Rhs, holds: bool) -> Option<Test>
    ensures { result ≡ truth_test rhs holds }
{
    match rhs {
        Rhs::Plain(_) => None,
        Rhs::Unary(op, a) => match op {
            UnOp::Neg => None,
            UnOp::Not => Some(if holds {
                Test::Fails(a)
            } else {
                Test::Holds(a)
            }),
        },
        Rhs::Binary(op, a, b) => match relation_of(op) {
            Some(relation) => Some(relation_test(relation, a, b, holds)),
            None => None,
        },
    }
}

/// The test for a relation, or for the one that denies it.
fn relation_test(relation: RelOp, a: Operand, b: Operand, holds: bool) -> Test
    ensures { result ≡ relation_test relation a b holds }
{
    if holds {
        Test::Rel(relation, a, b)
    } else {
        Test::Rel(denied(relation), a, b)
    }
}

/// The relation that an operator asks for, where it gives 1 or 0.
fn relation_of(op: Op) -> Option<RelOp>
    ensures { result ≡ relation_of op }
{
    match op {
        Op::Eq => Some(RelOp::Eq),
        Op::Ne => Some(RelOp::Ne),
        Op::Lt => Some(RelOp::Lt),
        Op::Le => Some(RelOp::Le),
        Op::Gt => Some(RelOp::Gt),
        Op::Ge => Some(RelOp::Ge),
        _ => None,
    }
}

/// The relation that holds exactly where this one does not.
fn denied(relation: RelOp) -> RelOp
    ensures { result ≡ denied relation }
{
    match relation {
        RelOp::Eq => RelOp::Ne,
        RelOp::Ne => RelOp::Eq,
        RelOp::Lt => RelOp::Ge,
        RelOp::Le => RelOp::Gt,
        RelOp::Gt => RelOp::Le,
        RelOp::Ge => RelOp::Lt,
    }
}
