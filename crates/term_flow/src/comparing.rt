// Comparisons that are compared with a constant.
ghost use Rattle.std.specs.Prelude.{◌≡◌};
ghost use Rattle.term_flow.specs.Terms.{comparison, denied_op, denied_rhs, of_one, of_other, of_truth, of_zero, settled};

use mir_base::{Op, Operand, Rhs, UnOp};

/// The operator with the constant on what a comparison gives, which is 0 or 1.
pub(crate) fn of_truth(op: Op, c: i64, held: Rhs) -> Option<Rhs>
    ensures { result ≡ of_truth op c held }
{
    if c == 0 {
        of_zero(op, held)
    } else if c == 1 {
        of_one(op, held)
    } else {
        of_other(op, held)
    }
}

/// A comparison that is compared with 0.
fn of_zero(op: Op, held: Rhs) -> Option<Rhs>
    ensures { result ≡ of_zero op held }
{
    match op {
        Op::Eq => denied_rhs(held),
        Op::Ne => comparison(held),
        _ => None,
    }
}

/// A comparison that is compared with 1.
fn of_one(op: Op, held: Rhs) -> Option<Rhs>
    ensures { result ≡ of_one op held }
{
    match op {
        Op::Eq => comparison(held),
        Op::Ne => denied_rhs(held),
        _ => None,
    }
}

/// A comparison that is compared with a number that it never gives.
fn of_other(op: Op, held: Rhs) -> Option<Rhs>
    ensures { result ≡ of_other op held }
{
    match op {
        Op::Eq => settled(0, held),
        Op::Ne => settled(1, held),
        _ => None,
    }
}

/// The constant, where the right side is a comparison.
fn settled(c: i64, rhs: Rhs) -> Option<Rhs>
    ensures { result ≡ settled c rhs }
{
    match denied_rhs(rhs) {
        Some(_) => Some(Rhs::Plain(Operand::Const(c))),
        None => None,
    }
}

/// The right side, where it is a comparison.
fn comparison(rhs: Rhs) -> Option<Rhs>
    ensures { result ≡ comparison rhs }
{
    match denied_rhs(rhs) {
        Some(_) => Some(rhs),
        None => None,
    }
}

/// The right side that gives 1 where a comparison, a relation or `!`, gives 0; `None` for any other right side.
pub(crate) fn denied_rhs(rhs: Rhs) -> Option<Rhs>
    ensures { result ≡ denied_rhs rhs }
{
    match rhs {
        Rhs::Plain(_) => None,
        Rhs::Unary(op, a) => match op {
            UnOp::Neg => None,
            UnOp::Not => Some(Rhs::Binary(Op::Ne, a, Operand::Const(0))),
        },
        Rhs::Binary(op, a, b) => match denied_op(op) {
            Some(denied) => Some(Rhs::Binary(denied, a, b)),
            None => None,
        },
    }
}

/// The operator that gives 1 where a comparison gives 0.
fn denied_op(op: Op) -> Option<Op>
    ensures { result ≡ denied_op op }
{
    match op {
        Op::Eq => Some(Op::Ne),
        Op::Ne => Some(Op::Eq),
        Op::Lt => Some(Op::Ge),
        Op::Le => Some(Op::Gt),
        Op::Gt => Some(Op::Le),
        Op::Ge => Some(Op::Lt),
        _ => None,
    }
}
