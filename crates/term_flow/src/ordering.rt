// Operands in one order, where the order makes no difference.
ghost use Rattle.std.specs.Prelude.{◌≡◌};
ghost use Rattle.term_flow.specs.Orders.{commutes, in_order, is_turned};

use mir_base::{Op, Operand, Rhs};

/// The right side with a variable left of a constant, and of two variables the one of the lower number left, where its
/// operator gives the same so.
pub(crate) fn in_order(rhs: Rhs) -> Rhs
    ensures { result ≡ in_order rhs }
{
    match rhs {
        Rhs::Binary(op, a, b) => {
            if commutes(op) && is_turned(a, b) {
                Rhs::Binary(op, b, a)
            } else {
                rhs
            }
        }
        _ => rhs,
    }
}

/// Whether the operator gives the same with its operands turned.
fn commutes(op: Op) -> bool
    ensures { result ≡ commutes op }
{
    match op {
        Op::Add | Op::Mul | Op::Min | Op::Max | Op::Eq | Op::Ne | Op::And | Op::Or | Op::Xor =>
            true,
        _ => false,
    }
}

/// Whether the second operand stands before the first in the order.
fn is_turned(a: Operand, b: Operand) -> bool
    ensures { result ≡ is_turned a b }
{
    match a {
        Operand::Var(x) => match b {
            Operand::Var(y) => y < x,
            Operand::Const(_) => false,
        },
        Operand::Const(_) => match b {
            Operand::Var(_) => true,
            Operand::Const(_) => false,
        },
    }
}
