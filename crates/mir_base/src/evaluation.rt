// The values of operators, and which right sides divide.
ghost use Rattle.std.specs.Prelude.{◌≡◌, ◌<◌, ◌↔◌, IfSome, IsSome, IsTrue, false};
ghost use Rattle.mir_base.specs.Expressions.{divides, expr_of, is_movable, may_be_zero, rhs_traps};
ghost use Rattle.mir_base.specs.Frames.{Values};
ghost use Rattle.mir_base.specs.Numbers.{distance, evaluation, is_dividing, relation_holds, value_of_un_op};

use crate::{Expr, Op, Operand, RelOp, Rhs, Trap, UnOp};

/// The value of an operator on two signed 64-bit numbers. The only refusal is `ZeroDivisor`, which comes exactly where
/// the operator is `Div` or `Mod` and `b` is 0. It does not allocate.
pub fn eval(op: Op, a: i64, b: i64) -> Result<i64, Trap>
    ensures { result ≡ evaluation op a b }
{
    match op {
        Op::Add => Ok(a.wrapping_add(b)),
        Op::Sub => Ok(a.wrapping_sub(b)),
        Op::Mul => Ok(a.wrapping_mul(b)),
        Op::Div => {
            if b == 0 {
                Err(Trap::ZeroDivisor)
            } else {
                Ok(a.wrapping_div(b))
            }
        }
        Op::Mod => {
            if b == 0 {
                Err(Trap::ZeroDivisor)
            } else {
                Ok(a.wrapping_rem(b))
            }
        }
        Op::Min => Ok(a.min(b)),
        Op::Max => Ok(a.max(b)),
        Op::Eq => Ok(relates(RelOp::Eq, a, b) as i64),
        Op::Ne => Ok(relates(RelOp::Ne, a, b) as i64),
        Op::Lt => Ok(relates(RelOp::Lt, a, b) as i64),
        Op::Le => Ok(relates(RelOp::Le, a, b) as i64),
        Op::Gt => Ok(relates(RelOp::Gt, a, b) as i64),
        Op::Ge => Ok(relates(RelOp::Ge, a, b) as i64),
        Op::Shl => Ok(a.wrapping_shl(distance(b))),
        Op::Shr => Ok(a.cast_unsigned().wrapping_shr(distance(b)).cast_signed()),
        Op::Shra => Ok(a.wrapping_shr(distance(b))),
        Op::And => Ok(a & b),
        Op::Or => Ok(a | b),
        Op::Xor => Ok(a ^ b),
    }
}

/// The value of an operator on one signed 64-bit number. It never traps, and does not allocate.
pub fn eval1(op: UnOp, a: i64) -> i64
    ensures { result ≡ value_of_un_op op a }
{
    match op {
        UnOp::Neg => a.wrapping_neg(),
        UnOp::Not => (a == 0) as i64,
    }
}

/// Whether the relation holds between the two numbers. It does not allocate.
pub fn relates(relation: RelOp, a: i64, b: i64) -> bool
    ensures { result ≡ relation_holds relation a b }
{
    match relation {
        RelOp::Eq => a == b,
        RelOp::Ne => a != b,
        RelOp::Lt => a < b,
        RelOp::Le => a <= b,
        RelOp::Gt => a > b,
        RelOp::Ge => a >= b,
    }
}

/// Whether the right side divides: its operator is `Div` or `Mod`, and its second operand is a variable or the constant
/// 0, so that its evaluation may trap. It does not allocate.
pub fn divides(rhs: &Rhs) -> bool
    ensures { result ≡ divides rhs.now }
{
    match rhs {
        Rhs::Plain(_) => false,
        Rhs::Unary(_, _) => false,
        Rhs::Binary(op, _, b) => is_dividing(*op) && may_be_zero(*b),
    }
}

/// The expression of a right side that is unary or binary and does not divide, and `None` exactly where it is plain or
/// divides. Its evaluation never traps. It does not allocate.
pub fn expr_of(rhs: &Rhs) -> Option<Expr>
    ensures value { result ≡ expr_of rhs.now }
    ensures movable { IsSome result ↔ IsTrue (is_movable rhs.now) }
    ensures never_traps { IfSome result (λ _.
        (values : Values) → rhs_traps values rhs.now ≡ false) }
{
    if divides(rhs) {
        return None;
    }
    match rhs {
        Rhs::Plain(_) => None,
        Rhs::Unary(op, a) => Some(Expr::Un(*op, *a)),
        Rhs::Binary(op, a, b) => Some(Expr::Bin(*op, *a, *b)),
    }
}

/// By how many bits a shift by this number moves: its remainder modulo 64, from 0 to 63.
fn distance(by: i64) -> u32
    ensures value { result ≡ distance by }
    ensures below { result < 64 }
{
    by.rem_euclid(64) as u32
}

/// Whether the operator is `Div` or `Mod`, so that a divisor of 0 traps.
fn is_dividing(op: Op) -> bool
    ensures { result ≡ is_dividing op }
{
    matches!(op, Op::Div | Op::Mod)
}

/// Whether the operand is a variable or the constant 0.
fn may_be_zero(divisor: Operand) -> bool
    ensures { result ≡ may_be_zero divisor }
{
    match divisor {
        Operand::Var(_) => true,
        Operand::Const(c) => c == 0,
    }
}
