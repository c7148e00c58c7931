// Right sides of a variable and a constant.
ghost use Rattle.std.specs.Prelude.{◌≡◌};
ghost use Rattle.mir_base.specs.Numbers.{wrapped};
ghost use Rattle.term_flow.specs.Terms.{left_read, read_binary, read_rhs, rhs_by, right_read, with_constant};

use mir_base::{Op, Operand, Rhs, UnOp, eval1};

/// A variable and a constant under an operator: `var op constant`, but for `Sub`, which takes the variable from the
/// constant.
#[derive(Clone, Copy, Debug, PartialEq, Eq)]
pub(crate) struct ByConstant {
    /// The operator.
    pub(crate) op: Op,
    /// The variable, by number.
    pub(crate) var: usize,
    /// The constant.
    pub(crate) constant: i64,
}

/// This variable and this constant under this operator.
pub(crate) fn with_constant(op: Op, var: usize, constant: i64) -> ByConstant
    ensures { result ≡ with_constant op var constant }
{
    ByConstant { op, var, constant }
}

/// The variable and the constant that a right side is made of, where it is: `-a` is `0 - a`, and `!a` is `a = 0`.
pub(crate) fn read_rhs(rhs: Rhs) -> Option<ByConstant>
    ensures { result ≡ read_rhs rhs }
{
    match rhs {
        Rhs::Plain(_) => None,
        Rhs::Unary(op, a) => match op {
            UnOp::Neg => read_binary(Op::Sub, Operand::Const(0), a),
            UnOp::Not => read_binary(Op::Eq, a, Operand::Const(0)),
        },
        Rhs::Binary(op, a, b) => read_binary(op, a, b),
    }
}

/// The same of an operator on two operands.
fn read_binary(op: Op, a: Operand, b: Operand) -> Option<ByConstant>
    ensures { result ≡ read_binary op a b }
{
    match a {
        Operand::Var(x) => match b {
            Operand::Var(_) => None,
            Operand::Const(c) => right_read(op, x, c),
        },
        Operand::Const(c) => match b {
            Operand::Var(x) => left_read(op, c, x),
            Operand::Const(_) => None,
        },
    }
}

/// The variable and then the constant. A difference is the sum with the negative.
fn right_read(op: Op, x: usize, c: i64) -> Option<ByConstant>
    ensures { result ≡ right_read op x (wrapped c) }
{
    match op {
        Op::Sub => Some(with_constant(Op::Add, x, eval1(UnOp::Neg, c))),
        Op::Add
        | Op::Mul
        | Op::Min
        | Op::Max
        | Op::Eq
        | Op::Ne
        | Op::Shl
        | Op::Shr
        | Op::Shra
        | Op::And
        | Op::Or
        | Op::Xor => Some(with_constant(op, x, c)),
        Op::Div | Op::Mod | Op::Lt | Op::Le | Op::Gt | Op::Ge => None,
    }
}

/// The constant and then the variable.
fn left_read(op: Op, c: i64, x: usize) -> Option<ByConstant>
    ensures { result ≡ left_read op (wrapped c) x }
{
    match op {
        Op::Add
        | Op::Sub
        | Op::Mul
        | Op::Min
        | Op::Max
        | Op::Eq
        | Op::Ne
        | Op::And
        | Op::Or
        | Op::Xor => Some(with_constant(op, x, c)),
        Op::Div | Op::Mod | Op::Lt | Op::Le | Op::Gt | Op::Ge | Op::Shl | Op::Shr | Op::Shra =>
            None,
    }
}

/// The right side of it: where it changes nothing, the variable alone.
pub(crate) fn rhs_by(term: ByConstant) -> Rhs
    ensures { result ≡ rhs_by term.op term.var term.constant }
{
    let var = Operand::Var(term.var);
    let constant = Operand::Const(term.constant);
    match term.op {
        Op::Add | Op::Xor => {
            if term.constant == 0 {
                Rhs::Plain(var)
            } else {
                Rhs::Binary(term.op, var, constant)
            }
        }
        Op::Sub => Rhs::Binary(Op::Sub, constant, var),
        _ => Rhs::Binary(term.op, var, constant),
    }
}
