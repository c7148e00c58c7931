// Values of operators.
use mir_base::{Op, Operand, Rhs, Trap, UnOp, divides, eval, eval1};

/// Values at the ends of the range, and what divides.
#[test]
fn evaluates(rt: HostRuntime) {
    for (op, a, b, value) in VALUES.iter() {
        assert!(rt; eval(*op, *a, *b) == Ok(*value), "{op:?} of {a} and {b}");
    }
    assert!(rt; eval(Op::Mod, 1, 0) == Err(Trap::ZeroDivisor));
    assert!(rt; eval1(UnOp::Neg, i64::MIN) == i64::MIN);
    assert!(rt; eval1(UnOp::Not, 0) == 1);
    assert!(rt; divides(&Rhs::Binary(Op::Div, Operand::Var(0), Operand::Const(0))));
}

/// Operators, their operands and their values.
const VALUES: [(Op, i64, i64, i64); 14] = [
    (Op::Add, i64::MAX, 1, i64::MIN),
    (Op::Mul, i64::MIN, -1, i64::MIN),
    (Op::Div, -7, 2, -3),
    (Op::Div, i64::MIN, -1, i64::MIN),
    (Op::Mod, -7, 2, -1),
    (Op::Mod, 7, -2, 1),
    (Op::Mod, i64::MIN, -1, 0),
    (Op::Min, -1, 1, -1),
    (Op::Le, 3, 3, 1),
    (Op::Shl, 3, 63, i64::MIN),
    (Op::Shl, 3, 64, 3),
    (Op::Shr, -1, -1, 1),
    (Op::Shra, -5, 1, -3),
    (Op::Xor, -1, 1, -2),
];
