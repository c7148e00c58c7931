// The operators of the language, and how each is spelled.
ghost use Rattle.std.specs.Prelude.{◌≡◌};
ghost use Rattle.mir_base.specs.Operators.{op_of_relation, op_text, rel_op_text, un_op_text};

/// An operator on two numbers. All numbers are signed and have 64 bits.
#[derive(Clone, Copy, Debug, PartialEq, Eq, Hash)]
pub enum Op {
    /// The sum, wrapped to 64 bits.
    Add,
    /// The difference, wrapped to 64 bits.
    Sub,
    /// The product, wrapped to 64 bits.
    Mul,
    /// The quotient, truncated toward zero. A divisor of 0 traps; the least number by -1 gives the least number.
    Div,
    /// The remainder of that division, with the sign of the dividend. A divisor of 0 traps.
    Mod,
    /// The lesser of the two.
    Min,
    /// The greater of the two.
    Max,
    /// 1 where the two are equal, else 0.
    Eq,
    /// 1 where the two differ, else 0.
    Ne,
    /// 1 where the first is below the second, else 0.
    Lt,
    /// 1 where the first is at most the second, else 0.
    Le,
    /// 1 where the first is above the second, else 0.
    Gt,
    /// 1 where the first is at least the second, else 0.
    Ge,
    /// The first times 2 to the power k, wrapped, where k is the remainder of the second modulo 64, from 0 to 63.
    Shl,
    /// The first, read without a sign, divided by 2 to the power k, rounding down, with k as in `Shl`.
    Shr,
    /// The first divided by 2 to the power k, rounding down, with k as in `Shl`.
    Shra,
    /// Bit by bit, 1 where both are 1.
    And,
    /// Bit by bit, 1 where one of them is 1.
    Or,
    /// Bit by bit, 1 where the two differ.
    Xor,
}

/// An operator on one number.
#[derive(Clone, Copy, Debug, PartialEq, Eq, Hash)]
pub enum UnOp {
    /// 0 minus the number, wrapped to 64 bits.
    Neg,
    /// 1 where the number is 0, else 0.
    Not,
}

/// A relation that a test asks for: it holds where the operator of the same name gives 1.
#[derive(Clone, Copy, Debug, PartialEq, Eq, Hash)]
pub enum RelOp {
    /// The two are equal.
    Eq,
    /// The two differ.
    Ne,
    /// The first is below the second.
    Lt,
    /// The first is at most the second.
    Le,
    /// The first is above the second.
    Gt,
    /// The first is at least the second.
    Ge,
}

/// Why a run stopped before its end.
#[derive(Clone, Copy, Debug, PartialEq, Eq)]
pub enum Trap {
    /// The divisor of a division was 0.
    ZeroDivisor,
    /// A trap instruction raised this number.
    Raised(u8),
}

/// The bytes that an operator on two numbers is spelled with. It does not allocate.
pub fn op_text(op: Op) -> &'static [u8]
    ensures { result.now ≡ op_text op }
{
    match op {
        Op::Add => b"+",
        Op::Sub => b"-",
        Op::Mul => b"*",
        Op::Div => b"/",
        Op::Mod => b"mod",
        Op::Min => b"min",
        Op::Max => b"max",
        Op::Eq => b"=",
        Op::Ne => b"!=",
        Op::Lt => b"<",
        Op::Le => b"<=",
        Op::Gt => b">",
        Op::Ge => b">=",
        Op::Shl => b"shl",
        Op::Shr => b"shr",
        Op::Shra => b"shra",
        Op::And => b"and",
        Op::Or => b"or",
        Op::Xor => b"xor",
    }
}

/// The bytes that an operator on one number is spelled with. It does not allocate.
pub fn un_op_text(op: UnOp) -> &'static [u8]
    ensures { result.now ≡ un_op_text op }
{
    match op {
        UnOp::Neg => b"-",
        UnOp::Not => b"!",
    }
}

/// The bytes that a relation is spelled with: those of its operator. It does not allocate.
pub fn rel_op_text(relation: RelOp) -> &'static [u8]
    ensures { result.now ≡ rel_op_text relation }
{
    op_text(op_of_relation(relation))
}

/// The operator that gives 1 where the relation holds, else 0. It does not allocate.
pub fn op_of_relation(relation: RelOp) -> Op
    ensures { result ≡ op_of_relation relation }
{
    match relation {
        RelOp::Eq => Op::Eq,
        RelOp::Ne => Op::Ne,
        RelOp::Lt => Op::Lt,
        RelOp::Le => Op::Le,
        RelOp::Gt => Op::Gt,
        RelOp::Ge => Op::Ge,
    }
}
