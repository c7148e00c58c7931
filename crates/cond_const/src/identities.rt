// The identities, as tables: what an operator gives whatever the value of its variable is.
ghost use Rattle.std.specs.Prelude.{◌≡◌, ℤ, FitsSigned};
ghost use Rattle.mir_base.specs.declared.operators.Op.{Op};
ghost use Rattle.cond_const.specs.Identities.{IsIdentity, identity_left, identity_right, identity_same, shifts_nowhere, where_clear_or_set, where_equal};
ghost use mir.Syntax.{w64};

use mir_base::Op;

/// Has no effect; carries the theorem that each identity of the tables holds for all signed 64-bit numbers, without a
/// trap.
pub fn identities_hold()
    ensures same { (op : Op) (a : ℤ) → FitsSigned w64 a → IsIdentity (identity_same op) a op a a }
    ensures right { (op : Op) (a c : ℤ) → FitsSigned w64 a → FitsSigned w64 c
        → IsIdentity (identity_right op c) a op a c }
    ensures left { (op : Op) (a c : ℤ) → FitsSigned w64 a → FitsSigned w64 c
        → IsIdentity (identity_left op c) a op c a }
{}

/// What is said of an operator on a variable and itself, or on a variable and a constant.
#[derive(Clone, Copy, Debug, PartialEq, Eq)]
pub enum Identity {
    /// No identity applies.
    Absent,
    /// It gives the value of the variable.
    Itself,
    /// It gives this number.
    Always(i64),
}

/// The identity of an operator on a variable and itself.
pub(crate) fn identity_same(op: Op) -> Identity
    ensures { result ≡ identity_same op }
{
    match op {
        Op::Sub => Identity::Always(0),
        Op::Min => Identity::Itself,
        Op::Max => Identity::Itself,
        Op::Eq => Identity::Always(1),
        Op::Ne => Identity::Always(0),
        Op::Lt => Identity::Always(0),
        Op::Le => Identity::Always(1),
        Op::Gt => Identity::Always(0),
        Op::Ge => Identity::Always(1),
        Op::And => Identity::Itself,
        Op::Or => Identity::Itself,
        Op::Xor => Identity::Always(0),
        Op::Add | Op::Mul | Op::Div | Op::Mod | Op::Shl | Op::Shr | Op::Shra => Identity::Absent,
    }
}

/// The identity of an operator on a variable and then a constant.
pub(crate) fn identity_right(op: Op, c: i64) -> Identity
    ensures { result ≡ identity_right op c }
{
    match op {
        Op::Add | Op::Sub | Op::Xor => where_equal(c, 0, Identity::Itself, Identity::Absent),
        Op::Mul => {
            let one = where_equal(c, 1, Identity::Itself, Identity::Absent);
            where_equal(c, 0, Identity::Always(0), one)
        }
        Op::Div => where_equal(c, 1, Identity::Itself, Identity::Absent),
        Op::Mod => {
            let minus_one = where_equal(c, -1, Identity::Always(0), Identity::Absent);
            where_equal(c, 1, Identity::Always(0), minus_one)
        }
        Op::Shl | Op::Shr | Op::Shra => {
            if shifts_nowhere(c) {
                Identity::Itself
            } else {
                Identity::Absent
            }
        }
        Op::And => where_clear_or_set(c, Identity::Always(0), Identity::Itself),
        Op::Or => where_clear_or_set(c, Identity::Itself, Identity::Always(-1)),
        Op::Min | Op::Max | Op::Eq | Op::Ne | Op::Lt | Op::Le | Op::Gt | Op::Ge => Identity::Absent,
    }
}

/// The identity of an operator on a constant and then a variable.
pub(crate) fn identity_left(op: Op, c: i64) -> Identity
    ensures { result ≡ identity_left op c }
{
    match op {
        Op::Add | Op::Xor => where_equal(c, 0, Identity::Itself, Identity::Absent),
        Op::Mul => {
            let one = where_equal(c, 1, Identity::Itself, Identity::Absent);
            where_equal(c, 0, Identity::Always(0), one)
        }
        Op::Shl | Op::Shr | Op::Shra => where_equal(c, 0, Identity::Always(0), Identity::Absent),
        Op::And => where_clear_or_set(c, Identity::Always(0), Identity::Itself),
        Op::Or => where_clear_or_set(c, Identity::Itself, Identity::Always(-1)),
        Op::Sub
        | Op::Div
        | Op::Mod
        | Op::Min
        | Op::Max
        | Op::Eq
        | Op::Ne
        | Op::Lt
        | Op::Le
        | Op::Gt
        | Op::Ge => Identity::Absent,
    }
}

/// One of two identities: the first where the constant is this number.
fn where_equal(c: i64, number: i64, there: Identity, elsewhere: Identity) -> Identity
    ensures { result ≡ where_equal c number there elsewhere }
{
    if c == number { there } else { elsewhere }
}

/// One of two identities: the first where no bit of the constant is set, and the second where all are.
fn where_clear_or_set(c: i64, clear: Identity, set: Identity) -> Identity
    ensures { result ≡ where_clear_or_set c clear set }
{
    let set = where_equal(c, -1, set, Identity::Absent);
    where_equal(c, 0, clear, set)
}

/// Whether a shift by this number leaves a number as it is: whether it is a multiple of 64.
fn shifts_nowhere(by: i64) -> bool
    ensures { result ≡ shifts_nowhere by }
{
    by.rem_euclid(64) == 0
}
