// The facts of results, and whether relations may hold, by whether each operand is 0.
ghost use Rattle.std.specs.Prelude.{◌≡◌};
ghost use Rattle.zero_flow.specs.Pairs.{any_of, by_zeros, divided, left_fact, may_relate, not_both, op_pair, over, relation_pair, right_fact, same_zeros, shifted, un_pair, where_allowed, zeros_of, zeros_of_un};

use crate::facts::{ZeroFact, allows, fact_where, joined_zero_fact};
use mir_base::{Op, RelOp, UnOp};

// ---- two numbers, of each of which it is known whether it is 0

/// The fact of an operator's value.
fn op_pair(op: Op, left: bool, right: bool) -> ZeroFact
    ensures { result ≡ op_pair op left right }
{
    let zero = ZeroFact::Zero;
    let not_zero = ZeroFact::NotZero;
    let any = ZeroFact::Any;
    match op {
        Op::Add | Op::Sub | Op::Xor | Op::Ne => by_zeros(left, right, zero, not_zero, any),
        Op::Mul | Op::And => by_zeros(left, right, zero, zero, any),
        Op::Div | Op::Mod => divided(left, right),
        Op::Min | Op::Max => by_zeros(left, right, zero, any, not_zero),
        Op::Eq => by_zeros(left, right, not_zero, zero, any),
        Op::Lt | Op::Gt => by_zeros(left, right, zero, any, any),
        Op::Le | Op::Ge => by_zeros(left, right, not_zero, any, any),
        Op::Shl | Op::Shr | Op::Shra => shifted(left),
        Op::Or => by_zeros(left, right, zero, not_zero, not_zero),
    }
}

/// One of three facts: where both numbers are 0, where one of them is, and where neither is.
fn by_zeros(left: bool, right: bool, both: ZeroFact, one: ZeroFact, neither: ZeroFact) -> ZeroFact
    ensures { result ≡ by_zeros both one neither left right }
{
    if left {
        if right { both } else { one }
    } else if right {
        one
    } else {
        neither
    }
}

/// The fact of a quotient or a remainder: there is none where the divisor is 0, since it traps.
fn divided(left: bool, right: bool) -> ZeroFact
    ensures { result ≡ divided left right }
{
    if right {
        ZeroFact::Never
    } else if left {
        ZeroFact::Zero
    } else {
        ZeroFact::Any
    }
}

/// The fact of what is shifted.
fn shifted(left: bool) -> ZeroFact
    ensures { result ≡ shifted left }
{
    if left { ZeroFact::Zero } else { ZeroFact::Any }
}

/// The fact of the value of an operator on one number.
fn un_pair(op: UnOp, nought: bool) -> ZeroFact
    ensures { result ≡ un_pair op nought }
{
    match op {
        UnOp::Neg => if nought {
            ZeroFact::Zero
        } else {
            ZeroFact::NotZero
        },
        UnOp::Not => if nought {
            ZeroFact::NotZero
        } else {
            ZeroFact::Zero
        },
    }
}

/// Whether a relation may have this truth value.
fn relation_pair(op: RelOp, truth: bool, left: bool, right: bool) -> bool
    ensures { result ≡ relation_pair op truth left right }
{
    match op {
        RelOp::Eq => if truth {
            same_zeros(left, right)
        } else {
            not_both(left, right)
        },
        RelOp::Ne => if truth {
            not_both(left, right)
        } else {
            same_zeros(left, right)
        },
        RelOp::Lt | RelOp::Gt => if truth { not_both(left, right) } else { true },
        RelOp::Le | RelOp::Ge => if truth { true } else { not_both(left, right) },
    }
}

/// Whether both numbers are 0, or neither is.
fn same_zeros(left: bool, right: bool) -> bool
    ensures { result ≡ same_zeros left right }
{
    if left { right } else { !right }
}

/// Whether not both are.
fn not_both(left: bool, right: bool) -> bool
    ensures { result ≡ not_both left right }
{
    !(left && right)
}

// ---- two facts

/// The fact of an operator's value.
pub(crate) fn zeros_of(op: Op, x: ZeroFact, y: ZeroFact) -> ZeroFact
    ensures { result ≡ zeros_of op x y }
{
    let at_zero = over(y, op_pair(op, true, true), op_pair(op, true, false));
    let elsewhere = over(y, op_pair(op, false, true), op_pair(op, false, false));
    over(x, at_zero, elsewhere)
}

/// The fact of the value of an operator on one number.
pub(crate) fn zeros_of_un(op: UnOp, x: ZeroFact) -> ZeroFact
    ensures { result ≡ zeros_of_un op x }
{
    over(x, un_pair(op, true), un_pair(op, false))
}

/// What is known of a result, by what is known of it where the number is 0 and where it is not.
fn over(x: ZeroFact, at_zero: ZeroFact, elsewhere: ZeroFact) -> ZeroFact
    ensures { result ≡ over x at_zero elsewhere }
{
    joined_zero_fact(
        where_allowed(allows(x, true), at_zero),
        where_allowed(allows(x, false), elsewhere),
    )
}

/// The fact, where it is allowed at all.
fn where_allowed(allowed: bool, fact: ZeroFact) -> ZeroFact
    ensures { result ≡ where_allowed allowed fact }
{
    if allowed { fact } else { ZeroFact::Never }
}

/// Whether the answer is yes for some number that the fact allows: `at_zero` is the answer at 0, `elsewhere` at every
/// other number.
fn any_of(x: ZeroFact, at_zero: bool, elsewhere: bool) -> bool
    ensures { result ≡ any_of x at_zero elsewhere }
{
    (allows(x, true) && at_zero) || (allows(x, false) && elsewhere)
}

/// Whether a relation may have this truth value.
pub(crate) fn may_relate(op: RelOp, truth: bool, x: ZeroFact, y: ZeroFact) -> bool
    ensures { result ≡ may_relate op truth x y }
{
    let at_zero = any_of(
        y,
        relation_pair(op, truth, true, true),
        relation_pair(op, truth, true, false),
    );
    let elsewhere = any_of(
        y,
        relation_pair(op, truth, false, true),
        relation_pair(op, truth, false, false),
    );
    any_of(x, at_zero, elsewhere)
}

/// The fact of the first operand where a relation has this truth value.
pub(crate) fn left_fact(op: RelOp, truth: bool, x: ZeroFact, y: ZeroFact) -> ZeroFact
    ensures { result ≡ left_fact op truth x y }
{
    let at_zero = any_of(
        y,
        relation_pair(op, truth, true, true),
        relation_pair(op, truth, true, false),
    );
    let elsewhere = any_of(
        y,
        relation_pair(op, truth, false, true),
        relation_pair(op, truth, false, false),
    );
    fact_where(allows(x, true) && at_zero, allows(x, false) && elsewhere)
}

/// The fact of the second operand there.
pub(crate) fn right_fact(op: RelOp, truth: bool, x: ZeroFact, y: ZeroFact) -> ZeroFact
    ensures { result ≡ right_fact op truth x y }
{
    let at_zero = any_of(
        x,
        relation_pair(op, truth, true, true),
        relation_pair(op, truth, false, true),
    );
    let elsewhere = any_of(
        x,
        relation_pair(op, truth, true, false),
        relation_pair(op, truth, false, false),
    );
    fact_where(allows(y, true) && at_zero, allows(y, false) && elsewhere)
}
