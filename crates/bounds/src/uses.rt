// What operands and right sides become by the facts of the variables.
ghost use Rattle.std.specs.Prelude.{◌≡◌};
ghost use Rattle.mir_base.specs.Numbers.{is_dividing};
ghost use Rattle.bounds.specs.BoundRules.{bounded_binary, bounded_operand, bounded_rhs, copied, gives_first, gives_second, has_ones, has_zero, is_number, is_truth, is_zero, number_of, number_or};

use crate::ends::end_value;
use crate::facts::Fact;
use crate::reading::{fact_at, fact_of, fact_of_rhs};
use crate::rules::bounds_of;
use crate::spans::span_of;
use cond_flow::Facts;
use mir_base::{Op, Operand, Rhs};

/// The operand, or the number that its variable is known to be.
pub(crate) fn bounded_operand(facts: &Facts<Fact>, a: Operand) -> Operand
    ensures { result ≡ bounded_operand facts.now a }
{
    match a {
        Operand::Var(x) => number_or(fact_at(facts, x), x),
        Operand::Const(c) => Operand::Const(c),
    }
}

/// The variable, or the number that it is known to be.
fn number_or(fact: Fact, x: usize) -> Operand
    ensures { result ≡ number_or fact x }
{
    match fact {
        Fact::Never => Operand::Var(x),
        Fact::Fixed(c) => Operand::Const(c),
        Fact::Between(_, _) => Operand::Var(x),
    }
}

/// What a right side becomes: its number, or a copy of an operand, and else its operands are replaced.
pub(crate) fn bounded_rhs(facts: &Facts<Fact>, rhs: Rhs) -> Rhs
    ensures { result ≡ bounded_rhs facts.now rhs }
{
    match rhs {
        Rhs::Plain(a) => Rhs::Plain(bounded_operand(facts, a)),
        Rhs::Unary(op, a) => {
            let fact = fact_of_rhs(facts, rhs);
            number_of(fact, Rhs::Unary(op, bounded_operand(facts, a)))
        }
        Rhs::Binary(op, a, b) => {
            let left = bounded_operand(facts, a);
            let right = bounded_operand(facts, b);
            let fact = fact_of_rhs(facts, rhs);
            bounded_binary(op, left, right, fact_of(facts, a), fact_of(facts, b), fact)
        }
    }
}

/// The same of an operator on two operands of which the first facts hold, and of whose result the last; a division stays
/// whose divisor may be 0.
fn bounded_binary(op: Op, a: Operand, b: Operand, x: Fact, y: Fact, result_fact: Fact) -> Rhs
    ensures { result ≡ bounded_binary op a b x y result_fact }
{
    if divides(op) && has_zero(y) {
        Rhs::Binary(op, a, b)
    } else {
        number_of(result_fact, copied(op, a, b, x, y))
    }
}

/// Whether the operator divides.
fn divides(op: Op) -> bool
    ensures { result ≡ is_dividing op }
{
    match op {
        Op::Div => true,
        Op::Mod => true,
        _ => false,
    }
}

/// The number that a right side is known to be, in the place of the right side.
fn number_of(fact: Fact, rhs: Rhs) -> Rhs
    ensures { result ≡ number_of fact rhs }
{
    match fact {
        Fact::Never => rhs,
        Fact::Fixed(c) => Rhs::Plain(Operand::Const(c)),
        Fact::Between(_, _) => rhs,
    }
}

/// A copy of the operand that the operator gives, or the operator on both.
fn copied(op: Op, a: Operand, b: Operand, x: Fact, y: Fact) -> Rhs
    ensures { result ≡ copied op a b x y }
{
    if gives_first(op, x, y) {
        Rhs::Plain(a)
    } else if gives_second(op, x, y) {
        Rhs::Plain(b)
    } else {
        Rhs::Binary(op, a, b)
    }
}

/// Whether the operator gives its first operand.
fn gives_first(op: Op, x: Fact, y: Fact) -> bool
    ensures { result ≡ gives_first op x y }
{
    match op {
        Op::Mod => 0 <= span_of(x).low && span_of(x).high < span_of(y).low,
        Op::Min => span_of(x).high <= span_of(y).low,
        Op::Max => span_of(y).high <= span_of(x).low,
        Op::And => has_ones(x, y),
        Op::Or => is_zero(y),
        Op::Ne => is_truth(x) && is_zero(y),
        Op::Add | Op::Sub | Op::Mul | Op::Div | Op::Eq | Op::Lt | Op::Le | Op::Gt | Op::Ge => false,
        Op::Shl | Op::Shr | Op::Shra | Op::Xor => false,
    }
}

/// Whether the operator gives its second operand.
fn gives_second(op: Op, x: Fact, y: Fact) -> bool
    ensures { result ≡ gives_second op x y }
{
    match op {
        Op::Min => span_of(y).high <= span_of(x).low,
        Op::Max => span_of(x).high <= span_of(y).low,
        Op::And => has_ones(y, x),
        Op::Or => is_zero(x),
        Op::Ne => is_truth(y) && is_zero(x),
        Op::Add | Op::Sub | Op::Mul | Op::Div | Op::Mod | Op::Eq | Op::Lt | Op::Le => false,
        Op::Gt | Op::Ge | Op::Shl | Op::Shr | Op::Shra | Op::Xor => false,
    }
}

/// Whether the first is not negative, and the second one number that has all bits of the high end of the first.
fn has_ones(x: Fact, y: Fact) -> bool
    ensures { result ≡ has_ones x y }
{
    match x {
        Fact::Never => false,
        Fact::Fixed(_) => false,
        Fact::Between(low, high) => match y {
            Fact::Never => false,
            Fact::Fixed(m) => {
                let high = end_value(high);
                let common = bounds_of(Op::And, Fact::Fixed(m), Fact::Fixed(high));
                0 <= end_value(low) && is_number(common, high)
            }
            Fact::Between(_, _) => false,
        },
    }
}

/// Whether it is this number.
fn is_number(fact: Fact, number: i64) -> bool
    ensures { result ≡ is_number fact number }
{
    match fact {
        Fact::Never => false,
        Fact::Fixed(c) => c == number,
        Fact::Between(_, _) => false,
    }
}

/// Whether the fact leaves 0 in.
fn has_zero(fact: Fact) -> bool
    ensures { result ≡ has_zero fact }
{
    let span = span_of(fact);
    span.low <= 0 && 0 <= span.high
}

/// Whether it holds of 0 alone.
fn is_zero(fact: Fact) -> bool
    ensures { result ≡ is_zero fact }
{
    let span = span_of(fact);
    0 <= span.low && span.high <= 0
}

/// Whether it holds of 0 and 1 alone.
fn is_truth(fact: Fact) -> bool
    ensures { result ≡ is_truth fact }
{
    let span = span_of(fact);
    0 <= span.low && span.high <= 1
}
