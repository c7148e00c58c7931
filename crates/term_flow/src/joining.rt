// What an operator with a constant makes of a variable that holds another right side.
ghost use Rattle.std.specs.Prelude.{◌≡◌, Some};
ghost use Rattle.term_flow.specs.Terms.{sum_with, joint_constant, is_term, joined_to, over_by, over_read, read_rhs, same_again, solution, difference_from};

use crate::comparing::{denied_rhs, of_truth};
use crate::numbers::{joint_distance, shift_within, value_of};
use crate::reading::{ByConstant, read_rhs, rhs_by, with_constant};
use held_assign::Picks;
use mir_base::{Op, Rhs};

// ---- which right sides are looked for

/// The choice of the right sides of a variable and a constant, and of comparisons.
pub(crate) struct PickTerms;

impl Picks for PickTerms {
    ghost picked = { λ picks v rhs. is_term rhs };

    fn picks(&self, _target: usize, rhs: Rhs) -> bool {
        is_term(rhs)
    }
}

/// Whether a right side is one of a variable and a constant, or a comparison.
fn is_term(rhs: Rhs) -> bool
    ensures { result ≡ is_term rhs }
{
    match read_rhs(rhs) {
        Some(_) => true,
        None => match denied_rhs(rhs) {
            Some(_) => true,
            None => false,
        },
    }
}

// ---- one on another

/// The right side that joins the operator with its constant to what its variable holds, where there is one.
pub(crate) fn joined_to(term: ByConstant, held: Rhs) -> Option<Rhs>
    ensures { result ≡ joined_to term (Some held) }
{
    match of_truth(term.op, term.constant, held) {
        Some(rhs) => Some(rhs),
        None => match over_read(term, held) {
            Some(joined) => Some(rhs_by(joined)),
            None => None,
        },
    }
}

/// The same, where the variable holds one of a variable and a constant.
fn over_read(term: ByConstant, held: Rhs) -> Option<ByConstant>
    ensures { result ≡ over_read term (read_rhs held) }
{
    let inner = read_rhs(held)?;
    over_by(term.op, term.constant, inner)
}

/// An operator with a constant c on what this makes of its variable.
fn over_by(op: Op, c: i64, inner: ByConstant) -> Option<ByConstant>
    ensures { result ≡ over_by op c inner.op inner.var inner.constant }
{
    match op {
        Op::Add => sum_with(c, inner),
        Op::Sub => difference_from(c, inner),
        Op::Eq | Op::Ne => match solution(c, inner.op, inner.constant) {
            Some(constant) => Some(with_constant(op, inner.var, constant)),
            None => None,
        },
        _ => same_again(op, c, inner),
    }
}

/// The sum with a constant: (x + k) + c and (k - x) + c.
fn sum_with(c: i64, inner: ByConstant) -> Option<ByConstant>
    ensures { result ≡ sum_with c inner.op inner.var inner.constant }
{
    match inner.op {
        Op::Add | Op::Sub => {
            let sum = value_of(Op::Add, inner.constant, c);
            Some(with_constant(inner.op, inner.var, sum))
        }
        _ => None,
    }
}

/// The difference from a constant: c - (x + k) and c - (k - x).
fn difference_from(c: i64, inner: ByConstant) -> Option<ByConstant>
    ensures { result ≡ difference_from c inner.op inner.var inner.constant }
{
    match inner.op {
        Op::Add => {
            let difference = value_of(Op::Sub, c, inner.constant);
            Some(with_constant(Op::Sub, inner.var, difference))
        }
        Op::Sub => {
            let difference = value_of(Op::Sub, c, inner.constant);
            Some(with_constant(Op::Add, inner.var, difference))
        }
        _ => None,
    }
}

/// The number of which the operator with the constant k makes c: v + k = c, k - v = c, v xor k = c.
fn solution(c: i64, op: Op, k: i64) -> Option<i64>
    ensures { result ≡ solution c op k }
{
    match op {
        Op::Add => Some(value_of(Op::Sub, c, k)),
        Op::Sub => Some(value_of(Op::Sub, k, c)),
        Op::Xor => Some(value_of(Op::Xor, k, c)),
        _ => None,
    }
}

/// The same operator again.
fn same_again(op: Op, c: i64, inner: ByConstant) -> Option<ByConstant>
    ensures { result ≡ same_again op c inner.op inner.var inner.constant }
{
    if op == inner.op {
        let constant = joint_constant(op, inner.constant, c)?;
        Some(with_constant(op, inner.var, constant))
    } else {
        None
    }
}

/// The constant with which the operator does once what it does with k and then with c.
fn joint_constant(op: Op, k: i64, c: i64) -> Option<i64>
    ensures { result ≡ joint_constant op k c }
{
    match op {
        Op::Mul | Op::Min | Op::Max | Op::And | Op::Or | Op::Xor => Some(value_of(op, k, c)),
        Op::Shl | Op::Shr => shift_within(joint_distance(k, c)),
        Op::Shra => Some(i64::from(joint_distance(k, c).min(63))),
        _ => None,
    }
}
