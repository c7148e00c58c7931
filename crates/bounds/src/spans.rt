// Between which numbers the value of an operator lies.
ghost use Rattle.std.specs.Prelude.{◌≡◌, ◌≤ℤ◌, ◌&&◌, ◌||◌, ◌+ℤ◌, ◌-ℤ◌, ◌*◌, ◌/◌, ◌^◌, ◌<◌, if◌then◌else◌, ℤ, neg_ℤ, pos, int_le};
ghost use Rattle.mir_base.specs.declared.operators.Op.TheVariants.{Add, Eq, Max, Min, Ne, Sub};
ghost use Rattle.mir_base.specs.Numbers.{truth};
ghost use Rattle.std.specs.Int.{int_div_euclid, int_max, int_min};
ghost use Rattle.bounds.specs.declared.ends.End.TheVariants.{Greatest, Least};
ghost use Rattle.bounds.specs.Ends.{end_value};
ghost use Rattle.bounds.specs.Bounding.{all, are_distances, are_one, is_natural, is_positive, may_equal, natural, span, span_and, span_div, divided, size, is_negative, has_negative, reach, ones, are_alike, are_unlike, span_xor, span_le, span_lt, span_mod, span_mul, span_of, span_op, span_or, span_shl, span_shr, span_shra, span_shra_by, span_un_op, first_distance, depth, scaled, IsInWord, IsWordSpan};

use crate::bits::{span_and, span_or, span_xor};
use crate::ends::end_value;
use crate::facts::Fact;
use mir_base::{Op, UnOp};

/// The numbers from `low` to `high`.
#[derive(Clone, Copy, Debug, PartialEq, Eq)]
pub struct Span {
    /// The least of them.
    pub low: i128,
    /// The greatest of them.
    pub high: i128,
}

/// The numbers of which a fact holds.
pub(crate) fn span_of(x: Fact) -> Span
    ensures span { result ≡ span_of x }
    ensures word { IsWordSpan result }
{
    match x {
        Fact::Never => Span {
            low: 9_223_372_036_854_775_807,
            high: -9_223_372_036_854_775_808,
        },
        Fact::Fixed(c) => Span {
            low: c as i128,
            high: c as i128,
        },
        Fact::Between(e, f) => Span {
            low: end_value(e) as i128,
            high: end_value(f) as i128,
        },
    }
}

/// More than all numbers of 64 bits.
fn all() -> Span
    ensures { result ≡ all }
{
    Span {
        low: -9_223_372_036_854_775_809,
        high: 9_223_372_036_854_775_808,
    }
}

/// The sum of two numbers.
fn sum(a: i128, b: i128) -> i128
    requires left { IsInWord a }
    requires right { IsInWord b }
    ensures { result ≡ a +ℤ b }
{
    a + b
}

/// The difference of two numbers.
pub(crate) fn difference(a: i128, b: i128) -> i128
    requires left { IsInWord a }
    requires right { IsInWord b }
    ensures { result ≡ a -ℤ b }
{
    a - b
}

/// Sums.
fn span_add(s: Span, t: Span) -> Span
    requires left { IsWordSpan s }
    requires right { IsWordSpan t }
    ensures { result ≡ span_op Add s t }
{
    Span {
        low: sum(s.low, t.low),
        high: sum(s.high, t.high),
    }
}

/// Differences.
fn span_sub(s: Span, t: Span) -> Span
    requires left { IsWordSpan s }
    requires right { IsWordSpan t }
    ensures { result ≡ span_op Sub s t }
{
    Span {
        low: difference(s.low, t.high),
        high: difference(s.high, t.low),
    }
}

/// The lesser of two numbers.
pub(crate) fn lesser(a: i128, b: i128) -> i128
    ensures { result ≡ int_min a b }
{
    if b < a { b } else { a }
}

/// The greater of two numbers.
pub(crate) fn greater(a: i128, b: i128) -> i128
    ensures { result ≡ int_max a b }
{
    if b < a { a } else { b }
}

/// The lesser of numbers of both.
fn span_min(s: Span, t: Span) -> Span
    ensures { result ≡ span_op Min s t }
{
    Span {
        low: lesser(s.low, t.low),
        high: lesser(s.high, t.high),
    }
}

/// The greater of numbers of both.
fn span_max(s: Span, t: Span) -> Span
    ensures { result ≡ span_op Max s t }
{
    Span {
        low: greater(s.low, t.low),
        high: greater(s.high, t.high),
    }
}

/// The number, or 0 where it is negative.
pub(crate) fn natural(z: i128) -> i128
    ensures { result ≡ pos (natural z) }
{
    if z < 0 { 0 } else { z }
}

/// Whether no number of the span is negative.
pub(crate) fn is_natural(s: Span) -> bool
    ensures { result ≡ is_natural s }
{
    0 <= s.low
}

/// Whether no number of the span is 0 or less.
fn is_positive(s: Span) -> bool
    ensures { result ≡ is_positive s }
{
    1 <= s.low
}

/// 1 where the test holds, else 0.
fn truth(test: bool) -> i128
    ensures { result ≡ truth test }
{
    if test { 1 } else { 0 }
}

/// Whether each number of the first is below each of the second.
fn span_lt(s: Span, t: Span) -> Span
    ensures { result ≡ span_lt s t }
{
    Span {
        low: truth(s.high < t.low),
        high: truth(s.low < t.high),
    }
}

/// Whether it is at most.
fn span_le(s: Span, t: Span) -> Span
    ensures { result ≡ span_le s t }
{
    Span {
        low: truth(s.high <= t.low),
        high: truth(s.low <= t.high),
    }
}

/// Whether they are equal.
fn span_eq(s: Span, t: Span) -> Span
    ensures { result ≡ span_op Eq s t }
{
    Span {
        low: truth(are_one(s, t)),
        high: truth(may_equal(s, t)),
    }
}

/// Whether they differ.
fn span_ne(s: Span, t: Span) -> Span
    ensures { result ≡ span_op Ne s t }
{
    Span {
        low: truth(!may_equal(s, t)),
        high: truth(!are_one(s, t)),
    }
}

/// Whether the numbers of both are one.
pub(crate) fn are_one(s: Span, t: Span) -> bool
    ensures { result ≡ are_one s t }
{
    s.high <= t.low && t.high <= s.low
}

/// Whether they may be equal.
pub(crate) fn may_equal(s: Span, t: Span) -> bool
    ensures { result ≡ may_equal s t }
{
    s.low <= t.high && t.low <= s.high
}

/// The number below 0 as one above, or 0 where it is not below.
fn depth(z: i128) -> i128
    requires { IsInWord z }
    ensures end_value { result ≡ pos (depth z) }
    ensures low { pos 0 ≤ℤ result }
    ensures high { result ≤ℤ pos 9223372036854775808 }
{
    if z < 0 { -z } else { 0 }
}

/// The product of two natural numbers.
#[tactic(auto, using(crate::specs::SpanMono::natural_product))]
fn product(a: i128, b: i128) -> i128
    requires left { (pos 0 ≤ℤ a) × (a ≤ℤ pos 9223372036854775808) }
    requires right { (pos 0 ≤ℤ b) × (b ≤ℤ pos 9223372036854775808) }
    ensures end_value { result ≡ pos (natural a * natural b) }
    ensures high { result ≤ℤ pos 85070591730234615865843651857942052864 }
{
    a * b
}

/// A product negated. It is at most 2^126, so nothing overflows.
fn negated(a: i128) -> i128
    requires { (pos 0 ≤ℤ a) × (a ≤ℤ pos 85070591730234615865843651857942052864) }
    ensures { result ≡ neg_ℤ a }
{
    -a
}

/// The span times at most n.
fn scaled(s: Span, n: i128) -> Span
    requires span { IsWordSpan s }
    requires number { (pos 0 ≤ℤ n) × (n ≤ℤ pos 9223372036854775808) }
    ensures { result ≡ scaled s (natural n) }
{
    Span {
        low: negated(product(depth(s.low), n)),
        high: product(natural(s.high), n),
    }
}

/// Products where an operand is natural.
fn span_mul(s: Span, t: Span) -> Span
    requires left { IsWordSpan s }
    requires right { IsWordSpan t }
    ensures { result ≡ span_mul s t }
{
    if is_natural(t) {
        scaled(s, natural(t.high))
    } else if is_natural(s) {
        scaled(t, natural(s.high))
    } else {
        all()
    }
}

/// Whether no distance of the span wraps.
fn are_distances(s: Span) -> bool
    ensures { result ≡ are_distances s }
{
    0 <= s.low && s.high <= 63
}

/// The span divided by at least n.
fn divided(s: Span, n: i128) -> Span
    requires span { IsWordSpan s }
    requires number { (pos 1 ≤ℤ n) × (n ≤ℤ pos 9223372036854775808) }
    ensures { result ≡ divided s (natural n) }
{
    Span {
        low: negated(quotient(depth(s.low), n)),
        high: quotient(natural(s.high), n),
    }
}

/// How far the numbers of the span are from 0 at most.
fn size(s: Span) -> i128
    requires { IsWordSpan s }
    ensures end_value { result ≡ pos (size s) }
    ensures low { pos 0 ≤ℤ result }
    ensures high { result ≤ℤ pos 9223372036854775808 }
{
    greater(depth(s.low), natural(s.high))
}

/// Quotients: no further from 0 than the dividend.
fn span_div(s: Span, t: Span) -> Span
    requires left { IsWordSpan s }
    requires right { IsWordSpan t }
    ensures { result ≡ span_div s t }
{
    if is_natural(t) {
        divided(s, greater(t.low, 1))
    } else {
        Span {
            low: negated(size(s)),
            high: size(s),
        }
    }
}

/// The quotient of two natural numbers.
#[tactic(auto, using(crate::specs::SpanMono::natural_quotient))]
fn quotient(a: i128, b: i128) -> i128
    requires left { pos 0 ≤ℤ a }
    requires right { pos 1 ≤ℤ b }
    ensures { result ≡ pos (natural a / natural b) }
{
    a / b
}

/// Remainders.
fn span_mod(s: Span, t: Span) -> Span
    requires right { IsWordSpan t }
    ensures { result ≡ span_mod s t }
{
    if is_natural(s) {
        Span {
            low: 0,
            high: if is_positive(t) {
                lesser(s.high, difference(t.high, 1))
            } else {
                s.high
            },
        }
    } else if is_positive(t) {
        Span {
            low: lesser(0, difference(1, t.high)),
            high: difference(t.high, 1),
        }
    } else {
        all()
    }
}

/// 2 to the power k.
fn power(k: i128) -> i128
    requires { (pos 0 ≤ℤ k) × (k ≤ℤ pos 63) }
    ensures end_value { result ≡ pos (2 ^ natural k) }
    ensures low { pos 1 ≤ℤ result }
    ensures high { result ≤ℤ pos 9223372036854775808 }
{
    1i128 << (k as u32)
}

/// Shifts to the left.
fn span_shl(s: Span, t: Span) -> Span
    requires left { IsWordSpan s }
    ensures { result ≡ span_shl s t }
{
    if are_distances(t) {
        scaled(s, power(natural(t.high)))
    } else {
        all()
    }
}

/// The least distance of the span.
fn first_distance(s: Span) -> i128
    ensures end_value { result ≡ pos (first_distance s) }
    ensures low { pos 0 ≤ℤ result }
    ensures high { result ≤ℤ pos 63 }
{
    lesser(natural(s.low), 63)
}

/// Shifts to the right of numbers without a sign.
fn span_shr(s: Span, t: Span) -> Span
    ensures { result ≡ span_shr s t }
{
    if are_distances(t) {
        Span {
            low: 0,
            high: shr_high(s, power(first_distance(t))),
        }
    } else if is_natural(s) {
        Span {
            low: 0,
            high: natural(s.high),
        }
    } else {
        all()
    }
}

/// The high end of a shift to the right that divides by so much.
fn shr_high(s: Span, by: i128) -> i128
    requires { pos 1 ≤ℤ by }
    ensures { result ≡ (if is_natural s then pos (natural s.high / natural by)
        else pos (18446744073709551615 / natural by)) }
{
    if is_natural(s) {
        quotient(natural(s.high), by)
    } else {
        quotient(18_446_744_073_709_551_615, by)
    }
}

/// Shifts to the right of numbers with a sign.
fn span_shra(s: Span, t: Span) -> Span
    ensures { result ≡ span_shra s t }
{
    if are_distances(t) {
        span_shra_by(s, first_distance(t))
    } else {
        span_shra_by(s, 0)
    }
}

/// Shifts to the right of numbers with a sign, by at least k.
fn span_shra_by(s: Span, k: i128) -> Span
    requires { (pos 0 ≤ℤ k) × (k ≤ℤ pos 63) }
    ensures { result ≡ span_shra_by s (natural k) }
{
    Span {
        low: lesser(shifted(s.low, k), 0),
        high: greater(shifted(s.high, k), -1),
    }
}

/// The number divided by 2 to the power k, rounding down.
fn shifted(z: i128, k: i128) -> i128
    requires { (pos 0 ≤ℤ k) × (k ≤ℤ pos 63) }
    ensures { result ≡ int_div_euclid z (pos (2 ^ natural k)) }
{
    z.div_euclid(power(k))
}

/// Between which numbers the value of an operator lies.
pub(crate) fn span_op(op: Op, s: Span, t: Span) -> Span
    requires left { IsWordSpan s }
    requires right { IsWordSpan t }
    ensures { result ≡ span_op op s t }
{
    match op {
        Op::Add => span_add(s, t),
        Op::Sub => span_sub(s, t),
        Op::Mul => span_mul(s, t),
        Op::Div => span_div(s, t),
        Op::Mod => span_mod(s, t),
        Op::Min => span_min(s, t),
        Op::Max => span_max(s, t),
        Op::Eq => span_eq(s, t),
        Op::Ne => span_ne(s, t),
        Op::Lt => span_lt(s, t),
        Op::Le => span_le(s, t),
        Op::Gt => span_lt(t, s),
        Op::Ge => span_le(t, s),
        Op::Shl => span_shl(s, t),
        Op::Shr => span_shr(s, t),
        Op::Shra => span_shra(s, t),
        Op::And => span_and(s, t),
        Op::Or => span_or(s, t),
        Op::Xor => span_xor(s, t),
    }
}

/// Where the value of an operator on one number lies.
pub(crate) fn span_un_op(op: UnOp, s: Span) -> Span
    requires { IsWordSpan s }
    ensures { result ≡ span_un_op op s }
{
    match op {
        UnOp::Neg => Span {
            low: opposite(s.high),
            high: opposite(s.low),
        },
        UnOp::Not => span_eq(s, Span { low: 0, high: 0 }),
    }
}

/// The opposite of a number.
fn opposite(z: i128) -> i128
    requires { IsInWord z }
    ensures { result ≡ neg_ℤ z }
{
    -z
}
