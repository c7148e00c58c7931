// Between which numbers the value of an operator bit by bit lies.
ghost use Rattle.std.specs.Prelude.{◌≡◌, ◌≤ℤ◌, ◌&&◌, ◌||◌, ◌-ℤ◌, if◌then◌else◌, neg_ℤ, pos, int_le, int_lt};
ghost use Rattle.std.specs.Int.{int_max, int_min};
ghost use Rattle.bounds.specs.declared.ends.End.TheVariants.{Greatest, Least};
ghost use Rattle.bounds.specs.Ends.{ceiling, end_value};
ghost use Rattle.bounds.specs.Bounding.{are_alike, are_unlike, has_negative, is_natural, is_negative, natural, ones, reach, span_and, span_or, span_xor, IsInWord, IsWordSpan};

use crate::ends::end_value;
use crate::rounding::highest;
use crate::spans::{Span, difference, greater, is_natural, lesser, natural};

/// `and`: from 0 to an operand that is natural, and else at most the greater.
pub(crate) fn span_and(s: Span, t: Span) -> Span
    requires left { IsWordSpan s }
    requires right { IsWordSpan t }
    ensures { result ≡ span_and s t }
{
    if is_natural(s) {
        Span {
            low: 0,
            high: if is_natural(t) {
                lesser(s.high, t.high)
            } else {
                s.high
            },
        }
    } else if is_natural(t) {
        Span {
            low: 0,
            high: t.high,
        }
    } else {
        Span {
            low: difference(-1, ones(s, t)),
            high: greater(s.high, t.high),
        }
    }
}

/// Whether each number of the span is negative.
fn is_negative(s: Span) -> bool
    ensures { result ≡ is_negative s }
{
    s.high < 0
}

/// Whether each number of one of both is negative.
fn has_negative(s: Span, t: Span) -> bool
    ensures { result ≡ has_negative s t }
{
    is_negative(s) || is_negative(t)
}

/// `or`: at least the lesser operand, and negative with one that is.
pub(crate) fn span_or(s: Span, t: Span) -> Span
    requires left { IsWordSpan s }
    requires right { IsWordSpan t }
    ensures { result ≡ span_or s t }
{
    Span {
        low: lesser(s.low, t.low),
        high: if has_negative(s, t) {
            -1
        } else {
            upper_end(s.high, t.high)
        },
    }
}

/// The least end that is at least both numbers.
#[tactic(auto, using(crate::specs::SpanMono::max_word))]
fn upper_end(a: i128, b: i128) -> i128
    requires left { a ≤ℤ end_value Greatest }
    requires right { b ≤ℤ end_value Greatest }
    ensures end_value { result ≡ end_value (ceiling (int_max a b)) }
    ensures word { IsInWord result }
{
    end_value(highest(greater(a, b))) as i128
}

/// How far the numbers of the span reach up from 0, or down from -1.
#[tactic(auto, using(crate::specs::SpanMono::reach_word))]
fn reach(s: Span) -> i128
    requires { IsWordSpan s }
    ensures end_value { result ≡ reach s }
    ensures high { result ≤ℤ end_value Greatest }
{
    greater(natural(s.high), difference(-1, s.low))
}

/// The number of which all bits are 1 that operators bit by bit do not leave.
fn ones(s: Span, t: Span) -> i128
    requires left { IsWordSpan s }
    requires right { IsWordSpan t }
    ensures end_value { result ≡ ones s t }
    ensures word { IsInWord result }
{
    upper_end(reach(s), reach(t))
}

/// `xor`: not negative where the signs are alike, and negative where they differ.
pub(crate) fn span_xor(s: Span, t: Span) -> Span
    requires left { IsWordSpan s }
    requires right { IsWordSpan t }
    ensures { result ≡ span_xor s t }
{
    let ones = ones(s, t);
    Span {
        low: if are_alike(s, t) {
            0
        } else {
            difference(-1, ones)
        },
        high: if are_unlike(s, t) { -1 } else { ones },
    }
}

/// Whether the signs of all numbers of both are alike.
fn are_alike(s: Span, t: Span) -> bool
    ensures { result ≡ are_alike s t }
{
    is_natural(s) && is_natural(t) || is_negative(s) && is_negative(t)
}

/// Whether the sign of each number of the first differs from that of each of the second.
fn are_unlike(s: Span, t: Span) -> bool
    ensures { result ≡ are_unlike s t }
{
    is_natural(s) && is_negative(t) || is_negative(s) && is_natural(t)
}
