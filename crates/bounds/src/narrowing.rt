// Between which numbers an operand lies where a relation holds.
ghost use Rattle.std.specs.Prelude.{◌≡◌, ◌≤ℤ◌, ◌+ℤ◌, ◌-ℤ◌, if◌then◌else◌, pos};
ghost use Rattle.bounds.specs.declared.ends.End.TheVariants.{Greatest, Least};
ghost use Rattle.bounds.specs.Ends.{end_value};
ghost use Rattle.bounds.specs.Bounding.{IsWordSpan};
ghost use Rattle.bounds.specs.Narrowing.{is_high, is_low, may_relate, meet, span_where};

use crate::spans::{Span, are_one, greater, lesser, may_equal};
use mir_base::RelOp;

/// The numbers of the first span that are in the relation to one of the second.
pub(crate) fn span_where(op: RelOp, s: Span, t: Span) -> Span
    requires left { IsWordSpan s }
    requires right { IsWordSpan t }
    ensures span { result ≡ span_where op s t }
    ensures low { end_value Least ≤ℤ result.low }
    ensures high { result.high ≤ℤ end_value Greatest }
{
    match op {
        RelOp::Eq => t,
        RelOp::Ne => Span {
            low: low_where_differs(s, t),
            high: high_where_differs(s, t),
        },
        RelOp::Lt => Span {
            low: -9_223_372_036_854_775_808,
            high: t.high - 1,
        },
        RelOp::Le => Span {
            low: -9_223_372_036_854_775_808,
            high: t.high,
        },
        RelOp::Gt => Span {
            low: t.low + 1,
            high: 9_223_372_036_854_775_807,
        },
        RelOp::Ge => Span {
            low: t.low,
            high: 9_223_372_036_854_775_807,
        },
    }
}

/// The low end of the first span, or one more where all numbers of the second are that end.
fn low_where_differs(s: Span, t: Span) -> i128
    requires { IsWordSpan s }
    ensures end_value { result ≡ (if is_low s t then s.low +ℤ pos 1 else s.low) }
    ensures low { end_value Least ≤ℤ result }
{
    if t.high <= s.low && s.low <= t.low {
        s.low + 1
    } else {
        s.low
    }
}

/// The high end, or one less.
fn high_where_differs(s: Span, t: Span) -> i128
    requires { IsWordSpan s }
    ensures end_value { result ≡ (if is_high s t then s.high -ℤ pos 1 else s.high) }
    ensures high { result ≤ℤ end_value Greatest }
{
    if t.high <= s.high && s.high <= t.low {
        s.high - 1
    } else {
        s.high
    }
}

/// The numbers of both spans, of which the first has 64 bits.
pub(crate) fn meet(s: Span, t: Span) -> Span
    requires { IsWordSpan s }
    ensures meet { result ≡ meet s t }
    ensures low { end_value Least ≤ℤ result.low }
    ensures high { result.high ≤ℤ end_value Greatest }
{
    Span {
        low: greater(s.low, t.low),
        high: lesser(s.high, t.high),
    }
}

/// Whether the relation may hold between a number of the first span and one of the second.
pub(crate) fn may_relate(op: RelOp, s: Span, t: Span) -> bool
    ensures { result ≡ may_relate op s t }
{
    match op {
        RelOp::Eq => may_equal(s, t),
        RelOp::Ne => !are_one(s, t),
        RelOp::Lt => s.low < t.high,
        RelOp::Le => s.low <= t.high,
        RelOp::Gt => t.low < s.high,
        RelOp::Ge => t.low <= s.high,
    }
}
