// The facts of results, and of operands where a relation holds.
ghost use Rattle.std.specs.Prelude.{◌≡◌, ◌≤ℤ◌};
ghost use Rattle.bounds.specs.Ends.{end_value};
ghost use Rattle.bounds.specs.declared.facts.Fact.TheVariants.{Fixed};
ghost use Rattle.bounds.specs.Bounding.{IsWordSpan};
ghost use Rattle.bounds.specs.declared.ends.End.TheVariants.{Greatest, Least};
ghost use Rattle.bounds.specs.Narrowing.{may_relate, narrowed};
ghost use Rattle.bounds.specs.Bounding.{bounds_of, bounds_of_un, rounded, span_of, span_op};

use crate::facts::Fact;
use crate::narrowing::{may_relate, meet, span_where};
use crate::rounding::{rounded, surest};
use crate::spans::{span_of, span_op, span_un_op};
use mir_base::{Op, RelOp, UnOp, eval, eval1};

/// The fact of an operator's value.
pub fn bounds_of(op: Op, x: Fact, y: Fact) -> Fact
    ensures { result ≡ bounds_of op x y }
{
    match x {
        Fact::Never => Fact::Never,
        Fact::Fixed(a) => match y {
            Fact::Never => Fact::Never,
            Fact::Fixed(b) => evaluated(op, a, b),
            Fact::Between(_, _) => spanned(op, x, y),
        },
        Fact::Between(_, _) => match y {
            Fact::Never => Fact::Never,
            Fact::Fixed(_) => spanned(op, x, y),
            Fact::Between(_, _) => spanned(op, x, y),
        },
    }
}

/// The fact of the value of an operator on two constants; where it traps, that of its span.
fn evaluated(op: Op, a: i64, b: i64) -> Fact
    ensures { result ≡ bounds_of op (Fixed a) (Fixed b) }
{
    match eval(op, a, b) {
        Ok(v) => Fact::Fixed(v),
        Err(_) => spanned(op, Fact::Fixed(a), Fact::Fixed(b)),
    }
}

/// The fact of an operator's value by the spans of its operands.
fn spanned(op: Op, x: Fact, y: Fact) -> Fact
    ensures { result ≡ rounded (span_op op (span_of x) (span_of y)) }
{
    rounded(span_op(op, span_of(x), span_of(y)))
}

/// The fact of the value of an operator on one number.
pub fn bounds_of_un(op: UnOp, x: Fact) -> Fact
    ensures { result ≡ bounds_of_un op x }
{
    match x {
        Fact::Never => Fact::Never,
        Fact::Fixed(a) => Fact::Fixed(eval1(op, a)),
        Fact::Between(_, _) => rounded(span_un_op(op, span_of(x))),
    }
}

/// The fact of the first operand where the relation holds between it and the second.
pub fn narrowed(op: RelOp, x: Fact, y: Fact) -> Fact
    ensures { result ≡ narrowed op x y }
{
    let s = span_of(x);
    surest(meet(s, span_where(op, s, span_of(y))))
}

/// Whether the relation may hold between numbers of which these facts hold.
pub fn may_hold(op: RelOp, x: Fact, y: Fact) -> bool
    ensures { result ≡ may_relate op (span_of x) (span_of y) }
{
    may_relate(op, span_of(x), span_of(y))
}
