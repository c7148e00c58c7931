// From the numbers between two ends to a fact.
ghost use Rattle.std.specs.Prelude.{◌≡◌, ◌≤ℤ◌};
ghost use Rattle.bounds.specs.declared.ends.End.TheVariants.{Greatest, Least};
ghost use Rattle.bounds.specs.Ends.{ceiling, floor, end_value};
ghost use Rattle.bounds.specs.Bounding.{rounded, surest};

use crate::ends::{End, ceiling, floor};
use crate::facts::Fact;
use crate::spans::Span;

/// The surest fact of the span, or that of all numbers where one of the span has more than 64 bits.
pub(crate) fn rounded(s: Span) -> Fact
    ensures { result ≡ rounded s }
{
    if -9_223_372_036_854_775_808 <= s.low && s.high <= 9_223_372_036_854_775_807 {
        surest(s)
    } else {
        Fact::Between(End::Least, End::Greatest)
    }
}

/// The surest fact of a span of 64 bits: "never" of none, and the number of one.
pub(crate) fn surest(s: Span) -> Fact
    requires low { end_value Least ≤ℤ s.low }
    requires high { s.high ≤ℤ end_value Greatest }
    ensures { result ≡ surest s }
{
    if s.high < s.low {
        Fact::Never
    } else if s.high <= s.low {
        Fact::Fixed(s.low as i64)
    } else {
        Fact::Between(lowest(s.low), highest(s.high))
    }
}

/// The greatest end that is at most the number.
#[tactic(auto, using(crate::specs::RoundingLaws::floor_top))]
fn lowest(z: i128) -> End
    requires { end_value Least ≤ℤ z }
    ensures { result ≡ floor z }
{
    if z <= 9_223_372_036_854_775_807 {
        floor(z as i64)
    } else {
        End::Greatest
    }
}

/// The least end that is at least the number.
#[tactic(auto, using(crate::specs::RoundingLaws::ceiling_bottom))]
pub(crate) fn highest(z: i128) -> End
    requires { z ≤ℤ end_value Greatest }
    ensures { result ≡ ceiling z }
{
    if -9_223_372_036_854_775_808 <= z {
        ceiling(z as i64)
    } else {
        End::Least
    }
}
