// Facts as they are kept: by a kind and a number.
ghost use Rattle.std.specs.Prelude.{◌≡◌, ◌<◌};
ghost use Rattle.bounds.specs.Coding.{decoded_fact, end_at, fact_stands, interval_kind, is_interval, joined_interval, joined_kind, kind_of, lower_place, number_of, upper_place};

use crate::ends::{End, index};
use crate::facts::Fact;
use cond_flow::Coded;

impl Coded for Fact {
    ghost decoded = { decoded_fact };

    ghost kind_of = { kind_of };

    ghost number_of = { number_of };

    fn kind(self) -> u8 {
        match self {
            Fact::Fixed(_) => 0,
            Fact::Never => 1,
            Fact::Between(low, high) => interval_kind(low, high),
        }
    }

    fn number(self) -> i64 {
        match self {
            Fact::Fixed(c) => c,
            Fact::Never => 0,
            Fact::Between(_, _) => 0,
        }
    }

    fn of_code(kind: u8, number: &i64) -> Fact {
        if kind == 0 {
            Fact::Fixed(*number)
        } else if kind == 1 {
            Fact::Never
        } else {
            let ends = kind - 2;
            Fact::Between(end_at(ends / 14), end_at(ends % 14))
        }
    }

    fn tells_all(kind: u8) -> bool {
        kind != 0
    }

    ghost stands = { fact_stands };
}

/// The kind of an interval: one for each two ends.
#[tactic(auto, using(crate::specs::Coding::index_small))]
fn interval_kind(low: End, high: End) -> u8
    ensures { result ≡ interval_kind low high }
{
    2 + 14 * index(low) + index(high)
}

/// Whether a kind is that of an interval.
fn is_interval(kind: u8) -> bool
    ensures { result ≡ is_interval kind }
{
    2 <= kind && kind <= 197
}

/// The kind of what is known where two paths meet, if it is seen by the two kinds: if both are intervals.
pub(crate) fn joined_kind(kind: u8, other: u8) -> Option<u8>
    ensures { result ≡ joined_kind kind other }
{
    if is_interval(kind) && is_interval(other) {
        Some(joined_interval(kind - 2, other - 2))
    } else {
        None
    }
}

/// The kind of the least interval that holds two, by the places of their ends.
#[tactic(auto, using(crate::specs::Coding::lower_small, crate::specs::Coding::upper_small))]
fn joined_interval(ends: u8, other: u8) -> u8
    requires here { ends < 196 }
    requires there { other < 196 }
    ensures { result ≡ joined_interval ends other }
{
    let low = lower_place(ends / 14, other / 14);
    let high = upper_place(ends % 14, other % 14);
    2 + 14 * low + high
}

/// The lower of two places.
fn lower_place(place: u8, other: u8) -> u8
    ensures { result ≡ lower_place place other }
{
    if place <= other { place } else { other }
}

/// The upper of two places.
fn upper_place(place: u8, other: u8) -> u8
    ensures { result ≡ upper_place place other }
{
    if place <= other { other } else { place }
}

/// The end at this place, from the least.
fn end_at(place: u8) -> End
    ensures { result ≡ end_at place }
{
    if place == 0 {
        End::Least
    } else if place == 1 {
        End::Min32
    } else if place == 2 {
        End::Min16
    } else if place == 3 {
        End::Min8
    } else if place == 4 {
        End::MinusOne
    } else if place == 5 {
        End::Zero
    } else if place == 6 {
        End::One
    } else if place == 7 {
        End::Max8
    } else if place == 8 {
        End::MaxU8
    } else if place == 9 {
        End::Max16
    } else if place == 10 {
        End::MaxU16
    } else if place == 11 {
        End::Max32
    } else if place == 12 {
        End::MaxU32
    } else {
        End::Greatest
    }
}
