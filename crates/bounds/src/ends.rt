// The ends that intervals have.
ghost use Rattle.std.specs.Prelude.{◌≡◌, true, if◌then◌else◌, int_le};
ghost use Rattle.bounds.specs.Ends.{ceiling, floor, index, lower, upper, end_value};

/// An end of an interval, in ascending order.
#[derive(Clone, Copy, Debug, PartialEq, Eq)]
pub enum End {
    /// The least number.
    Least,
    /// The least of 32 bits.
    Min32,
    /// The least of 16 bits.
    Min16,
    /// The least of 8 bits.
    Min8,
    /// -1.
    MinusOne,
    /// 0.
    Zero,
    /// 1.
    One,
    /// The greatest of 8 bits with a sign.
    Max8,
    /// The greatest of 8 bits.
    MaxU8,
    /// The greatest of 16 bits with a sign.
    Max16,
    /// The greatest of 16 bits.
    MaxU16,
    /// The greatest of 32 bits with a sign.
    Max32,
    /// The greatest of 32 bits.
    MaxU32,
    /// The greatest number.
    Greatest,
}

/// The number that an end is.
pub(crate) fn end_value(end: End) -> i64
    ensures { result ≡ end_value end }
{
    match end {
        End::Least => -9_223_372_036_854_775_808,
        End::Min32 => -2_147_483_648,
        End::Min16 => -32_768,
        End::Min8 => -128,
        End::MinusOne => -1,
        End::Zero => 0,
        End::One => 1,
        End::Max8 => 127,
        End::MaxU8 => 255,
        End::Max16 => 32_767,
        End::MaxU16 => 65_535,
        End::Max32 => 2_147_483_647,
        End::MaxU32 => 4_294_967_295,
        End::Greatest => 9_223_372_036_854_775_807,
    }
}

/// The place of an end, from the least.
pub(crate) fn index(end: End) -> u8
    ensures { result ≡ index end }
{
    match end {
        End::Least => 0,
        End::Min32 => 1,
        End::Min16 => 2,
        End::Min8 => 3,
        End::MinusOne => 4,
        End::Zero => 5,
        End::One => 6,
        End::Max8 => 7,
        End::MaxU8 => 8,
        End::Max16 => 9,
        End::MaxU16 => 10,
        End::Max32 => 11,
        End::MaxU32 => 12,
        End::Greatest => 13,
    }
}

/// Whether two ends are one.
#[tactic(auto, using(crate::specs::FactLaws::index_is_one))]
pub(crate) fn are_same_ends(e: End, f: End) -> bool
    ensures same { result ≡ true → e ≡ f }
    ensures differ { e ≡ f → result ≡ true }
{
    index(e) == index(f)
}

/// The lower of two ends.
pub(crate) fn lower(e: End, f: End) -> End
    ensures { result ≡ lower e f }
{
    if index(e) <= index(f) { e } else { f }
}

/// The upper of two ends.
pub(crate) fn upper(e: End, f: End) -> End
    ensures { result ≡ upper e f }
{
    if index(e) <= index(f) { f } else { e }
}

/// The greatest end that is at most the number.
#[tactic(auto, unfolding(crate::specs::Ends::floor, crate::specs::Ends::floor_in))]
pub(crate) fn floor(z: i64) -> End
    ensures { result ≡ floor z }
{
    let end = if_at_most(End::Min32, z, End::Least);
    let end = if_at_most(End::Min16, z, end);
    let end = if_at_most(End::Min8, z, end);
    let end = if_at_most(End::MinusOne, z, end);
    let end = if_at_most(End::Zero, z, end);
    let end = if_at_most(End::One, z, end);
    let end = if_at_most(End::Max8, z, end);
    let end = if_at_most(End::MaxU8, z, end);
    let end = if_at_most(End::Max16, z, end);
    let end = if_at_most(End::MaxU16, z, end);
    let end = if_at_most(End::Max32, z, end);
    let end = if_at_most(End::MaxU32, z, end);
    if_at_most(End::Greatest, z, end)
}

/// The end where it is at most the number, else another.
fn if_at_most(end: End, z: i64, other: End) -> End
    ensures { result ≡ (if int_le (end_value end) z then end else other) }
{
    if end_value(end) <= z { end } else { other }
}

/// The least end that is at least the number.
#[tactic(auto, unfolding(crate::specs::Ends::ceiling, crate::specs::Ends::ceiling_in))]
pub(crate) fn ceiling(z: i64) -> End
    ensures { result ≡ ceiling z }
{
    let end = if_at_least(End::MaxU32, z, End::Greatest);
    let end = if_at_least(End::Max32, z, end);
    let end = if_at_least(End::MaxU16, z, end);
    let end = if_at_least(End::Max16, z, end);
    let end = if_at_least(End::MaxU8, z, end);
    let end = if_at_least(End::Max8, z, end);
    let end = if_at_least(End::One, z, end);
    let end = if_at_least(End::Zero, z, end);
    let end = if_at_least(End::MinusOne, z, end);
    let end = if_at_least(End::Min8, z, end);
    let end = if_at_least(End::Min16, z, end);
    let end = if_at_least(End::Min32, z, end);
    if_at_least(End::Least, z, end)
}

/// The end where it is at least the number, else another.
fn if_at_least(end: End, z: i64, other: End) -> End
    ensures { result ≡ (if int_le z (end_value end) then end else other) }
{
    if z <= end_value(end) { end } else { other }
}
