//! The least and the most of places on a frame.
ghost use Rattle.std.specs.Prelude.{◌^◌, ◌≤ℤ◌};
ghost use Rattle.picture_core.specs.inner.Bounds.{IsBounded};

/// Further from the first dot than any place on a frame, whether in 1/256 or in 1/65536 dot.
pub(crate) const BEYOND: i64 = 1_099_511_627_776;

/// The lesser of two places.
pub(crate) fn least(one: i64, other: i64) -> i64
    requires one { IsBounded (2 ^ 40) one }
    requires other { IsBounded (2 ^ 40) other }
    ensures within { IsBounded (2 ^ 40) result }
    ensures one { result ≤ℤ one }
    ensures other { result ≤ℤ other }
{
    if other < one { other } else { one }
}

/// The greater of two places.
pub(crate) fn most(one: i64, other: i64) -> i64
    requires one { IsBounded (2 ^ 40) one }
    requires other { IsBounded (2 ^ 40) other }
    ensures within { IsBounded (2 ^ 40) result }
    ensures one { one ≤ℤ result }
    ensures other { other ≤ℤ result }
{
    if one < other { other } else { one }
}
