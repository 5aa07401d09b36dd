//! Provisional designations, as `2024 EA1`.

ghost use Rattle.std.specs.Prelude.{◌≡◌};
ghost use Rattle.packed_names.specs.Ranges.{IsHalfMonth, limit_of};

use crate::half_month::HalfMonth;

/// A provisional designation: a half-month, and a place in the order in which that half-month's designations are
/// given.
#[derive(Clone, Copy, Debug, PartialEq, Eq, PartialOrd, Ord)]
pub struct Provisional {
    /// The half-month of the discovery.
    pub half: HalfMonth,
    /// 1 for the first designation of the half-month; at most `limit(half)`.
    pub order: u32,
}

/// How many designations the half-month has: 14,791,836 in the years 2000 to 2061, and 15,500 in the others.
///
/// This many have a packed form. The half-month is of a year from 1925 to 2099, with an index from 0 to 23.
pub fn limit(half: HalfMonth) -> u32
    requires { IsHalfMonth half }
    ensures { result ≡ limit_of half }
{
    if half.year >= 2000 && half.year <= 2061 {
        14_791_836
    } else {
        15_500
    }
}
