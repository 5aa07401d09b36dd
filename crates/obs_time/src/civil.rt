//! The date and the time of day of a moment.

ghost use Rattle.std.specs.Prelude.{◌≡◌, ◌<◌, ◌≤◌, ◌≤ℤ◌, ◌<ℤ◌, ◌+ℤ◌, pos, neg_ℤ};
ghost use Rattle.obs_time.specs.Dates.{IsCivilOf, IsObservedDay, IsObservedYear, day_of, moment};
ghost use Rattle.obs_time.specs.Calendar.{date_of_day};
ghost use Rattle.obs_time.specs.Written.{date_part};
ghost use Rattle.obs_time.specs.Instants.{nanos_of_a_day};

use crate::Instant;
use jiff_core::civil::Date;

/// The nanoseconds of a day.
pub(crate) const NS_PER_DAY: i64 = 86_400_000_000_000;

/// The number of the first day that the calendar's library has, -9999-01-01.
const FIRST_DAY: i32 = -4_371_587;

/// A date of the Gregorian calendar and a time of day in UTC.
#[derive(Clone, Copy, Debug, PartialEq, Eq)]
pub struct Civil {
    /// The year, 1800 to 2199.
    pub year: u16,
    /// The month, 1 to 12.
    pub month: u8,
    /// The day of the month, from 1.
    pub day: u8,
    /// The nanoseconds since the start of the day, fewer than 86,400,000,000,000.
    pub ns_of_day: u64,
}

/// The day that a moment lies in: days from 1970-01-01, negative before.
pub fn day(t: Instant) -> i32
    ensures exact { result ≡ day_of t }
    ensures begun { moment result 0 ≤ℤ t }
    ensures not_over { t <ℤ moment (result +ℤ pos 1) 0 }
    ensures range { IsObservedDay result }
{
    t.ns().div_euclid(NS_PER_DAY) as i32
}

/// The date and the time of day of a moment.
pub fn civil_of(t: Instant) -> Civil
    ensures civil { IsCivilOf t result }
    ensures year { IsObservedYear result.year }
    ensures date { date_part result ≡ date_of_day (day_of t) }
{
    civil_at(day(t), t.ns().rem_euclid(NS_PER_DAY) as u64)
}

/// The date of a day number, and the time of day beside it. The first day after the year 2199 has one too.
pub(crate) fn civil_at(day: i32, ns_of_day: u64) -> Civil
    requires days { (neg_ℤ (pos 62_091) ≤ℤ day) × (day ≤ℤ pos 84_006) }
    requires time { ns_of_day < nanos_of_a_day }
    ensures civil { IsCivilOf (moment day ns_of_day) result }
    ensures year { (1800 ≤ result.year) × (result.year ≤ 2200) }
    ensures date { date_part result ≡ date_of_day day }
    ensures before_2200 { day ≤ℤ pos 84_005 → result.year ≤ 2199 }
{
    let date = Date::from_days_since_min((day - FIRST_DAY) as u32);
    Civil {
        year: date.year as u16,
        month: date.month,
        day: date.day,
        ns_of_day,
    }
}
