//! Moments rounded to decimals of the day.

ghost use Rattle.std.specs.Prelude.{◌≡◌, ◌≤◌, ◌≤ℤ◌, ◌+ℤ◌, pos};
ghost use Rattle.obs_time.specs.Instants.{first_instant, last_instant};
ghost use Rattle.obs_time.specs.Dates.{IsCivilOf, day_of};
ghost use Rattle.obs_time.specs.Calendar.{date_of_day};
ghost use Rattle.obs_time.specs.Written.{date_part};
ghost use Rattle.obs_time.specs.DayText.{decimal_unit};
ghost use Rattle.obs_time.specs.Rounding.{rounded};

use crate::civil::{NS_PER_DAY, civil_at};
use crate::days::decimal_unit;
use crate::{Civil, Instant};

/// The multiple of the last decimal's unit that is nearest to a moment, in nanoseconds since 1970; of two equally near
/// ones the one farther from zero. It may be the first moment of the year 2200.
fn rounded(t: Instant, count: usize) -> i64
    requires { count ≤ 6 }
    ensures value { result ≡ rounded t (decimal_unit count) }
    ensures low { first_instant ≤ℤ result }
    ensures high { result ≤ℤ (last_instant +ℤ pos 1) }
{
    let unit = decimal_unit(count);
    let multiple = (t.ns().unsigned_abs() + unit / 2) / unit * unit;
    if t.ns() < 0 {
        -(multiple as i64)
    } else {
        multiple as i64
    }
}

/// The date and the time of day of a moment that is rounded to this many decimals of the day.
pub(crate) fn rounded_civil(t: Instant, count: usize) -> Civil
    requires { count ≤ 6 }
    ensures civil { IsCivilOf (rounded t (decimal_unit count)) result }
    ensures year { result.year ≤ 2200 }
    ensures date { date_part result ≡ date_of_day (day_of (rounded t (decimal_unit count))) }
{
    let ns = rounded(t, count);
    civil_at(
        ns.div_euclid(NS_PER_DAY) as i32,
        ns.rem_euclid(NS_PER_DAY) as u64,
    )
}
