//! Half-months, after which provisional designations are named.

ghost use Rattle.std.specs.Prelude.{◌≡◌, ◌≤◌, IfSome};
ghost use Rattle.obs_time.specs.declared.civil.Civil.{Civil};
ghost use Rattle.obs_time.specs.Dates.{IsCivilOf};
ghost use Rattle.obs_time.specs.Calendar.{half_of, half_month_of, IsHalf};
ghost use Rattle.obs_time.specs.Written.{date_part};

use crate::{Civil, Instant, civil_of};

/// The first year that has half-months.
const FIRST_YEAR: u16 = 1925;

/// The last year that has half-months.
const LAST_YEAR: u16 = 2099;

/// The last day of the first half of a month.
const LAST_DAY_OF_FIRST_HALF: u8 = 15;

/// The year of a moment, and the half-month that it lies in, 0 to 23: 0 for 1 to 15 January, 1 for the rest of January,
/// and so on. These are the letters A to Y without I of the Minor Planet Center's page on provisional designations.
/// None outside the years 1925 to 2099.
pub fn half_month(t: Instant) -> Option<(u16, u8)>
    ensures exact { result ≡ half_month_of t }
    ensures half { (civil : Civil) → IsCivilOf t civil → result ≡ half_of (date_part civil) }
    ensures range { IfSome result IsHalf }
{
    half_of(civil_of(t))
}

/// The half-month of a date, and its year.
#[tactic(auto, unfolding(crate::specs::Calendar::half_of))]
fn half_of(civil: Civil) -> Option<(u16, u8)>
    requires { (1 ≤ civil.month) × (civil.month ≤ 12) }
    ensures half { result ≡ half_of (date_part civil) }
    ensures range { IfSome result IsHalf }
{
    if civil.year < FIRST_YEAR || civil.year > LAST_YEAR {
        return None;
    }
    let first = 2 * (civil.month - 1);
    let half = if civil.day <= LAST_DAY_OF_FIRST_HALF {
        first
    } else {
        first + 1
    };
    Some((civil.year, half))
}
