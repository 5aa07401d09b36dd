//! By which observation an object is discovered, and in which half-month.

ghost use Rattle.std.specs.Prelude.{◌≡◌, ◌≤ℤ◌, IsTrue};
ghost use Rattle.packed_names.specs.Ranges.{IsHalfMonth};
ghost use Rattle.act_model.specs.Discoveries.{sooner, later, earliest, latest, half_of};
ghost use Rattle.object_rules.specs.Seeing.{is_of_years, AreOfYears};

use act_model::{Seen, is_sooner};
use obs_time::{Instant, half_month};
use packed_names::HalfMonth;

fn sooner<'s>(one: &'s Seen, other: &'s Seen) -> &'s Seen
    ensures sooner { result.now ≡ sooner one.now other.now }
    ensures before { result.now.time ≤ℤ one.now.time }
{
    if is_sooner(other, one) { other } else { one }
}

fn later<'s>(one: &'s Seen, other: &'s Seen) -> &'s Seen
    ensures later { result.now ≡ later one.now other.now }
    ensures after { one.now.time ≤ℤ result.now.time }
{
    if one.time < other.time { other } else { one }
}

/// The earliest of an observation and of further ones; of those of one time the one with the smallest number.
pub(crate) fn earliest<'s>(first: &'s Seen, more: &'s [Seen]) -> &'s Seen
    requires first { IsTrue (is_of_years first.now.time) }
    requires more { AreOfYears more.now }
    ensures earliest { result.now ≡ earliest first.now more.now }
    ensures before { result.now.time ≤ℤ first.now.time }
    ensures years { IsTrue (is_of_years result.now.time) }
{
    let mut found = first;
    for next in more {
        found = sooner(found, next);
    }
    found
}

/// The latest of an observation and of further ones.
pub(crate) fn latest<'s>(first: &'s Seen, more: &'s [Seen]) -> &'s Seen
    ensures latest { result.now ≡ latest first.now more.now }
    ensures after { first.now.time ≤ℤ result.now.time }
{
    let mut found = first;
    for next in more {
        found = later(found, next);
    }
    found
}

/// The half-month in which a moment of the years 1925 to 2099 lies, by its exact time.
#[tactic(auto,
// the half-month of the exact time
unfolding(act_model::specs::Discoveries::half_of, obs_time::specs::Calendar::half_month_of,
// by its date
obs_time::specs::Calendar::half_of, obs_time::specs::Calendar::date_of_day))]
pub(crate) fn half_of(time: Instant) -> HalfMonth
    requires { IsTrue (is_of_years time) }
    ensures half { result ≡ half_of time }
    ensures range { IsHalfMonth result }
{
    match half_month(time) {
        Some((year, index)) => HalfMonth { year, index },
        None => unreachable!(),
    }
}
