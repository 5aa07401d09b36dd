//! ISO 8601 times that are read.

ghost use Rattle.std.specs.Prelude.{◌≡◌, ◌+◌, ◌-◌, ◌*◌, ◌^◌, ◌<◌, ◌≤◌, Result, IfSome, IsTrue, option_map, ℤ};
ghost use Rattle.obs_time.specs.declared.fault.TimeFault.{TimeFault};
ghost use Rattle.obs_time.specs.Instants.{nanos_of_a_day};
ghost use Rattle.obs_time.specs.DateText.{HasDigits};
ghost use Rattle.obs_time.specs.IsoText.{ClockHasDigits, clock_at, time_at, iso_within, judge_iso, iso_of};
ghost use Rattle.obs_time.specs.IsoText.{nanos_of_a_second, seconds_of, ns_of_iso, is_time_of_day, IsIsoAnswer};
ghost use Rattle.obs_time.specs.Written.{written, written_clock, written_iso, written_time};

use crate::dates::{Numbers, date_at, judge_date};
use crate::{Instant, TimeFault};
use ascii_text::digits::Radix;
use ascii_text::reading::{Decimals, behind, decimals_within, digits_at};
use ascii_text::units::decimals_units;

/// The greatest number of decimals of a second that are read.
const MOST_DECIMALS: usize = 9;

/// The nanoseconds of a second.
pub(crate) const NS_PER_SECOND: u64 = 1_000_000_000;

/// The numbers that a time of day is written with. A day may have no such time.
#[derive(Clone, Copy)]
struct Clock {
    hour: u8,
    minute: u8,
    second: u8,
}

/// A date and a time of day as they are written.
#[derive(Clone, Copy)]
struct Time {
    date: Numbers,
    clock: Clock,
}

/// The time of day at the front of a text, and the text after it.
#[tactic(auto, unfolding(crate::specs::IsoText::clock_at))]
fn clock_at(text: &[u8]) -> Option<(Clock, &[u8])>
    ensures exact { option_map (λ x. (written_clock x.0, x.1.now)) result ≡ clock_at text.now }
    ensures digits { IfSome result (λ x. ClockHasDigits (written_clock x.0)) }
{
    let (hour, rest) = digits_at(Radix::Ten, 2, text)?;
    let rest = behind(b':', rest)?;
    let (minute, rest) = digits_at(Radix::Ten, 2, rest)?;
    let rest = behind(b':', rest)?;
    let (second, rest) = digits_at(Radix::Ten, 2, rest)?;
    let clock = Clock {
        hour: hour as u8,
        minute: minute as u8,
        second: second as u8,
    };
    Some((clock, rest))
}

/// The date and the time of day at the front of a text, and the text after them.
#[tactic(auto, unfolding(crate::specs::IsoText::time_at))]
fn time_at(text: &[u8]) -> Option<(Time, &[u8])>
    ensures exact { option_map (λ x. (written_time x.0, x.1.now)) result ≡ time_at text.now }
    ensures date { IfSome result (λ x. HasDigits (written x.0.date)) }
    ensures clock { IfSome result (λ x. ClockHasDigits (written_clock x.0.clock)) }
{
    let (date, rest) = date_at(b'-', text)?;
    let rest = behind(b'T', rest)?;
    let (clock, rest) = clock_at(rest)?;
    Some((Time { date, clock }, rest))
}

/// The date, the time of day and the decimals of the second where a Z ends the text; no decimals where they are too
/// many.
#[tactic(auto, unfolding(crate::specs::IsoText::iso_within))]
fn iso_within(text: &[u8]) -> Option<(Time, Option<Decimals>)>
    ensures exact { option_map (λ x. (written_time x.0, option_map (λ d. (d.count, d.value)) x.1)) result
        ≡ iso_within text.now }
    ensures date { IfSome result (λ x. HasDigits (written x.0.date)) }
    ensures clock { IfSome result (λ x. ClockHasDigits (written_clock x.0.clock)) }
    ensures below { IfSome result (λ x. IfSome x.1 (λ d. (d.count ≤ 9) × (d.value < 10 ^ d.count))) }
{
    let (time, rest) = time_at(text)?;
    let (decimals, rest) = decimals_within(MOST_DECIMALS, rest)?;
    let rest = behind(b'Z', rest)?;
    if rest.is_empty() {
        Some((time, decimals))
    } else {
        None
    }
}

/// Whether a day has the hour, the minute and the second.
fn is_time_of_day(clock: Clock) -> bool
    ensures { result ≡ is_time_of_day (written_clock clock) }
{
    clock.hour <= 23 && clock.minute <= 59 && clock.second <= 59
}

/// The seconds of the day before a time of day.
fn seconds_of(clock: Clock) -> u64
    requires { ClockHasDigits (written_clock clock) }
    ensures { result ≡ seconds_of (written_clock clock) }
{
    (u64::from(clock.hour) * 60 + u64::from(clock.minute)) * 60 + u64::from(clock.second)
}

/// The nanoseconds that decimals of a second are.
fn ns_of_decimals(decimals: Decimals) -> u64
    requires few { decimals.count ≤ 9 }
    requires below { decimals.value < 10 ^ decimals.count }
    ensures value { result ≡ decimals.value * 10 ^ (9 - decimals.count) }
    ensures within { result < nanos_of_a_second }
{
    decimals_units(decimals, MOST_DECIMALS, 1)
}

/// The nanoseconds of the day before a time of day with decimals.
fn ns_of(time: Time, decimals: Decimals) -> u64
    requires clock { ClockHasDigits (written_clock time.clock) }
    requires few { decimals.count ≤ 9 }
    requires below { decimals.value < 10 ^ decimals.count }
    ensures value { result ≡ ns_of_iso (written_iso time decimals) }
    ensures within { IsTrue (is_time_of_day (written_clock time.clock)) → result < nanos_of_a_day }
{
    seconds_of(time.clock) * NS_PER_SECOND + ns_of_decimals(decimals)
}

/// The moment of a date, a time of day and decimals of the second.
#[tactic(auto, unfolding(crate::specs::IsoText::judge_iso))]
fn judge_iso(time: Time, decimals: Decimals) -> Result<Instant, TimeFault>
    requires date { HasDigits (written time.date) }
    requires clock { ClockHasDigits (written_clock time.clock) }
    requires few { decimals.count ≤ 9 }
    requires below { decimals.value < 10 ^ decimals.count }
    ensures { result ≡ judge_iso (written_iso time decimals) }
{
    if !is_time_of_day(time.clock) {
        return Err(TimeFault::Range);
    }
    match judge_date(time.date) {
        Ok(number) => Ok(Instant::at(number, ns_of(time, decimals))),
        Err(fault) => Err(fault),
    }
}

/// The answer to a text of an ISO time.
fn answer(text: &[u8]) -> Result<Instant, TimeFault>
    ensures { result ≡ iso_of text.now }
{
    match iso_within(text) {
        Some((time, Some(decimals))) => judge_iso(time, decimals),
        Some((_, None)) => Err(TimeFault::Decimals),
        None => Err(TimeFault::Spelling),
    }
}

/// Reads `YYYY-MM-DDThh:mm:ssZ`, a date and time of ISO 8601 in UTC of the years 1800 to 2199, or with a point and 1 to
/// 9 decimals of the second before the Z: the moment, which is exact. The text may be of any length.
///
/// # Errors
///
/// `Spelling` where the text has not this shape, whatever the number of decimals; else `Decimals` where there are more
/// than nine; else `Range` where the year lies outside 1800 to 2199, the hour past 23, or the minute or the second past
/// 59; else `NoSuchDate` where the calendar has no such date.
pub fn read_iso(text: &[u8]) -> Result<Instant, TimeFault>
    ensures exact { result ≡ iso_of text.now }
    ensures answer { IsIsoAnswer text.now result }
    ensures only { (other : Result ℤ TimeFault) → IsIsoAnswer text.now other → other ≡ result }
{
    ascii_text::laws::texts();
    answer(text)
}
