//! Moments as text: a date and decimals of the day.

ghost use Rattle.std.specs.Prelude.{◌≡◌, ◌*◌, ◌^◌, ◌<◌, ◌≤◌, Result, IfOk, IfSome, option_map, ℤ, ℕ};
ghost use Rattle.obs_time.specs.declared.fault.TimeFault.{TimeFault};
ghost use Rattle.obs_time.specs.Instants.{nanos_of_a_day};
ghost use Rattle.obs_time.specs.DateText.{HasDigits};
ghost use Rattle.obs_time.specs.DayText.{day_at, decimal_unit, judge_day, day_fraction_of, IsDayAnswer};
ghost use Rattle.obs_time.specs.Written.{written, written_day};

use crate::dates::{Numbers, date_at, judge_date};
use crate::{Instant, TimeFault};
use ascii_text::blanks::are_blanks;
use ascii_text::reading::decimals_at;
use ascii_text::units::place_units;

/// The greatest number of decimals of a day that are read.
const MOST_DECIMALS: usize = 6;

/// The nanoseconds of one in the last of this many decimals, 0.000001 day.
const LAST_DECIMAL: u64 = 86_400_000;

/// A date as it is written, with decimals of the day.
#[derive(Clone, Copy)]
struct Day {
    date: Numbers,
    count: usize,
    decimals: u64,
}

/// The day with decimals that is the whole text, but for blanks after it.
#[tactic(auto, unfolding(crate::specs::DayText::day_at))]
fn day_at(text: &[u8; 17]) -> Option<Day>
    ensures exact { option_map written_day result ≡ day_at text.now }
    ensures digits { IfSome result (λ x. HasDigits (written x.date)) }
    ensures below { IfSome result (λ x. x.decimals < 10 ^ x.count) }
{
    let (date, rest) = date_at(b' ', text)?;
    let (decimals, rest) = decimals_at(rest)?;
    if decimals.count == 0 || !are_blanks(rest) {
        return None;
    }
    Some(Day {
        date,
        count: decimals.count,
        decimals: decimals.value,
    })
}

/// The nanoseconds of one in the last place of this many decimals of a day.
pub(crate) fn decimal_unit(count: usize) -> u64
    requires { count ≤ 6 }
    ensures value { result ≡ decimal_unit count }
    ensures whole { result * 10 ^ count ≡ nanos_of_a_day }
{
    place_units(count, MOST_DECIMALS, LAST_DECIMAL)
}

/// The moment of a day with decimals, and their number.
#[tactic(auto, unfolding(crate::specs::DayText::judge_day))]
fn judge_day(day: Day) -> Result<(Instant, u8), TimeFault>
    requires digits { HasDigits (written day.date) }
    requires below { day.decimals < 10 ^ day.count }
    ensures { result ≡ judge_day (written_day day) }
{
    if day.count > MOST_DECIMALS {
        return Err(TimeFault::Decimals);
    }
    match judge_date(day.date) {
        Ok(number) => {
            let ns_of_day = day.decimals * decimal_unit(day.count);
            Ok((Instant::at(number, ns_of_day), day.count as u8))
        }
        Err(fault) => Err(fault),
    }
}

/// The answer to a text of a day with decimals.
#[tactic(auto, unfolding(crate::specs::DayText::day_fraction_of, ascii_text::specs::Judged::answer_of))]
fn answer(text: &[u8; 17]) -> Result<(Instant, u8), TimeFault>
    ensures { result ≡ day_fraction_of text.now }
{
    match day_at(text) {
        Some(day) => judge_day(day),
        None => Err(TimeFault::Spelling),
    }
}

/// Reads columns 16 to 32 of an 80-column record, as the Minor Planet Center's page on the format of optical
/// observations has them: `YYYY MM DD.d` with 1 to 6 decimals of the day, and blanks after. Gives the moment, which is
/// exact, and the number of decimals.
///
/// # Errors
///
/// `Spelling` where the text has not this shape, whatever the number of decimals; else `Decimals` where there are more
/// than six, which 17 bytes have no room for; else `Range` where the year lies outside 1800 to 2199; else `NoSuchDate`
/// where the calendar has no such date.
pub fn read_day_fraction(text: &[u8; 17]) -> Result<(Instant, u8), TimeFault>
    ensures exact { result ≡ day_fraction_of text.now }
    ensures decimals { IfOk result (λ read. (1 ≤ read.1) × (read.1 ≤ 6)) }
    ensures answer { IsDayAnswer text.now result }
    ensures only { (other : Result (ℤ × ℕ) TimeFault) → IsDayAnswer text.now other → other ≡ result }
{
    ascii_text::laws::texts();
    answer(text)
}
