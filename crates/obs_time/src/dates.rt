//! Dates as text.

ghost use Rattle.std.specs.Prelude.{◌≡◌, ◌+◌, List, Result, length, IfOk, IfSome, option_map, ℤ};
ghost use Rattle.obs_time.specs.declared.fault.TimeFault.{TimeFault};
ghost use Rattle.obs_time.specs.Dates.{IsObservedDay};
ghost use Rattle.obs_time.specs.DateText.{HasDigits, date_at, whole_date, judge_date, date_of, IsDateAnswer};
ghost use Rattle.obs_time.specs.Written.{written};

use crate::TimeFault;
use ascii_text::digits::Radix;
use ascii_text::reading::{behind, digits_at};
use jiff::civil::Date;

/// The first year that observations may have.
const FIRST_YEAR: u16 = 1800;

/// The last year that observations may have.
const LAST_YEAR: u16 = 2199;

/// The numbers that a date is written with. The calendar may have no such date.
#[derive(Clone, Copy)]
pub(crate) struct Numbers {
    year: u16,
    month: u8,
    day: u8,
}

/// The date at the front of a text, with this byte between its parts, and the text after it.
#[tactic(auto, unfolding(crate::specs::DateText::date_at))]
pub(crate) fn date_at(separator: u8, text: &[u8]) -> Option<(Numbers, &[u8])>
    ensures exact { option_map (λ x. (written x.0, x.1.now)) result ≡ date_at separator text.now }
    ensures digits { IfSome result (λ x. HasDigits (written x.0)) }
    ensures rest { IfSome result (λ x. length x.1.now + 10 ≡ length text.now) }
{
    let (year, rest) = digits_at(Radix::Ten, 4, text)?;
    let rest = behind(separator, rest)?;
    let (month, rest) = digits_at(Radix::Ten, 2, rest)?;
    let rest = behind(separator, rest)?;
    let (day, rest) = digits_at(Radix::Ten, 2, rest)?;
    let numbers = Numbers {
        year: year as u16,
        month: month as u8,
        day: day as u8,
    };
    Some((numbers, rest))
}

/// The day number of a date that observations may have.
#[tactic(auto, unfolding(crate::specs::DateText::judge_date))]
pub(crate) fn judge_date(date: Numbers) -> Result<i32, TimeFault>
    requires { HasDigits (written date) }
    ensures exact { result ≡ judge_date (written date) }
    ensures range { IfOk result IsObservedDay }
{
    if date.year < FIRST_YEAR || date.year > LAST_YEAR {
        return Err(TimeFault::Range);
    }
    match Date::new(date.year as i16, date.month as i8, date.day as i8) {
        Ok(date) => Ok(date.to_plain().to_unix_epoch_day()),
        Err(_) => Err(TimeFault::NoSuchDate),
    }
}

/// The date that is the whole text.
#[tactic(auto, unfolding(crate::specs::DateText::whole_date))]
fn whole_date(text: &[u8]) -> Option<Numbers>
    ensures exact { option_map written result ≡ whole_date text.now }
    ensures digits { IfSome result (λ x. HasDigits (written x)) }
{
    let (date, rest) = date_at(b'-', text)?;
    if rest.is_empty() { Some(date) } else { None }
}

/// The answer to a text of a date.
#[tactic(auto, unfolding(crate::specs::DateText::date_of, ascii_text::specs::Judged::answer_of))]
fn answer(text: &[u8]) -> Result<i32, TimeFault>
    ensures exact { result ≡ date_of text.now }
    ensures range { IfOk result IsObservedDay }
{
    match whole_date(text) {
        Some(date) => judge_date(date),
        None => Err(TimeFault::Spelling),
    }
}

/// Reads `YYYY-MM-DD`, an ISO 8601 calendar date of the years 1800 to 2199: the days from 1970-01-01, negative before.
///
/// # Errors
///
/// `Spelling` where the text is anything but four digits, a dash, two digits, a dash and two digits; else `Range` where
/// the year lies outside 1800 to 2199; else `NoSuchDate` where the calendar has no such date. `Decimals` never.
pub fn read_date(text: &[u8]) -> Result<i32, TimeFault>
    ensures exact { result ≡ date_of text.now }
    ensures range { IfOk result IsObservedDay }
    ensures answer { IsDateAnswer text.now result }
    ensures only { (other : Result ℤ TimeFault) → IsDateAnswer text.now other → other ≡ result }
{
    ascii_text::laws::texts();
    answer(text)
}
