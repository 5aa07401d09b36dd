//! Reading printed names: the values that a text shows.

ghost use Rattle.std.specs.Prelude.{◌≡◌, ◌<◌, ◌^◌, IfSome, option_map};
ghost use Rattle.packed_names.specs.PrintedReading.{number_in, half_at, half_in, cycle_in, provisional_in, suffix_of};
ghost use Rattle.packed_names.specs.PrintedReading.{suffix_in, survey_in};

use crate::half_month::HalfMonth;
use crate::letters::letter_at;
use crate::provisional::Provisional;
use crate::survey::Survey;
use ascii_text::digits::Radix;
use ascii_text::reading::{behind, digits_at, number_at};

/// The number that a printed number shows, of at most ten digits.
#[tactic(auto, unfolding(crate::specs::PrintedReading::number_in))]
pub(crate) fn number_in(text: &[u8]) -> Option<u64>
    ensures { result ≡ number_in text.now }
{
    let (number, rest) = number_at(10, text)?;
    if rest.is_empty() { Some(number) } else { None }
}

/// The year and the letter at the front, and the text after them.
#[tactic(auto, unfolding(crate::specs::PrintedReading::half_at))]
fn half_at(text: &[u8]) -> Option<(HalfMonth, &[u8])>
    ensures { option_map (λ x. (x.0, x.1.now)) result ≡ half_at text.now }
{
    let (year, rest) = digits_at(Radix::Ten, 4, text)?;
    let rest = behind(b' ', rest)?;
    let (index, rest) = letter_at(24, rest)?;
    let half = HalfMonth {
        year: year as u16,
        index,
    };
    Some((half, rest))
}

/// The year and the letter that a printed half-month shows.
#[tactic(auto, unfolding(crate::specs::PrintedReading::half_in))]
pub(crate) fn half_in(text: &[u8]) -> Option<HalfMonth>
    ensures { result ≡ half_in text.now }
{
    let (half, rest) = half_at(text)?;
    if rest.is_empty() { Some(half) } else { None }
}

/// The cycle at the end of a provisional designation, of at most seven digits; 0 where nothing stands there.
#[tactic(auto, unfolding(crate::specs::PrintedReading::cycle_in))]
fn cycle_in(text: &[u8]) -> Option<u32>
    ensures value { result ≡ cycle_in text.now }
    ensures below { IfSome result (λ cycle. cycle < 10 ^ 7) }
{
    if text.is_empty() {
        return Some(0);
    }
    let (cycle, rest) = number_at(7, text)?;
    if cycle == 0 {
        return None;
    }
    if rest.is_empty() {
        Some(cycle as u32)
    } else {
        None
    }
}

/// The year, half-month and order that a printed provisional designation shows.
#[tactic(auto, unfolding(crate::specs::PrintedReading::provisional_in))]
pub(crate) fn provisional_in(text: &[u8]) -> Option<Provisional>
    ensures { result ≡ provisional_in text.now }
{
    let (half, rest) = half_at(text)?;
    let (letter, rest) = letter_at(25, rest)?;
    let cycle = cycle_in(rest)?;
    let order = 25 * cycle + u32::from(letter) + 1;
    Some(Provisional { half, order })
}

/// The survey that three characters stand for.
#[tactic(auto, unfolding(crate::specs::PrintedReading::suffix_of))]
fn suffix_of(first: u8, second: u8, third: u8) -> Option<Survey>
    ensures { result ≡ suffix_of first second third }
{
    match (first, second, third) {
        (b'P', b'-', b'L') => Some(Survey::PalomarLeiden),
        (b'T', b'-', b'1') => Some(Survey::T1),
        (b'T', b'-', b'2') => Some(Survey::T2),
        (b'T', b'-', b'3') => Some(Survey::T3),
        _ => None,
    }
}

/// The survey that a text stands for.
#[tactic(auto, unfolding(crate::specs::PrintedReading::suffix_in))]
fn suffix_in(text: &[u8]) -> Option<Survey>
    ensures { result ≡ suffix_in text.now }
{
    match text {
        [first, second, third] => suffix_of(*first, *second, *third),
        _ => None,
    }
}

/// The survey and the number that a printed survey designation shows, of at most five digits.
#[tactic(auto, unfolding(crate::specs::PrintedReading::survey_in))]
pub(crate) fn survey_in(text: &[u8]) -> Option<(Survey, u64)>
    ensures { result ≡ survey_in text.now }
{
    let (number, rest) = number_at(5, text)?;
    let letters = behind(b' ', rest)?;
    let survey = suffix_in(letters)?;
    Some((survey, number))
}
