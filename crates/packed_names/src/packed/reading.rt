//! Reading packed names: the values that a text shows.

ghost use Rattle.std.specs.Prelude.{◌≡◌, ◌<◌, ◌≤◌, length, IfSome, option_map};
ghost use Rattle.packed_names.specs.PackedReading.{small_number_in, large_number_in, number_in, century_at};
ghost use Rattle.packed_names.specs.PackedReading.{century_half_at, century_order_in, century_form_in};
ghost use Rattle.packed_names.specs.PackedReading.{extended_form_in, provisional_in, survey_of, survey_at, survey_in};
ghost use Rattle.packed_names.specs.PackedReading.{designation_in, packed_in};

use crate::half_month::HalfMonth;
use crate::letters::letter_at;
use crate::name::{Designation, Name};
use crate::number::{FIRST_LARGE, Number};
use crate::provisional::Provisional;
use crate::survey::Survey;
use ascii_text::digits::Radix;
use ascii_text::reading::{behind, digits_at};

/// A number below 620,000: a digit of base 62, and four of base 10.
#[tactic(auto, unfolding(crate::specs::PackedReading::small_number_in))]
fn small_number_in(text: &[u8]) -> Option<u32>
    ensures { result ≡ small_number_in text.now }
{
    let (front, rest) = digits_at(Radix::SixtyTwo, 1, text)?;
    let (units, rest) = digits_at(Radix::Ten, 4, rest)?;
    if rest.is_empty() {
        Some(10_000 * front as u32 + units as u32)
    } else {
        None
    }
}

/// A number from 620,000 on: `~`, and four digits of base 62.
#[tactic(auto, unfolding(crate::specs::PackedReading::large_number_in))]
fn large_number_in(text: &[u8]) -> Option<u32>
    ensures { result ≡ large_number_in text.now }
{
    let digits = behind(b'~', text)?;
    let (number, rest) = digits_at(Radix::SixtyTwo, 4, digits)?;
    if rest.is_empty() {
        Some(FIRST_LARGE + number as u32)
    } else {
        None
    }
}

/// The number that a packed number shows.
#[tactic(auto, unfolding(crate::specs::PackedReading::number_in))]
fn number_in(text: &[u8]) -> Option<u32>
    ensures { result ≡ number_in text.now }
{
    match small_number_in(text) {
        Some(number) => Some(number),
        None => large_number_in(text),
    }
}

/// The century at the front, as 20 for K, and the text after its letter.
#[tactic(auto, unfolding(crate::specs::PackedReading::century_at))]
fn century_at(text: &[u8]) -> Option<(u16, &[u8])>
    ensures value { option_map (λ x. (x.0, x.1.now)) result ≡ century_at text.now }
    ensures below { IfSome result (λ x. x.0 ≤ 20) }
{
    match text {
        [letter @ b'I'..=b'K', rest @ ..] => Some((u16::from(*letter) - 55, rest)),
        _ => None,
    }
}

/// The half-month at the front of the form with a century letter, and the text after it.
#[tactic(auto, unfolding(crate::specs::PackedReading::century_half_at))]
fn century_half_at(text: &[u8]) -> Option<(HalfMonth, &[u8])>
    ensures { option_map (λ x. (x.0, x.1.now)) result ≡ century_half_at text.now }
{
    let (century, rest) = century_at(text)?;
    let (year, rest) = digits_at(Radix::Ten, 2, rest)?;
    let (index, rest) = letter_at(24, rest)?;
    let half = HalfMonth {
        year: 100 * century + year as u16,
        index,
    };
    Some((half, rest))
}

/// The order at the end of the form with a century letter: a cycle, and an order letter.
#[tactic(auto, unfolding(crate::specs::PackedReading::century_order_in))]
fn century_order_in(text: &[u8]) -> Option<u32>
    ensures { result ≡ century_order_in text.now }
{
    let (tens, rest) = digits_at(Radix::SixtyTwo, 1, text)?;
    let (units, rest) = digits_at(Radix::Ten, 1, rest)?;
    let (letter, rest) = letter_at(25, rest)?;
    if rest.is_empty() {
        Some(25 * (10 * tens as u32 + units as u32) + u32::from(letter) + 1)
    } else {
        None
    }
}

/// A designation with a century letter.
#[tactic(auto, unfolding(crate::specs::PackedReading::century_form_in))]
fn century_form_in(text: &[u8]) -> Option<Provisional>
    ensures { result ≡ century_form_in text.now }
{
    let (half, rest) = century_half_at(text)?;
    let order = century_order_in(rest)?;
    Some(Provisional { half, order })
}

/// A designation that begins with `_`.
#[tactic(auto, unfolding(crate::specs::PackedReading::extended_form_in))]
fn extended_form_in(text: &[u8]) -> Option<Provisional>
    ensures { result ≡ extended_form_in text.now }
{
    let rest = behind(b'_', text)?;
    let (year, rest) = digits_at(Radix::SixtyTwo, 1, rest)?;
    let (index, rest) = letter_at(24, rest)?;
    let (order, rest) = digits_at(Radix::SixtyTwo, 4, rest)?;
    if rest.is_empty() {
        let half = HalfMonth {
            year: 2000 + year as u16,
            index,
        };
        Some(Provisional {
            half,
            order: 15_501 + order as u32,
        })
    } else {
        None
    }
}

/// The year, half-month and order that a packed provisional designation shows.
#[tactic(auto, unfolding(crate::specs::PackedReading::provisional_in))]
fn provisional_in(text: &[u8]) -> Option<Provisional>
    ensures { result ≡ provisional_in text.now }
{
    match century_form_in(text) {
        Some(provisional) => Some(provisional),
        None => extended_form_in(text),
    }
}

/// The survey that three letters stand for.
#[tactic(auto, unfolding(crate::specs::PackedReading::survey_of))]
fn survey_of(first: u8, second: u8, third: u8) -> Option<Survey>
    ensures { result ≡ survey_of first second third }
{
    match (first, second, third) {
        (b'P', b'L', b'S') => Some(Survey::PalomarLeiden),
        (b'T', b'1', b'S') => Some(Survey::T1),
        (b'T', b'2', b'S') => Some(Survey::T2),
        (b'T', b'3', b'S') => Some(Survey::T3),
        _ => None,
    }
}

/// The survey whose letters stand at the front, and the text after them.
#[tactic(auto, unfolding(crate::specs::PackedReading::survey_at))]
fn survey_at(text: &[u8]) -> Option<(Survey, &[u8])>
    ensures { option_map (λ x. (x.0, x.1.now)) result ≡ survey_at text.now }
{
    match text {
        [first, second, third, rest @ ..] => {
            let survey = survey_of(*first, *second, *third)?;
            Some((survey, rest))
        }
        _ => None,
    }
}

/// The survey and the number that a packed survey designation shows.
#[tactic(auto, unfolding(crate::specs::PackedReading::survey_in))]
fn survey_in(text: &[u8]) -> Option<(Survey, u16)>
    ensures { result ≡ survey_in text.now }
{
    let (survey, rest) = survey_at(text)?;
    let (number, rest) = digits_at(Radix::Ten, 4, rest)?;
    if rest.is_empty() {
        Some((survey, number as u16))
    } else {
        None
    }
}

/// The values that a packed designation shows.
#[tactic(auto, unfolding(crate::specs::PackedReading::designation_in))]
fn designation_in(text: &[u8]) -> Option<Designation>
    ensures { result ≡ designation_in text.now }
{
    if let Some(provisional) = provisional_in(text) {
        return Some(Designation::Provisional(provisional));
    }
    let (survey, number) = survey_in(text)?;
    Some(Designation::Survey(survey, number))
}

/// The values that a packed name shows, in range or not.
#[tactic(auto, unfolding(crate::specs::PackedReading::packed_in))]
pub(crate) fn packed_in(text: &[u8]) -> Option<Name>
    ensures { result ≡ packed_in text.now }
{
    if text.len() == 5 {
        let number = number_in(text)?;
        Some(Name::Number(Number(number)))
    } else {
        let designation = designation_in(text)?;
        Some(Name::Designation(designation))
    }
}
