//! The printed form of names.

ghost use Rattle.std.specs.Prelude.{◌≡◌, ◌↔◌, IfOk};
ghost use Rattle.packed_names.specs.Judging.{is_in_range, is_half_month, judge, answered};
ghost use Rattle.packed_names.specs.Labels.{IsLabelOf};
ghost use Rattle.packed_names.specs.Ranges.{IsName, IsHalfMonth};
ghost use Rattle.packed_names.specs.Printed.{printed_text, half_text, IsPrintedAs, HasPrintedShape, IsPrintedName};
ghost use Rattle.packed_names.specs.Printed.{IsHalfPrintedAs, HasPrintedHalfShape, IsPrintedHalf};
ghost use Rattle.packed_names.specs.PrintedReading.{printed_in, half_in};
ghost use Rattle.packed_names.specs.declared.name.Designation.TheVariants as designations;
ghost use Rattle.packed_names.specs.declared.name.Name.TheVariants as names;

use crate::half_month::HalfMonth;
use crate::label::Label;
use crate::name::{Designation, Name, NameFault, is_half_month, judged};
use crate::number::{GREATEST_NUMBER, Number};
use crate::survey::Survey;
use reading::{half_in, number_in, provisional_in, survey_in};
use writing::{half_text, number_text, provisional_text, survey_text};

mod reading;
mod writing;

/// The number, where it is in range.
fn number_judged(number: u64) -> Result<Name, NameFault>
    ensures exact { result ≡ judge is_in_range (names.Number (record { 0 = number })) }
    ensures in_range { IfOk result IsName }
{
    if number >= 1 && number <= u64::from(GREATEST_NUMBER) {
        Ok(Name::Number(Number(number as u32)))
    } else {
        Err(NameFault::OutOfRange)
    }
}

/// The survey designation, where its number is in range.
fn survey_judged(survey: Survey, number: u64) -> Result<Name, NameFault>
    ensures exact { result ≡ judge is_in_range (names.Designation (designations.Survey survey number)) }
    ensures in_range { IfOk result IsName }
{
    if number >= 1 && number <= 9999 {
        Ok(Name::Designation(Designation::Survey(survey, number as u16)))
    } else {
        Err(NameFault::OutOfRange)
    }
}

#[tactic(auto,
// the name that is printed, and what a reader answers
unfolding(crate::specs::PrintedReading::printed_in, crate::specs::PrintedReading::designation_in,
// of ascii_text
ascii_text::specs::Judged::answer_of))]
fn printed(text: &[u8]) -> Result<Name, NameFault>
    ensures exact { result ≡ answered is_in_range (printed_in text.now) }
    ensures in_range { IfOk result IsName }
{
    if let Some(number) = number_in(text) {
        return number_judged(number);
    }
    if let Some(provisional) = provisional_in(text) {
        return judged(Name::Designation(Designation::Provisional(provisional)));
    }
    match survey_in(text) {
        Some((survey, number)) => survey_judged(survey, number),
        None => Err(NameFault::Spelling),
    }
}

/// The name that the text is the printed form of, as the Minor Planet Center's page on new- and old-style designations
/// has it, with the cycle in the line of the letters.
///
/// Any other text is `OutOfRange` where it has the shape of a printed name, as `15396336` or `2100 EA`, and `Spelling`
/// where it has none, as `2024 EA0`.
///
/// # Errors
///
/// `OutOfRange` where the text has the shape of a printed name, `Spelling` where it has none.
pub fn read(text: &[u8]) -> Result<Name, NameFault>
    ensures exact { result ≡ answered is_in_range (printed_in text.now) }
    ensures in_range { IfOk result IsName }

    ensures name { (name : Name) → (result ≡ Ok name) ↔ IsPrintedAs name text.now }
    ensures out_of_range { (result ≡ Err NameFault.OutOfRange) ↔ (HasPrintedShape text.now × ¬ IsPrintedName text.now) }
    ensures spelling { (result ≡ Err NameFault.Spelling) ↔ (¬ HasPrintedShape text.now) }
{
    ascii_text::laws::texts();
    printed(text)
}

#[tactic(auto, unfolding(ascii_text::specs::Judged::answer_of))]
fn printed_half(text: &[u8]) -> Result<HalfMonth, NameFault>
    ensures exact { result ≡ answered is_half_month (half_in text.now) }
    ensures in_range { IfOk result IsHalfMonth }
{
    match half_in(text) {
        Some(half) if is_half_month(half) => Ok(half),
        Some(_) => Err(NameFault::OutOfRange),
        None => Err(NameFault::Spelling),
    }
}

/// The half-month that the text is the printed form of: year, blank, letter, as `2024 E`.
///
/// Any other text is `OutOfRange` where four digits, a blank and a half-month's letter make it up, and `Spelling` else.
///
/// # Errors
///
/// `OutOfRange` where the text has the shape of a half-month, `Spelling` where it has none.
pub fn read_half(text: &[u8]) -> Result<HalfMonth, NameFault>
    ensures exact { result ≡ answered is_half_month (half_in text.now) }
    ensures in_range { IfOk result IsHalfMonth }

    ensures half { (half : HalfMonth) → (result ≡ Ok half) ↔ IsHalfPrintedAs half text.now }
    ensures out_of_range { (result ≡ Err NameFault.OutOfRange)
        ↔ (HasPrintedHalfShape text.now × ¬ IsPrintedHalf text.now) }
    ensures spelling { (result ≡ Err NameFault.Spelling) ↔ (¬ HasPrintedHalfShape text.now) }
{
    ascii_text::laws::texts();
    printed_half(text)
}

/// The printed form of the name, which is in range.
pub fn print(name: Name) -> Label
    requires { IsName name }
    ensures { IsLabelOf (printed_text name) result }
{
    let text = match name {
        Name::Number(number) => number_text(number.0),
        Name::Designation(Designation::Provisional(provisional)) => provisional_text(provisional),
        Name::Designation(Designation::Survey(survey, number)) => survey_text(survey, number),
    };
    Label::of(text.as_slice())
}

/// The printed form of a half-month, which is in range: the year, a blank and the letter, as `2024 E`.
pub fn print_half(half: HalfMonth) -> Label
    requires { IsHalfMonth half }
    ensures { IsLabelOf (half_text half) result }
{
    Label::of(half_text(half).as_slice())
}
