//! Writing packed names.

ghost use Rattle.std.specs.Prelude.{◌≡◌, ◌≤◌};
ghost use Rattle.packed_names.specs.declared.number.TheConstants.{GREATEST_NUMBER};
ghost use Rattle.packed_names.specs.Ranges.{IsProvisional};
ghost use Rattle.packed_names.specs.Packed.{number_text, century_text, extended_text, provisional_text, prefix};
ghost use Rattle.packed_names.specs.Packed.{survey_text, HasCenturyShape, HasExtendedShape};

use crate::letters::letter_of;
use crate::number::FIRST_LARGE;
use crate::provisional::Provisional;
use crate::survey::Survey;
use arrayvec::ArrayVec;
use ascii_text::digits::{Radix, byte_of};
use ascii_text::writing::put_digits;

/// The packed form of a number.
#[tactic(auto, unfolding(crate::specs::Packed::number_text))]
pub(crate) fn number_text(number: u32) -> ArrayVec<u8, 13>
    requires { number ≤ GREATEST_NUMBER }
    ensures { result.items ≡ number_text number }
{
    let mut text = ArrayVec::new();
    if number < 100_000 {
        put_digits(&mut text, Radix::Ten, 5, u64::from(number));
    } else if number < FIRST_LARGE {
        text.push(byte_of(Radix::SixtyTwo, (number / 10_000) as u8));
        put_digits(&mut text, Radix::Ten, 4, u64::from(number % 10_000));
    } else {
        text.push(b'~');
        put_digits(
            &mut text,
            Radix::SixtyTwo,
            4,
            u64::from(number - FIRST_LARGE),
        );
    }
    text
}

/// The form with a century letter.
#[tactic(auto, unfolding(crate::specs::Packed::century_text))]
fn century_text(provisional: Provisional) -> ArrayVec<u8, 13>
    requires { HasCenturyShape provisional }
    ensures { result.items ≡ century_text provisional }
{
    let half = provisional.half;
    let cycle = (provisional.order - 1) / 25;
    let letter = (provisional.order - 1) % 25;
    let mut text = ArrayVec::new();
    text.push((half.year / 100) as u8 + 55);
    put_digits(&mut text, Radix::Ten, 2, u64::from(half.year % 100));
    text.push(letter_of(half.index));
    text.push(byte_of(Radix::SixtyTwo, (cycle / 10) as u8));
    text.push(byte_of(Radix::Ten, (cycle % 10) as u8));
    text.push(letter_of(letter as u8));
    text
}

/// The form that begins with `_`.
#[tactic(auto, unfolding(crate::specs::Packed::extended_text))]
fn extended_text(provisional: Provisional) -> ArrayVec<u8, 13>
    requires { HasExtendedShape provisional }
    ensures { result.items ≡ extended_text provisional }
{
    let half = provisional.half;
    let mut text = ArrayVec::new();
    text.push(b'_');
    text.push(byte_of(Radix::SixtyTwo, (half.year - 2000) as u8));
    text.push(letter_of(half.index));
    put_digits(
        &mut text,
        Radix::SixtyTwo,
        4,
        u64::from(provisional.order - 15_501),
    );
    text
}

/// The packed form of a provisional designation.
#[tactic(auto, unfolding(crate::specs::Packed::provisional_text))]
pub(crate) fn provisional_text(provisional: Provisional) -> ArrayVec<u8, 13>
    requires { IsProvisional provisional }
    ensures { result.items ≡ provisional_text provisional }
{
    if provisional.order <= 15_500 {
        century_text(provisional)
    } else {
        extended_text(provisional)
    }
}

/// The letters that a survey's designations begin with.
#[tactic(auto, unfolding(crate::specs::Packed::prefix))]
fn prefix(survey: Survey) -> [u8; 3]
    ensures { result ≡ prefix survey }
{
    match survey {
        Survey::PalomarLeiden => *b"PLS",
        Survey::T1 => *b"T1S",
        Survey::T2 => *b"T2S",
        Survey::T3 => *b"T3S",
    }
}

/// The packed form of a survey designation.
#[tactic(auto, unfolding(crate::specs::Packed::survey_text))]
pub(crate) fn survey_text(survey: Survey, number: u16) -> ArrayVec<u8, 13>
    requires { number ≤ 9999 }
    ensures { result.items ≡ survey_text survey number }
{
    let mut text = ArrayVec::new();
    let [first, second, third] = prefix(survey);
    text.push(first);
    text.push(second);
    text.push(third);
    put_digits(&mut text, Radix::Ten, 4, u64::from(number));
    text
}
