//! Writing printed names.

ghost use Rattle.std.specs.Prelude.{◌≡◌, ◌+◌, ◌^◌, ◌<◌, ◌≤◌, ◌++◌, decimal};
ghost use Rattle.arrayvec.specs.ArrayVec.{array_vec_len};
ghost use Rattle.packed_names.specs.declared.number.TheConstants.{GREATEST_NUMBER};
ghost use Rattle.packed_names.specs.Ranges.{IsProvisional};
ghost use Rattle.packed_names.specs.Printed.{FitsPrintedHalf, half_text, cycle_text, provisional_text, suffix};
ghost use Rattle.packed_names.specs.Printed.{survey_text};

use crate::half_month::HalfMonth;
use crate::letters::letter_of;
use crate::provisional::Provisional;
use crate::survey::Survey;
use arrayvec::ArrayVec;
use ascii_text::digits::Radix;
use ascii_text::writing::{put_decimal, put_digits};

/// The printed form of a number.
#[tactic(auto, using(crate::proofs::DecimalLengths::length_decimal_eight))]
pub(crate) fn number_text(number: u32) -> ArrayVec<u8, 13>
    requires { number ≤ GREATEST_NUMBER }
    ensures { result.items ≡ decimal number }
{
    let mut text = ArrayVec::new();
    put_decimal(&mut text, u64::from(number));
    text
}

/// The year and the letter of a half-month.
#[tactic(auto, unfolding(crate::specs::Printed::half_text))]
pub(crate) fn half_text(half: HalfMonth) -> ArrayVec<u8, 13>
    requires { FitsPrintedHalf half }
    ensures text { result.items ≡ half_text half }
    ensures len { array_vec_len result ≡ 6 }
{
    let mut text = ArrayVec::new();
    put_digits(&mut text, Radix::Ten, 4, u64::from(half.year));
    text.push(b' ');
    text.push(letter_of(half.index));
    text
}

/// Writes a cycle; nothing for the first.
#[tactic(auto, using(crate::proofs::DecimalLengths::length_decimal_six), unfolding(crate::specs::Printed::cycle_text))]
fn put_cycle(text: &mut ArrayVec<u8, 13>, cycle: u32)
    requires room { array_vec_len text.old ≤ 7 }
    requires below { cycle < 10 ^ 6 }
    ensures { text.new.items ≡ text.old.items ++ cycle_text cycle }
{
    if cycle > 0 {
        put_decimal(text, u64::from(cycle));
    }
}

/// The printed form of a provisional designation.
#[tactic(auto, unfolding(crate::specs::Printed::provisional_text, crate::specs::Printed::half_text))]
pub(crate) fn provisional_text(provisional: Provisional) -> ArrayVec<u8, 13>
    requires { IsProvisional provisional }
    ensures { result.items ≡ provisional_text provisional }
{
    let cycle = (provisional.order - 1) / 25;
    let letter = (provisional.order - 1) % 25;
    let mut text = half_text(provisional.half);
    text.push(letter_of(letter as u8));
    put_cycle(&mut text, cycle);
    text
}

/// What a survey's designations end with.
#[tactic(auto, unfolding(crate::specs::Printed::suffix))]
fn suffix(survey: Survey) -> [u8; 3]
    ensures { result ≡ suffix survey }
{
    match survey {
        Survey::PalomarLeiden => *b"P-L",
        Survey::T1 => *b"T-1",
        Survey::T2 => *b"T-2",
        Survey::T3 => *b"T-3",
    }
}

/// The printed form of a survey designation.
#[tactic(auto,
// a number below 10,000 has at most four digits
using(crate::proofs::DecimalLengths::length_decimal_four), unfolding(crate::specs::Printed::survey_text))]
pub(crate) fn survey_text(survey: Survey, number: u16) -> ArrayVec<u8, 13>
    requires { number ≤ 9999 }
    ensures { result.items ≡ survey_text survey number }
{
    let [first, second, third] = suffix(survey);
    let mut text = ArrayVec::new();
    put_decimal(&mut text, u64::from(number));
    text.push(b' ');
    text.push(first);
    text.push(second);
    text.push(third);
    text
}
