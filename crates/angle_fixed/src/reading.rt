//! Reading sexagesimal texts of twelve bytes, as in the Minor Planet Center's description of optical astrometric
//! observations, columns 33-44 and 45-56.

ghost use Rattle.std.specs.Prelude.{◌≡◌, ◌+◌, ◌*◌, ◌/◌, ◌^◌, ◌<◌, ◌≤◌, length, ℕ, ℤ, Bool, Result, IfSome, option_map};
ghost use Rattle.ascii_text.specs.Judged.{answer_of};
ghost use Rattle.angle_fixed.specs.declared.fault.AngleFault.{AngleFault};
ghost use Rattle.angle_fixed.specs.Answer.{ReadsTime, ReadsArc};
ghost use Rattle.angle_fixed.specs.Angles.{arc_units, arcsecond, circle, second_of_time, time_units};
ghost use Rattle.angle_fixed.specs.Reading.{parts_at, sign_at, signed_parts_at, past_sixty, time_answer, arc_answer};
ghost use Rattle.angle_fixed.specs.Sexagesimal.{parts, IsBounded};

use crate::angle::{Dec, Ra};
use crate::fault::AngleFault;
use crate::units::{
    ARCMINUTE, ARCSECOND, DEGREE, HOUR, HUNDREDTH_OF_ARCSECOND, MINUTE_OF_TIME, QUARTER,
    SECOND_OF_TIME, THOUSANDTH_OF_SECOND,
};
use ascii_text::blanks::are_blanks;
use ascii_text::digits::Radix;
use ascii_text::reading::{Decimals, behind, decimals_at, digits_at};
use ascii_text::units::decimals_units;

// The most decimals of a second of time.
const MOST_OF_SECOND: usize = 3;

// The most decimals of an arcsecond.
const MOST_OF_ARCSECOND: usize = 2;

// What a sexagesimal text spells.
#[derive(Clone, Copy)]
pub(crate) struct Sexagesimal {
    pub(crate) whole: u64,
    pub(crate) minute: u64,
    pub(crate) second: u64,
    pub(crate) decimals: Decimals,
}

#[tactic(auto, unfolding(crate::specs::Reading::parts_at))]
fn parts_front(text: &[u8]) -> Option<Sexagesimal>
    requires { length text.now ≤ 18 }
    ensures exact { option_map (λ s. parts s) result ≡ parts_at text.now }
    ensures below { IfSome result (λ s. IsBounded s) }
{
    let (whole, rest) = digits_at(Radix::Ten, 2, text)?;
    let rest = behind(b' ', rest)?;
    let (minute, rest) = digits_at(Radix::Ten, 2, rest)?;
    let rest = behind(b' ', rest)?;
    let (second, rest) = digits_at(Radix::Ten, 2, rest)?;
    let (decimals, rest) = decimals_at(rest)?;
    if !are_blanks(rest) {
        return None;
    }
    Some(Sexagesimal {
        whole,
        minute,
        second,
        decimals,
    })
}

// The units of the decimals of a second of time.
fn time_decimals(decimals: Decimals) -> u64
    requires few { decimals.count ≤ 3 }
    requires digits { decimals.value < 10 ^ decimals.count }
    ensures value { result ≡ decimals.value * (second_of_time / 10 ^ decimals.count) }
    ensures below { result < second_of_time }
{
    decimals_units(decimals, MOST_OF_SECOND, THOUSANDTH_OF_SECOND)
}

// The units of the decimals of an arcsecond.
fn arc_decimals(decimals: Decimals) -> u64
    requires few { decimals.count ≤ 2 }
    requires digits { decimals.value < 10 ^ decimals.count }
    ensures value { result ≡ decimals.value * (arcsecond / 10 ^ decimals.count) }
    ensures below { result < arcsecond }
{
    decimals_units(decimals, MOST_OF_ARCSECOND, HUNDREDTH_OF_ARCSECOND)
}

#[tactic(auto, unfolding(crate::specs::Angles::time_units))]
fn time_units(s: Sexagesimal) -> u64
    requires bounded { IsBounded s }
    requires few { s.decimals.count ≤ 3 }
    ensures value { result ≡ time_units (parts s) }
    ensures within { s.whole ≤ 23 → s.minute ≤ 59 → s.second ≤ 59 → result < circle }
{
    s.whole * HOUR
        + s.minute * MINUTE_OF_TIME
        + s.second * SECOND_OF_TIME
        + time_decimals(s.decimals)
}

#[tactic(auto, unfolding(crate::specs::Angles::arc_units))]
fn arc_units(s: Sexagesimal) -> u64
    requires bounded { IsBounded s }
    requires few { s.decimals.count ≤ 2 }
    ensures value { result ≡ arc_units (parts s) }
{
    s.whole * DEGREE + s.minute * ARCMINUTE + s.second * ARCSECOND + arc_decimals(s.decimals)
}

fn is_past_sixty(s: Sexagesimal) -> bool
    ensures { result ≡ past_sixty (parts s) }
{
    s.minute > 59 || s.second > 59
}

#[tactic(auto, unfolding(crate::specs::Reading::time_answer))]
fn time_answer(s: Sexagesimal) -> Result<(Ra, u8), AngleFault>
    requires { IsBounded s }
    ensures { result ≡ time_answer (parts s) }
{
    if s.decimals.count > MOST_OF_SECOND {
        return Err(AngleFault::Decimals);
    }
    if s.whole > 23 || is_past_sixty(s) {
        return Err(AngleFault::Range);
    }
    Ok((Ra::of_units(time_units(s)), s.decimals.count as u8))
}

#[tactic(auto, unfolding(crate::specs::Reading::arc_answer))]
fn arc_answer(minus: bool, s: Sexagesimal) -> Result<(Dec, u8, bool), AngleFault>
    requires { IsBounded s }
    ensures { result ≡ arc_answer (minus, parts s) }
{
    if s.decimals.count > MOST_OF_ARCSECOND {
        return Err(AngleFault::Decimals);
    }
    let units = arc_units(s);
    if is_past_sixty(s) || units > QUARTER {
        return Err(AngleFault::Range);
    }
    Ok((Dec::of_signed(minus, units), s.decimals.count as u8, minus))
}

#[tactic(auto, unfolding(crate::specs::Reading::sign_at))]
fn sign_front(text: &[u8]) -> Option<(bool, &[u8])>
    ensures exact { option_map (λ x. (x.0, x.1.now)) result ≡ sign_at text.now }
    ensures rest { IfSome result (λ x. length x.1.now + 1 ≡ length text.now) }
{
    match text {
        [b'+', rest @ ..] => Some((false, rest)),
        [b'-', rest @ ..] => Some((true, rest)),
        _ => None,
    }
}

#[tactic(auto, unfolding(crate::specs::Reading::signed_parts_at))]
fn signed_parts_front(text: &[u8]) -> Option<(bool, Sexagesimal)>
    requires { length text.now ≤ 18 }
    ensures exact { option_map (λ x. (x.0, parts x.1)) result ≡ signed_parts_at text.now }
    ensures below { IfSome result (λ x. IsBounded x.1) }
{
    let (minus, rest) = sign_front(text)?;
    let s = parts_front(rest)?;
    Some((minus, s))
}

#[tactic(auto, unfolding(ascii_text::specs::Judged::answer_of))]
fn hms(text: &[u8]) -> Result<(Ra, u8), AngleFault>
    requires { length text.now ≤ 18 }
    ensures { result ≡ answer_of time_answer AngleFault.Spelling (parts_at text.now) }
{
    let Some(s) = parts_front(text) else {
        return Err(AngleFault::Spelling);
    };
    time_answer(s)
}

#[tactic(auto, unfolding(ascii_text::specs::Judged::answer_of))]
fn dms(text: &[u8]) -> Result<(Dec, u8, bool), AngleFault>
    requires { length text.now ≤ 18 }
    ensures { result ≡ answer_of arc_answer AngleFault.Spelling (signed_parts_at text.now) }
{
    let Some((minus, s)) = signed_parts_front(text) else {
        return Err(AngleFault::Spelling);
    };
    arc_answer(minus, s)
}

/// Reads a right ascension as columns 33-44 of an 80-column record have it: `HH MM SS`, or `HH MM SS.d` with up to
/// three decimals, then blanks. Gives it with the number of its decimals.
///
/// The fault is `Spelling` where the text has another shape, whatever the number of decimals; else `Decimals` where
/// they are more than three; else `Range` where hours are past 23, or minutes or seconds past 59.
///
/// # Errors
///
/// The first of `Spelling`, `Decimals` and `Range` that the text gives cause for.
pub fn read_hms(text: &[u8; 12]) -> Result<(Ra, u8), AngleFault>
    ensures exact { result ≡ answer_of time_answer AngleFault.Spelling (parts_at text.now) }
    ensures answer { ReadsTime text.now result }
    ensures only { (other : Result (ℕ × ℕ) AngleFault) → ReadsTime text.now other → result ≡ other }
{
    ascii_text::laws::texts();
    hms(text)
}

/// Reads a declination as columns 45-56 of an 80-column record have it: a sign, then `DD MM SS`, or `DD MM SS.d` with
/// up to two decimals, then blanks. Gives it with the number of its decimals, and whether a minus stood before it.
///
/// The fault is `Spelling` where the text has another shape, whatever the number of decimals; else `Decimals` where
/// they are more than two; else `Range` where minutes or seconds are past 59, or the value is over 90 degrees either
/// way.
///
/// # Errors
///
/// The first of `Spelling`, `Decimals` and `Range` that the text gives cause for.
pub fn read_dms(text: &[u8; 12]) -> Result<(Dec, u8, bool), AngleFault>
    ensures exact { result ≡ answer_of arc_answer AngleFault.Spelling (signed_parts_at text.now) }
    ensures answer { ReadsArc text.now result }
    ensures only { (other : Result (ℤ × ℕ × Bool) AngleFault) → ReadsArc text.now other → result ≡ other }
{
    ascii_text::laws::texts();
    dms(text)
}
