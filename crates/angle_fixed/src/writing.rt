//! Writing sexagesimal texts of twelve bytes, without memory.

ghost use Rattle.std.specs.Prelude.{◌≡◌, ◌+◌, ◌-◌, ◌*◌, ◌%◌, ◌^◌, ◌<◌, ◌≤◌, ◌++◌, length, List, ℕ, Ok, nat_abs};
ghost use Rattle.arrayvec.specs.ArrayVec.{array_vec_len};
ghost use Rattle.ascii_text.specs.Digits.{decimals_width};
ghost use Rattle.angle_fixed.specs.Angles.{arcsecond, circle, quarter, second_of_time, sign_byte, spelling};
ghost use Rattle.angle_fixed.specs.Answer.{ReadsTime, ReadsArc};
ghost use Rattle.angle_fixed.specs.Sexagesimal.{parts, IsBounded};
ghost use Rattle.angle_fixed.specs.Writing.{nearest, last_unit, parts_of, rounded_time, time_text, has_minus};
ghost use Rattle.angle_fixed.specs.Writing.{rounded_arc, arc_text};

use crate::angle::{Dec, Ra};
use crate::reading::Sexagesimal;
use crate::units::{ARCSECOND, SECOND_OF_TIME};
use arrayvec::ArrayVec;
use ascii_text::digits::Radix;
use ascii_text::reading::Decimals;
use ascii_text::writing::{put_blanks, put_decimals, put_digits};

// How many steps are nearest to the value; of two that are equally near the greater.
pub(crate) fn nearest(value: u64, step: u64) -> u64
    requires value { value < 2 ^ 62 }
    requires some { 0 < step }
    requires step { step < 2 ^ 62 }
    ensures { result ≡ nearest value step }
{
    (2 * value + step) / (2 * step)
}

fn parts_of(count: usize, steps: u64) -> Sexagesimal
    requires few { count ≤ 3 }
    requires below { steps < 360000 * 10 ^ count }
    ensures parts { parts result ≡ parts_of count steps }
    ensures bounded { IsBounded result }
{
    let unit = 10u64.pow(count as u32);
    let seconds = steps / unit;
    let minutes = seconds / 60;
    Sexagesimal {
        whole: minutes / 60,
        minute: minutes % 60,
        second: seconds % 60,
        decimals: Decimals {
            count,
            value: steps % unit,
        },
    }
}

// Writes the parts, and blanks up to the end.
fn put_parts(out: &mut ArrayVec<u8, 12>, s: Sexagesimal)
    requires room { array_vec_len out.old + decimals_width s.decimals.count ≤ 4 }
    requires few { s.decimals.count ≤ 3 }
    requires bounded { IsBounded s }
    ensures text { out.new.items ≡ out.old.items ++ spelling (parts s)
        (4 - (array_vec_len out.old + decimals_width s.decimals.count)) }
    ensures len { array_vec_len out.new ≡ 12 }
{
    put_digits(out, Radix::Ten, 2, s.whole);
    put_blanks(out, 1);
    put_digits(out, Radix::Ten, 2, s.minute);
    put_blanks(out, 1);
    put_digits(out, Radix::Ten, 2, s.second);
    put_decimals(out, s.decimals);
    let left = 12 - out.len();
    put_blanks(out, left);
}

// The twelve bytes.
fn twelve(out: &ArrayVec<u8, 12>) -> [u8; 12]
    requires { array_vec_len out.now ≡ 12 }
    ensures { result ≡ out.now.items }
{
    let mut text = [b' '; 12];
    text.copy_from_slice(out.as_slice());
    text
}

// 10 to this power.
fn power_of_ten(decimals: u8) -> u64
    requires { decimals ≤ 3 }
    ensures value { result ≡ 10 ^ decimals }
    ensures some { 0 < result }
    ensures most { result ≤ 1000 }
{
    match decimals {
        0 => 1,
        1 => 10,
        2 => 100,
        _ => 1000,
    }
}

// The units of the last decimal that are nearest to a right ascension, within the day.
fn time_steps(units: u64, decimals: u8) -> u64
    requires few { decimals ≤ 3 }
    requires within { units < circle }
    ensures value { result ≡ nearest units (last_unit second_of_time decimals) % (86400 * 10 ^ decimals) }
    ensures below { result < 86400 * 10 ^ decimals }
{
    let unit = power_of_ten(decimals);
    nearest(units, SECOND_OF_TIME / unit) % (86_400 * unit)
}

// The units of the last decimal that are nearest to an angle.
#[tactic(auto, using(crate::proofs::Rounding::nearest_arc_within))]
fn arc_steps(units: u64, decimals: u8) -> u64
    requires few { decimals ≤ 2 }
    requires within { units ≤ quarter }
    ensures value { result ≡ nearest units (last_unit arcsecond decimals) }
    ensures below { result ≤ 324000 * 10 ^ decimals }
{
    let unit = power_of_ten(decimals);
    nearest(units, ARCSECOND / unit)
}

fn has_minus(dec: Dec, minus: bool) -> bool
    ensures { result ≡ has_minus dec minus }
{
    let units = dec.units();
    if units == 0 { minus } else { units < 0 }
}

pub(crate) fn sign_byte(minus: bool) -> u8
    ensures { result ≡ sign_byte minus }
{
    if minus { b'-' } else { b'+' }
}

#[tactic(auto, unfolding(crate::specs::Writing::time_text))]
fn time_text(ra: Ra, decimals: u8) -> [u8; 12]
    requires { decimals ≤ 3 }
    ensures text { result ≡ time_text ra decimals }
    ensures within { ra < circle }
{
    let steps = time_steps(ra.units() as u64, decimals);
    let mut out = ArrayVec::new();
    put_parts(&mut out, parts_of(usize::from(decimals), steps));
    twelve(&out)
}

#[tactic(auto, using(crate::proofs::Rounding::power_of_ten_positive), unfolding(crate::specs::Writing::arc_text))]
fn arc_text(dec: Dec, decimals: u8, minus: bool) -> [u8; 12]
    requires { decimals ≤ 2 }
    ensures text { result ≡ arc_text dec decimals minus }
    ensures within { nat_abs dec ≤ quarter }
{
    let steps = arc_steps(dec.units().unsigned_abs(), decimals);
    let mut out = ArrayVec::new();
    out.push(sign_byte(has_minus(dec, minus)));
    put_parts(&mut out, parts_of(usize::from(decimals), steps));
    twelve(&out)
}

/// Writes a right ascension as columns 33-44 of an 80-column record have it: `HH MM SS`, a point and the decimals if
/// there are any, at most three, and blanks. The value is rounded half away from zero to the last decimal, and carried
/// into seconds, minutes and hours; 24 hours are written as 0.
pub fn write_hms(ra: Ra, decimals: u8) -> [u8; 12]
    requires { decimals ≤ 3 }
    ensures exact { result ≡ time_text ra decimals }
    ensures read { ReadsTime result (Ok (rounded_time ra decimals, decimals)) }
    ensures again { (text : List ℕ) → length text ≡ 12 → ReadsTime text (Ok (ra, decimals)) → result ≡ text }
{
    ascii_text::laws::texts();
    time_text(ra, decimals)
}

/// Writes a declination as columns 45-56 of an 80-column record have it: a sign, `DD MM SS`, a point and the decimals
/// if there are any, at most two, and blanks. The value is rounded half away from zero to the last decimal, and carried
/// into arcseconds, arcminutes and degrees. The sign is `-` exactly where the value is negative, or where it is zero
/// and
/// `minus` is true.
pub fn write_dms(dec: Dec, decimals: u8, minus: bool) -> [u8; 12]
    requires { decimals ≤ 2 }
    ensures exact { result ≡ arc_text dec decimals minus }
    ensures read { ReadsArc result (Ok (rounded_arc dec decimals, decimals, has_minus dec minus)) }
    ensures again { (text : List ℕ) → length text ≡ 12 → ReadsArc text (Ok (dec, decimals, minus)) → result ≡ text }
{
    ascii_text::laws::texts();
    arc_text(dec, decimals, minus)
}
