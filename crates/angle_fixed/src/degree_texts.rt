//! Writing degrees with twelve decimals, without memory.

ghost use Rattle.std.specs.Prelude.{◌≡◌, ◌+◌, ◌-◌, ◌*◌, ◌/◌, ◌%◌, ◌^◌, ◌<◌, ◌≤◌, ◌++◌, ℕ, List, Ok, length, nat_abs};
ghost use Rattle.std.specs.Prelude.{slice_index};
ghost use Rattle.arrayvec.specs.ArrayVec.{array_vec_len};
ghost use Rattle.ascii_text.specs.Blanks.{blanks, trimmed_end};
ghost use Rattle.angle_fixed.specs.Angles.{circle, quarter, sign_byte};
ghost use Rattle.angle_fixed.specs.Degrees.{ReadsDecDegrees, ReadsRaDegrees, dec_degrees_of, degree_units};
ghost use Rattle.angle_fixed.specs.Degrees.{ra_degrees_of};
ghost use Rattle.angle_fixed.specs.Degrees.{plain_digits, ra_steps, twelfth_decimal, twelve_decimals};
ghost use Rattle.angle_fixed.specs.Degrees.{dec_degrees_text, ra_degrees_text, rounded_dec_degrees, rounded_ra_degrees};
ghost use Rattle.ascii_text.specs.DecimalNumbers.{NumberParts, IsSpelledNumber, number_spelling};
ghost use Rattle.ascii_text.specs.Written.{number_parts};
ghost use Rattle.angle_fixed.specs.WrittenDegrees.{IsBoundedDegrees};
ghost use Rattle.angle_fixed.specs.Writing.{is_negative, nearest};

use crate::angle::{Dec, Ra};
use crate::units::TWELFTH_DECIMAL;
use crate::writing::{nearest, sign_byte};
use arrayvec::ArrayVec;
use ascii_text::digits::Radix;
use ascii_text::numbers::DecimalNumber;
use ascii_text::reading::Decimals;
use ascii_text::writing::{put_blanks, put_decimals, put_digits};

// A degree, in units of its twelfth decimal.
const STEPS_OF_A_DEGREE: u64 = 1_000_000_000_000;

// 360 degrees, in units of the twelfth decimal.
const STEPS_OF_A_CIRCLE: u64 = 360_000_000_000_000;

fn plain_digits(whole: u64) -> usize
    ensures value { result ≡ plain_digits whole }
    ensures most { result ≤ 3 }
    ensures enough { whole < 1000 → whole < 10 ^ result }
{
    match whole {
        0..=9 => 1,
        10..=99 => 2,
        _ => 3,
    }
}

fn twelve_decimals(digits: usize, steps: u64) -> DecimalNumber
    requires few { digits ≤ 3 }
    requires below { steps / 10 ^ 12 < 10 ^ digits }
    ensures parts { number_parts result ≡ twelve_decimals digits steps }
    ensures bounded { IsBoundedDegrees result }
    ensures twelve { result.decimals.count ≡ 12 }
{
    DecimalNumber {
        digits,
        whole: steps / STEPS_OF_A_DEGREE,
        decimals: Decimals {
            count: 12,
            value: steps % STEPS_OF_A_DEGREE,
        },
    }
}

// Writes the digits, the point and the twelve decimals.
#[tactic(auto, unfolding(ascii_text::specs::DecimalNumbers::number_spelling))]
fn put_degrees(out: &mut ArrayVec<u8, 16>, d: DecimalNumber)
    requires room { array_vec_len out.old + d.digits ≤ 3 }
    requires bounded { IsBoundedDegrees d }
    requires twelve { d.decimals.count ≡ 12 }
    ensures text { out.new.items ≡ out.old.items ++ number_spelling (number_parts d) }
    ensures len { array_vec_len out.new ≡ array_vec_len out.old + d.digits + 13 }
{
    put_digits(out, Radix::Ten, d.digits, d.whole);
    put_decimals(out, d.decimals);
}

// The sixteen bytes.
fn sixteen(out: &ArrayVec<u8, 16>) -> [u8; 16]
    requires { array_vec_len out.now ≡ 16 }
    ensures { result ≡ out.now.items }
{
    let mut text = [b' '; 16];
    text.copy_from_slice(out.as_slice());
    text
}

// The units of the twelfth decimal that are nearest to a right ascension, within the circle.
fn ra_steps(units: u64) -> u64
    requires { units < circle }
    ensures value { result ≡ ra_steps units }
    ensures below { result < 360 * 10 ^ 12 }
{
    nearest(units, TWELFTH_DECIMAL) % STEPS_OF_A_CIRCLE
}

// The units of the twelfth decimal that are nearest to an angle.
fn dec_steps(units: u64) -> u64
    requires { units ≤ quarter }
    ensures value { result ≡ nearest units twelfth_decimal }
    ensures below { result ≤ 90 * 10 ^ 12 }
{
    nearest(units, TWELFTH_DECIMAL)
}

fn is_negative(dec: Dec) -> bool
    ensures { result ≡ is_negative dec }
{
    dec.units() < 0
}

#[tactic(auto, unfolding(crate::specs::Degrees::ra_degrees_text))]
fn ra_text(ra: Ra) -> [u8; 16]
    ensures text { result ≡ ra_degrees_text ra }
    ensures within { ra < circle }
{
    let steps = ra_steps(ra.units() as u64);
    let digits = plain_digits(steps / STEPS_OF_A_DEGREE);
    let mut out = ArrayVec::new();
    put_degrees(&mut out, twelve_decimals(digits, steps));
    put_blanks(&mut out, 3 - digits);
    sixteen(&out)
}

#[tactic(auto, unfolding(crate::specs::Degrees::dec_degrees_text))]
fn dec_text(dec: Dec) -> [u8; 16]
    ensures text { result ≡ dec_degrees_text dec }
    ensures within { nat_abs dec ≤ quarter }
{
    let steps = dec_steps(dec.units().unsigned_abs());
    let mut out = ArrayVec::new();
    out.push(sign_byte(is_negative(dec)));
    put_degrees(&mut out, twelve_decimals(2, steps));
    sixteen(&out)
}

/// Writes a right ascension in degrees: the whole degrees without leading zeros, a point and twelve decimals, and
/// blanks up to sixteen bytes. The value is rounded half away from zero to the last decimal; 360 degrees are written as
/// 0.
pub fn write_ra_degrees(ra: Ra) -> [u8; 16]
    ensures exact { result ≡ ra_degrees_text ra }
    ensures read { ReadsRaDegrees (trimmed_end result) (Ok (rounded_ra_degrees ra)) }
    ensures value { ra_degrees_of (trimmed_end result) ≡ Ok (rounded_ra_degrees ra) }
    ensures again { (p : NumberParts) (text : List ℕ) → IsSpelledNumber 3 p text → p.count ≡ 12
        → p.digits ≡ plain_digits p.whole → degree_units p ≡ ra
        → result ≡ text ++ blanks (16 - length text) }
{
    ascii_text::laws::texts();
    ra_text(ra)
}

/// Writes a declination in degrees, in sixteen bytes: a sign, two digits, a point and twelve decimals. The value is
/// rounded half away from zero to the last decimal. The sign is `-` exactly where the value is negative, also where it
/// is rounded to zero.
pub fn write_dec_degrees(dec: Dec) -> [u8; 16]
    ensures exact { result ≡ dec_degrees_text dec }
    ensures read { ReadsDecDegrees result (Ok (rounded_dec_degrees dec)) }
    ensures value { dec_degrees_of result ≡ Ok (rounded_dec_degrees dec) }
    ensures again { (text : List ℕ) → length text ≡ 16 → slice_index text 0 ≡ sign_byte (is_negative dec)
        → ReadsDecDegrees text (Ok dec)
        → result ≡ text }
{
    ascii_text::laws::texts();
    dec_text(dec)
}
