//! Reading degrees with decimals, as ADES, the IAU's Astrometry Data Exchange Standard, has right ascension and
//! declination. The limit on the number of decimals is our own.

ghost use Rattle.std.specs.Prelude.{◌≡◌, ◌*◌, ◌/◌, ◌^◌, ◌<◌, ◌≤◌, ℕ, ℤ, IfSome, Result, option_map};
ghost use Rattle.angle_fixed.specs.declared.fault.AngleFault.{AngleFault};
ghost use Rattle.angle_fixed.specs.Angles.{degree};
ghost use Rattle.angle_fixed.specs.Degrees.{dec_within, degree_units, past_sign, ra_within};
ghost use Rattle.angle_fixed.specs.Degrees.{dec_degrees_of, ra_degrees_of, ReadsDecDegrees, ReadsRaDegrees};
ghost use Rattle.ascii_text.specs.DecimalNumbers.{number_parts_at, within};
ghost use Rattle.ascii_text.specs.Written.{number_parts};
ghost use Rattle.angle_fixed.specs.WrittenDegrees.{found_answer, IsBoundedDegrees};

use crate::angle::{Dec, Ra};
use crate::fault::AngleFault;
use crate::units::{CIRCLE, DEGREE, QUARTER, TWELFTH_DECIMAL};
use ascii_text::numbers::{DecimalNumber, decimal_number};
use ascii_text::reading::Decimals;
use ascii_text::units::decimals_units;

// As many decimals are read.
const MOST_DECIMALS: usize = 12;

// Degrees with this many digits before the point at most, and with twelve decimals at most.
fn degrees(most: usize, text: &[u8]) -> Option<Option<DecimalNumber>>
    requires { most ≤ 3 }
    ensures exact { option_map (λ found. option_map (λ d. number_parts d) found) result
        ≡ option_map (λ p. within 12 p) (number_parts_at most text.now) }
    ensures below { IfSome result (λ found. IfSome found (λ d. IsBoundedDegrees d)) }
{
    decimal_number(most, MOST_DECIMALS, text)
}

// The units of decimals of a degree.
fn degree_of_decimals(decimals: Decimals) -> u64
    requires few { decimals.count ≤ 12 }
    requires digits { decimals.value < 10 ^ decimals.count }
    ensures value { result ≡ decimals.value * (degree / 10 ^ decimals.count) }
    ensures below { result < degree }
{
    decimals_units(decimals, MOST_DECIMALS, TWELFTH_DECIMAL)
}

#[tactic(auto, unfolding(crate::specs::Degrees::degree_units))]
fn degree_units(d: DecimalNumber) -> u64
    requires { IsBoundedDegrees d }
    ensures { result ≡ degree_units (number_parts d) }
{
    d.whole * DEGREE + degree_of_decimals(d.decimals)
}

fn ra_degrees(text: &[u8]) -> Result<Ra, AngleFault>
    ensures { result ≡ found_answer (λ p. ra_within p) (option_map (λ p. within 12 p) (number_parts_at 3 text.now)) }
{
    let Some(found) = degrees(3, text) else {
        return Err(AngleFault::Spelling);
    };
    let Some(d) = found else {
        return Err(AngleFault::Decimals);
    };
    let units = degree_units(d);
    if units >= CIRCLE {
        return Err(AngleFault::Range);
    }
    Ok(Ra::of_units(units))
}

#[tactic(auto, unfolding(crate::specs::Degrees::past_sign))]
fn past_sign(text: &[u8]) -> (bool, &[u8])
    ensures { (result.0, result.1.now) ≡ past_sign text.now }
{
    match text {
        [b'+', rest @ ..] => (false, rest),
        [b'-', rest @ ..] => (true, rest),
        _ => (false, text),
    }
}

fn dec_degrees(text: &[u8]) -> Result<Dec, AngleFault>
    ensures { let sign = past_sign text.now in result ≡ found_answer (λ p. dec_within (sign.0, p))
        (option_map (λ p. within 12 p) (number_parts_at 2 sign.1)) }
{
    let (minus, rest) = past_sign(text);
    let Some(found) = degrees(2, rest) else {
        return Err(AngleFault::Spelling);
    };
    let Some(d) = found else {
        return Err(AngleFault::Decimals);
    };
    let units = degree_units(d);
    if units > QUARTER {
        return Err(AngleFault::Range);
    }
    Ok(Dec::of_signed(minus, units))
}

/// Reads a right ascension in degrees, as the field `ra` of ADES has it: 1 to 3 digits, or these, a point and 1 to 12
/// decimals. Leading zeros may be among the digits, and nothing else stands in the text, which may be of any length.
///
/// The fault is `Spelling` where the text has another shape, whatever the number of decimals; else `Decimals` where
/// they are more than twelve; else `Range` where the value is 360 degrees or more.
///
/// # Errors
///
/// The first of `Spelling`, `Decimals` and `Range` that the text gives cause for.
pub fn read_ra_degrees(text: &[u8]) -> Result<Ra, AngleFault>
    ensures exact { result ≡ ra_degrees_of text.now }
    ensures answer { ReadsRaDegrees text.now result }
    ensures only { (other : Result ℕ AngleFault) → ReadsRaDegrees text.now other → result ≡ other }
{
    ascii_text::laws::texts();
    ra_degrees(text)
}

/// Reads a declination in degrees, as the field `dec` of ADES has it: `+`, `-` or no sign, then 1 or 2 digits, or
/// these, a point and 1 to 12 decimals. Leading zeros may be among the digits, and nothing else stands in the text,
/// which may be of any length.
///
/// The fault is `Spelling` where the text has another shape, whatever the number of decimals; else `Decimals` where
/// they are more than twelve; else `Range` where the value is over 90 degrees either way.
///
/// # Errors
///
/// The first of `Spelling`, `Decimals` and `Range` that the text gives cause for.
pub fn read_dec_degrees(text: &[u8]) -> Result<Dec, AngleFault>
    ensures exact { result ≡ dec_degrees_of text.now }
    ensures answer { ReadsDecDegrees text.now result }
    ensures only { (other : Result ℤ AngleFault) → ReadsDecDegrees text.now other → result ≡ other }
{
    ascii_text::laws::texts();
    dec_degrees(text)
}
