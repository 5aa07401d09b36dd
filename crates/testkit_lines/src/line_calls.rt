//! A line that breaks no rule with other bytes in it, and the line of an observation.

ghost use Rattle.std.specs.Prelude.{◌≡◌, ◌-◌, ◌^◌, IsTrue, IfSome, ◌≤◌};
ghost use Rattle.obs_record.specs.Magnitudes.{greatest_magnitude, HasDecimals};
ghost use Rattle.obs_record.specs.Sighting.{IsShape, places_of};

use col80_format::*;
use obs_record::{Shape, Sighting};
use packed_names::Number;

/// A line that breaks no rule.
const LINE: [u8; 80] =
    *b"     P10abcd  C2024 03 15.12345 06 12 34.56 +23 45 01.2          19.5 V      703";

/// The line with these bytes from a column on.
pub fn with(column: usize, text: &[u8]) -> [u8; 80] {
    let mut line = LINE;
    for (slot, byte) in line.iter_mut().skip(column.saturating_sub(1)).zip(text) {
        *slot = *byte;
    }
    line
}

/// Whether a line can have these decimals.
fn is_shape(shape: Shape) -> bool
    ensures { IsTrue result → IsShape shape }
{
    match shape {
        Shape::Eighty {
            date,
            ra,
            dec,
            mag,
            ..
        } => { date >= 1 && date <= 6 && ra <= 3 && dec <= 2 && mag <= 2 }
        Shape::Psv { mag } => mag <= 6,
    }
}

/// How many decimals of the magnitude a shape has.
fn places_of(shape: Shape) -> u8
    ensures { result ≡ places_of shape }
{
    match shape {
        Shape::Eighty { mag, .. } => mag,
        Shape::Psv { mag } => mag,
    }
}

/// Whether an observation may have this magnitude, with so many decimals.
fn is_magnitude(mag: Option<u32>, places: u8) -> bool
    requires { places ≤ 6 }
    ensures within { IsTrue result → IfSome mag (λ m. m ≤ greatest_magnitude) }
    ensures decimals { IsTrue result → HasDecimals mag places }
{
    match mag {
        None => places == 0,
        Some(mag) => mag <= 99_990_000 && mag % unit_of(places) == 0,
    }
}

/// One in the last of so many decimals, in units of 0.000001.
fn unit_of(places: u8) -> u32
    requires { places ≤ 6 }
    ensures value { result ≡ 10 ^ (6 - places) }
    ensures some { 1 ≤ result }
{
    match places {
        0 => 1_000_000,
        1 => 100_000,
        2 => 10_000,
        3 => 1_000,
        4 => 100,
        5 => 10,
        _ => 1,
    }
}

/// The line of an observation under the letters C and V, where it can be written. The object that is known has a number
/// and a designation.
pub fn line_of(s: &Sighting, is_known: bool) -> Option<[u8; 80]> {
    if s.station.len != 3 || !is_shape(s.shape) {
        return None;
    }
    if !is_magnitude(s.mag, places_of(s.shape)) {
        return None;
    }
    let (number, name) = if is_known {
        (Some(Number(433)), *b"K24E00A")
    } else {
        (None, *b"P10abcd")
    };
    let front = Front {
        number,
        name,
        star: is_known,
    };
    let letters = Letters {
        mode: b'C',
        band: b'V',
        catalogue: if is_known { b'W' } else { b' ' },
    };
    Some(write_line(s, front, letters))
}
