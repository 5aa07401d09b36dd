//! Writing lines.

ghost use Rattle.std.specs.Prelude.{◌≡◌, ℕ, ◌+◌, ◌-◌, ◌*◌, ◌/◌, ◌^◌, ◌<◌, ◌≤◌, List, [], ◌∷◌, ◌++◌, length, take, Ok};
ghost use Rattle.std.specs.Prelude.{All, IfSome};
ghost use Rattle.arrayvec.specs.ArrayVec.{array_vec_len};
ghost use Rattle.packed_names.specs.Ranges.{IsNumber};
ghost use Rattle.obs_record.specs.Sighting.{IsPrintable, IsShape, places_of};
ghost use Rattle.obs_record.specs.Magnitudes.{greatest_magnitude, HasDecimals};
ghost use Rattle.col80_format.specs.Columns.{column};
ghost use Rattle.col80_format.specs.Magnitudes.{whole_text};
ghost use Rattle.col80_format.specs.Rules.{IsReading};
ghost use Rattle.col80_format.specs.LineText.{number_text, star_byte, steps_of, magnitude_text, front_text};
ghost use Rattle.col80_format.specs.LineText.{angles_text, back_text, form_of, line_text, IsLineText, AreLetters};
ghost use Rattle.col80_format.specs.LineText.{IsSameLine};

use crate::form::{Form, form_of, note_of};
use crate::laws::below;
use angle_fixed::{write_dms, write_hms};
use arrayvec::ArrayVec;
use ascii_text::digits::Radix;
use ascii_text::reading::Decimals;
use ascii_text::writing::{put_blanks, put_decimals, put_digits};
use obs_record::Sighting;
use obs_time::write_day_fraction;
use packed_names::{Name, Number, pack};

/// Columns 1 to 13 of a line that is written.
#[derive(Clone, Copy, Debug, PartialEq, Eq)]
pub struct Front {
    /// The number in columns 1 to 5; blanks where there is none.
    pub number: Option<Number>,
    /// Columns 6 to 12.
    pub name: [u8; 7],
    /// Whether column 13 has the asterisk of a discovery.
    pub star: bool,
}

/// The letters of a line that is written, blanks where there are none.
#[derive(Clone, Copy, Debug, PartialEq, Eq)]
pub struct Letters {
    /// The mode, column 15.
    pub mode: u8,
    /// The band, column 71.
    pub band: u8,
    /// The catalogue, column 72.
    pub catalogue: u8,
}

/// A line in the making.
type Text = ArrayVec<u8, 80>;

/// Writes a text as it is.
fn put(out: &mut Text, text: &[u8])
    requires { array_vec_len out.old + length text.now ≤ 80 }
    ensures text { out.new.items ≡ out.old.items ++ text.now }
    ensures len { array_vec_len out.new ≡ array_vec_len out.old + length text.now }
{
    out.try_extend_from_slice(text).unwrap();
}

/// Writes a whole number below 100 in two columns, a blank before a single digit.
fn put_whole(out: &mut Text, n: u64)
    requires room { array_vec_len out.old + 2 ≤ 80 }
    requires below { n < 100 }
    ensures text { out.new.items ≡ out.old.items ++ whole_text n }
    ensures len { array_vec_len out.new ≡ array_vec_len out.old + 2 }
{
    if n < 10 {
        out.push(b' ');
        put_digits(out, Radix::Ten, 1, n);
    } else {
        put_digits(out, Radix::Ten, 2, n);
    }
}

/// How many units of the last place a magnitude of 1 has.
fn scale_of(places: u8) -> u64
    requires { places ≤ 2 }
    ensures value { result ≡ 10 ^ places }
    ensures within { (1 ≤ result) × (result ≤ 100) }
{
    match places {
        0 => 1,
        1 => 10,
        _ => 100,
    }
}

/// One in the last place of a magnitude, in units of 0.000001.
fn unit_of(places: u8) -> u64
    requires { places ≤ 2 }
    ensures value { result ≡ 10 ^ (6 - places) }
    ensures within { (10000 ≤ result) × (result ≤ 1000000) }
{
    match places {
        0 => 1_000_000,
        1 => 100_000,
        _ => 10_000,
    }
}

/// How many units of the last place are nearest to the magnitude.
fn steps_of(places: u8, mag: u32) -> u64
    requires { places ≤ 2 }
    ensures { result ≡ steps_of places mag }
{
    let unit = unit_of(places);
    (2 * u64::from(mag) + unit) / (2 * unit)
}

/// Writes columns 66 to 70.
#[tactic(auto, unfolding(crate::specs::LineText::magnitude_text))]
fn put_magnitude(out: &mut Text, places: u8, mag: Option<u32>)
    requires room { array_vec_len out.old + 5 ≤ 80 }
    requires few { places ≤ 2 }
    requires fits { IfSome mag (λ m. steps_of places m < 100 * 10 ^ places) }
    ensures text { out.new.items ≡ out.old.items ++ magnitude_text places mag }
    ensures len { array_vec_len out.new ≡ array_vec_len out.old + 5 }
{
    let Some(mag) = mag else {
        put_blanks(out, 5);
        return;
    };
    let end = out.len() + 5;
    let count = usize::from(places);
    let steps = steps_of(places, mag);
    let scale = scale_of(places);
    put_whole(out, steps / scale);
    let value = steps % scale;
    put_decimals(out, Decimals { count, value });
    let left = end - out.len();
    put_blanks(out, left);
}

/// Writes columns 1 to 5.
fn put_number(out: &mut Text, number: Option<Number>)
    requires room { array_vec_len out.old + 5 ≤ 80 }
    requires range { IfSome number (λ n. IsNumber n.0) }
    ensures text { out.new.items ≡ out.old.items ++ number_text number }
    ensures len { array_vec_len out.new ≡ array_vec_len out.old + 5 }
{
    match number {
        None => put_blanks(out, 5),
        Some(number) => {
            let packed = pack(Name::Number(number));
            put(out, &packed.bytes[..packed.len as usize]);
        }
    }
}

/// Writes columns 1 to 15.
fn put_front(out: &mut Text, s: &Sighting, front: &Front, letters: Letters)
    requires empty { out.old.items ≡ [] }
    requires range { IfSome front.now.number (λ n. IsNumber n.0) }
    ensures text { out.new.items ≡ front_text s.now front.now letters }
    ensures len { array_vec_len out.new ≡ 15 }
{
    put_number(out, front.number);
    put(out, &front.name);
    out.push(if front.star { b'*' } else { b' ' });
    out.push(note_of(s.shape, s.note1));
    out.push(letters.mode);
}

/// Writes columns 33 to 56.
fn put_angles(out: &mut Text, s: &Sighting, form: Form)
    requires room { array_vec_len out.old ≡ 32 }
    requires few { (form.seconds ≤ 3) × (form.arcseconds ≤ 2) }
    ensures text { out.new.items ≡ out.old.items ++ angles_text s.now form }
    ensures len { array_vec_len out.new ≡ 56 }
{
    put(out, &write_hms(s.ra, form.seconds));
    put(out, &write_dms(s.dec, form.arcseconds, form.minus));
}

/// Writes columns 57 to 80.
fn put_back(out: &mut Text, s: &Sighting, form: Form, letters: Letters)
    requires room { array_vec_len out.old ≡ 56 }
    requires few { form.places ≤ 2 }
    requires fits { IfSome s.now.mag (λ mag. steps_of form.places mag < 100 * 10 ^ form.places) }
    ensures text { out.new.items ≡ out.old.items ++ back_text s.now form letters }
    ensures len { array_vec_len out.new ≡ 80 }
{
    put_blanks(out, 9);
    put_magnitude(out, form.places, s.mag);
    out.push(letters.band);
    out.push(letters.catalogue);
    put_blanks(out, 5);
    put(out, &s.station.bytes[..3]);
}

/// Writes an observation as a line of 80 columns.
///
/// Columns 1 to 13 are those of `front`, columns 15, 71 and 72 those of `letters`; columns 57 to 65 and 73 to 77 are
/// blank. An observation that came in 80 columns keeps its note 1 and the decimals that it came with, and a minus
/// before a declination of zero; another has a blank for note 1, 6 decimals of the day, 3 of the second, 2 of the
/// arcsecond, and as many of the magnitude as it came with, at most 2. Each number is rounded to its last decimal,
/// halves away from zero, and carried: right ascension that reaches 24 hours is written as 0, and a time that reaches
/// the day's end goes into the next day. Takes no memory.
///
/// The observation's magnitude and decimals are such as an observation may have, and its station has 3 bytes; the
/// number is 1 to 15,396,335; name and letters are printable, and the mode isn't one of the six letters of records that
/// this office doesn't take.
pub fn write_line(s: &Sighting, front: Front, letters: Letters) -> [u8; 80]
    requires shape { IsShape s.now.shape }
    requires magnitude { IfSome s.now.mag (λ mag. mag ≤ greatest_magnitude) }
    requires decimals { HasDecimals s.now.mag (places_of s.now.shape) }
    requires station { s.now.station.len ≡ 3 }
    requires number { IfSome front.number (λ n. IsNumber n.0) }
    requires name { All IsPrintable front.name }
    requires letters { AreLetters letters }
    ensures exact { result ≡ line_text s.now front letters }
    ensures text { IsLineText s.now front letters result }
    // A line that was read is written again as it was, but for the columns that aren't kept.
    ensures again { (line : List ℕ) → IsReading line (Ok s.now) → letters.mode ≡ column 15 line
        → letters.band ≡ column 71 line
        → IsSameLine result line }
    // No other text is right.
    ensures only { (other : List ℕ) → IsLineText s.now front letters other → other ≡ result }
{
    below();
    let form = form_of(s.shape);
    let mut out = Text::new();
    put_front(&mut out, s, &front, letters);
    put(&mut out, &write_day_fraction(s.time, form.days));
    put_angles(&mut out, s, form);
    put_back(&mut out, s, form, letters);
    out.into_inner().unwrap()
}
