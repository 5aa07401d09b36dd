//! The packed form of comets.

ghost use Rattle.std.specs.Prelude.{◌≡◌, ◌↔◌, ◌≤◌, ◌/◌, IfOk};
ghost use Rattle.packed_names.specs.Judging.{answered};
ghost use Rattle.comet_names.specs.Judging.{is_comet};
ghost use Rattle.comet_names.specs.Ranges.{IsComet};
ghost use Rattle.comet_names.specs.Packed.{century_letter, packed_comet, IsCometPackedAs, HasPackedCometShape};
ghost use Rattle.comet_names.specs.Packed.{IsPackedComet};
ghost use Rattle.comet_names.specs.Reading.{century_digits, packed_parts, packed_comet_in};

use crate::comet::{Comet, kind_letter, kind_of};
use crate::parts::{Parts, judged};
use ascii_text::digits::{Radix, byte_of};
use ascii_text::reading::{behind, digits_at};
use packed_names::{NameFault, print_half};

/// The two digits of the century that a letter stands for.
#[tactic(auto, unfolding(crate::specs::Reading::century_digits))]
fn century_digits(letter: u8) -> Option<(u8, u8)>
    ensures { result ≡ century_digits letter }
{
    match letter {
        b'I' => Some((b'1', b'8')),
        b'J' => Some((b'1', b'9')),
        b'K' => Some((b'2', b'0')),
        _ => None,
    }
}

/// What a packed comet shows.
#[tactic(auto, unfolding(crate::specs::Reading::packed_parts))]
fn parts_in(text: &[u8]) -> Option<Parts>
    ensures { result ≡ packed_parts text.now }
{
    let [kind, century, tens, units, letter, rest @ ..] = text else {
        return None;
    };
    let kind = kind_of(*kind)?;
    let (first, second) = century_digits(*century)?;
    let (number, rest) = digits_at(Radix::Ten, 2, rest)?;
    let rest = behind(b'0', rest)?;
    if rest.is_empty() {
        let half = [first, second, *tens, *units, b' ', *letter];
        Some(Parts { kind, half, number })
    } else {
        None
    }
}

#[tactic(auto, unfolding(crate::specs::Reading::packed_comet_in, ascii_text::specs::Judged::answer_of))]
fn unpacked(text: &[u8]) -> Result<Comet, NameFault>
    ensures exact { result ≡ answered is_comet (packed_comet_in text.now) }
    ensures in_range { IfOk result IsComet }
{
    match parts_in(text) {
        Some(parts) => judged(parts),
        None => Err(NameFault::Spelling),
    }
}

/// The comet that the text is the packed form of, as the Minor Planet Center's page on packed designations has it.
///
/// Any other text is `OutOfRange` where it has the shape of a packed comet, as `CI95O010`, the year 1895, or
/// `CJ95O000`, and `Spelling` where it has none, as `CJ95O011`.
///
/// # Errors
///
/// `OutOfRange` where the text has the shape of a packed comet, `Spelling` where it has none.
pub fn unpack_comet(text: &[u8]) -> Result<Comet, NameFault>
    ensures exact { result ≡ answered is_comet (packed_comet_in text.now) }
    ensures in_range { IfOk result IsComet }

    ensures comet { (comet : Comet) → (result ≡ Ok comet) ↔ IsCometPackedAs comet text.now }
    ensures out_of_range { (result ≡ Err NameFault.OutOfRange)
        ↔ (HasPackedCometShape text.now × ¬ IsPackedComet text.now) }
    ensures spelling { (result ≡ Err NameFault.Spelling) ↔ (¬ HasPackedCometShape text.now) }
{
    ascii_text::laws::texts();
    unpacked(text)
}

/// The letter of the century of a year, which is 1900 to 2099.
fn century_letter(year: u16) -> u8
    requires from { 1900 ≤ year }
    requires to { year ≤ 2099 }
    ensures { result ≡ century_letter (year / 100) }
{
    if year < 2000 { b'J' } else { b'K' }
}

/// The packed form of the comet, which is in range: eight characters, as `CJ95O010`.
#[tactic(auto, unfolding(packed_names::specs::Printed::half_text, ascii_text::specs::Digits::digits_text))]
pub fn pack_comet(comet: Comet) -> [u8; 8]
    requires { IsComet comet }
    ensures { result ≡ packed_comet comet }
{
    let label = print_half(comet.half);
    let half = label.as_slice();
    [
        kind_letter(comet.kind),
        century_letter(comet.half.year),
        half[2],
        half[3],
        half[5],
        byte_of(Radix::Ten, comet.number / 10),
        byte_of(Radix::Ten, comet.number % 10),
        b'0',
    ]
}
