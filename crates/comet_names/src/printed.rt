//! The printed form of comets.

ghost use Rattle.std.specs.Prelude.{◌≡◌, ◌↔◌, ◌+◌, ◌≤◌, ◌++◌, IfOk};
ghost use Rattle.arrayvec.specs.ArrayVec.{array_vec_len};
ghost use Rattle.packed_names.specs.Judging.{answered};
ghost use Rattle.packed_names.specs.Printed.{half_text};
ghost use Rattle.packed_names.specs.Ranges.{IsHalfMonth};
ghost use Rattle.comet_names.specs.Judging.{is_comet};
ghost use Rattle.comet_names.specs.Labels.{IsLabel9Of};
ghost use Rattle.comet_names.specs.Ranges.{IsComet};
ghost use Rattle.comet_names.specs.Printed.{printed_comet, IsCometPrintedAs, HasPrintedCometShape, IsPrintedComet};
ghost use Rattle.comet_names.specs.Reading.{printed_parts, printed_comet_in};

use crate::comet::{Comet, kind_letter, kind_of};
use crate::label::Label9;
use crate::parts::{Parts, judged};
use arrayvec::ArrayVec;
use ascii_text::reading::{behind, number_at};
use ascii_text::writing::put_decimal;
use packed_names::{HalfMonth, NameFault, print_half};

/// What a printed comet shows.
#[tactic(auto, unfolding(crate::specs::Reading::printed_parts, crate::specs::Reading::six_at))]
fn parts_in(text: &[u8]) -> Option<Parts>
    ensures { result ≡ printed_parts text.now }
{
    let (kind, rest) = text.split_first()?;
    let kind = kind_of(*kind)?;
    let rest = behind(b'/', rest)?;
    let (half, rest) = rest.split_first_chunk::<6>()?;
    let (number, rest) = number_at(3, rest)?;
    if rest.is_empty() {
        Some(Parts {
            kind,
            half: *half,
            number,
        })
    } else {
        None
    }
}

#[tactic(auto, unfolding(crate::specs::Reading::printed_comet_in, ascii_text::specs::Judged::answer_of))]
fn printed(text: &[u8]) -> Result<Comet, NameFault>
    ensures exact { result ≡ answered is_comet (printed_comet_in text.now) }
    ensures in_range { IfOk result IsComet }
{
    match parts_in(text) {
        Some(parts) => judged(parts),
        None => Err(NameFault::Spelling),
    }
}

/// The comet that the text is the printed form of, as the Minor Planet Center's page on cometary designations has it.
///
/// Any other text is `OutOfRange` where it has the shape of a printed comet, as `C/1924 Y1` or `C/2024 E100`, and
/// `Spelling` where it has none, as `C/2024 E01`.
///
/// # Errors
///
/// `OutOfRange` where the text has the shape of a printed comet, `Spelling` where it has none.
pub fn read_comet(text: &[u8]) -> Result<Comet, NameFault>
    ensures exact { result ≡ answered is_comet (printed_comet_in text.now) }
    ensures in_range { IfOk result IsComet }

    ensures comet { (comet : Comet) → (result ≡ Ok comet) ↔ IsCometPrintedAs comet text.now }
    ensures out_of_range { (result ≡ Err NameFault.OutOfRange)
        ↔ (HasPrintedCometShape text.now × ¬ IsPrintedComet text.now) }
    ensures spelling { (result ≡ Err NameFault.Spelling) ↔ (¬ HasPrintedCometShape text.now) }
{
    ascii_text::laws::texts();
    printed(text)
}

/// Writes the half-month as it is printed.
fn put_half(text: &mut ArrayVec<u8, 10>, half: HalfMonth)
    requires room { array_vec_len text.old ≤ 4 }
    requires half { IsHalfMonth half }
    ensures text { text.new.items ≡ text.old.items ++ half_text half }
    ensures len { array_vec_len text.new ≡ array_vec_len text.old + 6 }
{
    let label = print_half(half);
    for byte in label.as_slice() {
        text.push(*byte);
    }
}

/// The printed form of the comet, which is in range, as `C/1995 O1`.
#[tactic(auto, using(crate::proofs::Lengths::length_number), unfolding(crate::specs::Printed::printed_comet))]
pub fn print_comet(comet: Comet) -> Label9
    requires { IsComet comet }
    ensures { IsLabel9Of (printed_comet comet) result }
{
    let mut text = ArrayVec::new();
    text.push(kind_letter(comet.kind));
    text.push(b'/');
    put_half(&mut text, comet.half);
    put_decimal(&mut text, u64::from(comet.number));
    Label9::of(text.as_slice())
}
