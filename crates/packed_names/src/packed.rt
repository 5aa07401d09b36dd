//! The packed form of names.

ghost use Rattle.std.specs.Prelude.{◌≡◌, ◌↔◌, IfOk};
ghost use Rattle.packed_names.specs.Judging.{is_in_range, answered};
ghost use Rattle.packed_names.specs.Labels.{IsLabelOf};
ghost use Rattle.packed_names.specs.Ranges.{IsName};
ghost use Rattle.packed_names.specs.Packed.{packed_text, packed_length, IsPackedAs, HasPackedShape, IsPackedName};
ghost use Rattle.packed_names.specs.PackedReading.{packed_in};

use crate::label::Label;
use crate::name::{Designation, Name, NameFault, judged};
use reading::packed_in;
use writing::{number_text, provisional_text, survey_text};

mod reading;
mod writing;

#[tactic(auto, unfolding(ascii_text::specs::Judged::answer_of))]
fn unpacked(text: &[u8]) -> Result<Name, NameFault>
    ensures exact { result ≡ answered is_in_range (packed_in text.now) }
    ensures in_range { IfOk result IsName }
{
    match packed_in(text) {
        Some(values) => judged(values),
        None => Err(NameFault::Spelling),
    }
}

/// The name that the text is the packed form of, as the Minor Planet Center's page on packed designations has it.
///
/// Any other text is `OutOfRange` where it has the shape of a packed name, as `00000` or `J24E00A`, the year 1924, and
/// `Spelling` where it has none, as `K24e00A`.
///
/// # Errors
///
/// `OutOfRange` where the text has the shape of a packed name, `Spelling` where it has none.
pub fn unpack(text: &[u8]) -> Result<Name, NameFault>
    ensures exact { result ≡ answered is_in_range (packed_in text.now) }
    ensures in_range { IfOk result IsName }

    ensures name { (name : Name) → (result ≡ Ok name) ↔ IsPackedAs name text.now }
    ensures out_of_range { (result ≡ Err NameFault.OutOfRange) ↔ (HasPackedShape text.now × ¬ IsPackedName text.now) }
    ensures spelling { (result ≡ Err NameFault.Spelling) ↔ (¬ HasPackedShape text.now) }
{
    ascii_text::laws::texts();
    unpacked(text)
}

fn packed(name: Name) -> Label
    requires { IsName name }
    ensures { IsLabelOf (packed_text name) result }
{
    let text = match name {
        Name::Number(number) => number_text(number.0),
        Name::Designation(Designation::Provisional(provisional)) => provisional_text(provisional),
        Name::Designation(Designation::Survey(survey, number)) => survey_text(survey, number),
    };
    Label::of(text.as_slice())
}

/// The packed form of the name, which is in range: five characters for a number, seven for a designation.
pub fn pack(name: Name) -> Label
    requires { IsName name }
    ensures text { IsLabelOf (packed_text name) result }
    ensures len { result.len ≡ packed_length name }
{
    ascii_text::laws::texts();
    packed(name)
}
