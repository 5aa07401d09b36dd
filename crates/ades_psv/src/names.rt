//! The names of a data line.

ghost use Rattle.std.specs.Prelude.{◌≡◌};
ghost use Rattle.ades_psv.specs.Names.{number_in, designation_in, temporary_in};

use ascii_text::characters::are_visible;
use obs_record::{RuleCode, Short};
use packed_names::{Designation, Name, Number, read};

/// The number and the designation that a data line gives to what was observed.
#[derive(Clone, Copy)]
pub(crate) struct Names {
    pub(crate) perm: Option<Number>,
    pub(crate) prov: Option<Designation>,
}

/// The number in a field that isn't empty, or rule S3 where it shows none.
#[tactic(auto, unfolding(crate::specs::Names::number_in, crate::specs::Names::name_of))]
pub(crate) fn number_in(text: &[u8]) -> Result<Option<Number>, RuleCode>
    ensures { result ≡ number_in text.now }
{
    if text.is_empty() {
        return Ok(None);
    }
    match read(text) {
        Ok(Name::Number(number)) => Ok(Some(number)),
        _ => Err(RuleCode::S3),
    }
}

/// The designation in a field that isn't empty, or rule S3 where it shows none.
#[tactic(auto, unfolding(crate::specs::Names::designation_in, crate::specs::Names::name_of))]
pub(crate) fn designation_in(text: &[u8]) -> Result<Option<Designation>, RuleCode>
    ensures { result ≡ designation_in text.now }
{
    if text.is_empty() {
        return Ok(None);
    }
    match read(text) {
        Ok(Name::Designation(designation)) => Ok(Some(designation)),
        _ => Err(RuleCode::S3),
    }
}

/// The temporary designation in a field that isn't empty, or rule S12 where it shows none.
#[tactic(auto, unfolding(crate::specs::Names::temporary_in))]
#[inline]
pub(crate) fn temporary_in(text: &[u8]) -> Result<Option<Short>, RuleCode>
    ensures { result ≡ temporary_in text.now }
{
    if text.is_empty() {
        return Ok(None);
    }
    if text.len() > 8 || !are_visible(text) {
        return Err(RuleCode::S12);
    }
    Ok(Some(Short::new(text)))
}
