//! The names in columns 1 to 12.

ghost use Rattle.std.specs.Prelude.{◌≡◌, ◌≤◌, length};
ghost use Rattle.std.specs.List.{list_all};
ghost use Rattle.col80_format.specs.Names.{number_in, is_plain, temporary_in, name_in, names_in};

use ascii_text::blanks::{are_blanks, trimmed};
use obs_record::{RuleCode, Short};
use packed_names::{Designation, Name, Number, unpack};

/// The names that a line gives to what was observed.
#[derive(Clone, Copy)]
pub(crate) struct Names {
    pub(crate) perm: Option<Number>,
    pub(crate) prov: Option<Designation>,
    pub(crate) sub: Option<Short>,
}

/// The number in columns 1 to 5, where they aren't blank.
#[tactic(auto, unfolding(crate::specs::Names::number_in))]
fn number_in(text: &[u8]) -> Result<Option<Number>, RuleCode>
    ensures { result ≡ number_in text.now }
{
    if are_blanks(text) {
        return Ok(None);
    }
    match unpack(text) {
        Ok(Name::Number(number)) => Ok(Some(number)),
        _ => Err(RuleCode::S3),
    }
}

/// Whether a temporary designation may have these characters.
fn are_plain(name: &[u8]) -> bool
    ensures { result ≡ list_all is_plain name.now }
{
    name.iter().all(|byte| *byte != b' ' && *byte != b'|')
}

/// The temporary designation in columns 6 to 12, without the blanks round it.
#[tactic(auto, unfolding(crate::specs::Names::temporary_in))]
fn temporary_in(text: &[u8]) -> Result<Short, RuleCode>
    ensures { result ≡ temporary_in text.now }
{
    let name = trimmed(text);
    if are_plain(name) {
        Ok(Short::new(name))
    } else {
        Err(RuleCode::S3)
    }
}

/// The designation in columns 6 to 12, or the temporary designation where they are no packed one.
#[tactic(auto, unfolding(crate::specs::Names::name_in))]
fn name_in(text: &[u8]) -> Result<(Option<Designation>, Option<Short>), RuleCode>
    ensures { result ≡ name_in text.now }
{
    if are_blanks(text) {
        return Ok((None, None));
    }
    match unpack(text) {
        Ok(Name::Designation(designation)) => Ok((Some(designation), None)),
        _ => {
            let short = temporary_in(text)?;
            Ok((None, Some(short)))
        }
    }
}

/// The names in columns 1 to 12, or rule S3 where they show none.
#[tactic(auto, unfolding(crate::specs::Names::names_in))]
pub(crate) fn names_in(line: &[u8]) -> Result<Names, RuleCode>
    requires { 12 ≤ length line.now }
    ensures { result ≡ names_in line.now }
{
    if are_blanks(&line[..12]) {
        return Err(RuleCode::S3);
    }
    let perm = number_in(&line[..5])?;
    let (prov, sub) = name_in(&line[5..12])?;
    Ok(Names { perm, prov, sub })
}
