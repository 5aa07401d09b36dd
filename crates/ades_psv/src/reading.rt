//! The reading of a data line.

ghost use Rattle.std.specs.Prelude.{◌≡◌, ◌≤◌, IfOk};
ghost use Rattle.std.specs.List.{list_all};
ghost use Rattle.obs_record.specs.declared.sighting.Coded.TheVariants.{Word};
ghost use Rattle.obs_record.specs.Short.{kept_short};
ghost use Rattle.obs_record.specs.Sighting.{IsSighting};
ghost use Rattle.ades_psv.specs.Fields.{Fields as Texts, seen};
ghost use Rattle.ades_psv.specs.Rules.{IsReading, code_of_field};
ghost use Rattle.ades_psv.specs.Reading.{is_text_byte, names_in, lacks_field, lacks_name, lacks_band, position_in};
ghost use Rattle.ades_psv.specs.Reading.{sighting_of_fields, reading_of};

use crate::fields::Fields;
use crate::laws::below;
use crate::magnitude::magnitude_in;
use crate::names::{Names, designation_in, number_in, temporary_in};
use crate::position::{Position, Stated, position_from, stated_in};
use obs_record::{Coded, RuleCode, Shape, Short, Sighting};

/// Whether a byte may stand in a data line.
fn is_text_byte(byte: u8) -> bool
    ensures { result ≡ is_text_byte byte }
{
    (32 <= byte) & (byte != 127)
}

/// Whether each byte may stand in a data line. The loop stops nowhere, so that it can take many bytes at a time.
fn are_text(line: &[u8]) -> bool
    ensures { result ≡ list_all is_text_byte line.now }
{
    let mut are = true;
    'bytes: for byte in line {
        are &= is_text_byte(*byte);
    }
    are
}

/// The number and the designation, or the first broken rule of S2 and S3.
#[tactic(auto, unfolding(crate::specs::Reading::names_in))]
fn names_in(fields: &Fields) -> Result<Names, RuleCode>
    ensures { result ≡ names_in (seen fields.now) }
{
    if !are_text(fields.line) {
        return Err(RuleCode::S2);
    }
    let perm = number_in(fields.perm)?;
    let prov = designation_in(fields.prov)?;
    Ok(Names { perm, prov })
}

/// Whether the station, the mode or the catalogue is missing.
#[tactic(auto, unfolding(crate::specs::Reading::lacks_field))]
fn lacks_field(fields: &Fields) -> bool
    ensures { result ≡ lacks_field (seen fields.now) }
{
    fields.station.is_empty() || fields.mode.is_empty() || fields.catalogue.is_empty()
}

/// Whether number, designation and temporary designation are all missing.
#[tactic(auto, unfolding(crate::specs::Reading::lacks_name))]
fn lacks_name(fields: &Fields) -> bool
    ensures { result ≡ lacks_name (seen fields.now) }
{
    fields.perm.is_empty() && fields.prov.is_empty() && fields.sub.is_empty()
}

/// Whether there is a magnitude whose band is missing.
#[tactic(auto, unfolding(crate::specs::Reading::lacks_band))]
fn lacks_band(fields: &Fields) -> bool
    ensures { result ≡ lacks_band (seen fields.now) }
{
    !fields.mag.is_empty() && fields.band.is_empty()
}

/// When and where, or the first broken rule of S10 and S11.
#[tactic(auto, unfolding(crate::specs::Reading::position_in))]
fn position_in(fields: &Fields, stated: Stated) -> Result<Position, RuleCode>
    ensures { result ≡ position_in (seen fields.now) stated }
{
    if fields.count > fields.columns {
        return Err(RuleCode::S10);
    }
    if lacks_field(fields) || lacks_name(fields) || lacks_band(fields) {
        return Err(RuleCode::S11);
    }
    position_from(stated)
}

/// What a field says whose words the office's tables have.
fn code_of_field(text: &[u8]) -> Coded
    ensures { result ≡ code_of_field text.now }
{
    if text.is_empty() {
        Coded::Nothing
    } else {
        Coded::Word(Short::new(text))
    }
}

/// The word in a field.
fn word(text: &[u8]) -> Coded
    ensures { result ≡ Word (kept_short text.now) }
{
    Coded::Word(Short::new(text))
}

/// The observation of a line whose parts were read.
#[inline(always)]
fn sighting_of_fields(
    fields: &Fields,
    names: Names,
    at: Position,
    magnitude: Option<(u32, u8)>,
    sub: Option<Short>,
) -> Sighting
    ensures { result ≡ sighting_of_fields (seen fields.now) names at magnitude sub }
{
    Sighting {
        perm: names.perm,
        prov: names.prov,
        sub,
        station: Short::new(fields.station),
        time: at.time,
        ra: at.ra,
        dec: at.dec,
        mag: magnitude.map(|(value, _)| value),
        band: code_of_field(fields.band),
        mode: word(fields.mode),
        catalogue: word(fields.catalogue),
        note1: b' ',
        shape: Shape::Psv {
            mag: magnitude.map_or(0, |(_, places)| places),
        },
    }
}

/// What a data line says.
#[tactic(auto, unfolding(crate::specs::Reading::reading_of))]
fn reading(fields: &Fields) -> Result<Sighting, RuleCode>
    ensures { result ≡ reading_of (seen fields.now) }
{
    let names = names_in(fields)?;
    let stated = stated_in(fields)?;
    let magnitude = magnitude_in(fields.mag)?;
    let at = position_in(fields, stated)?;
    let sub = temporary_in(fields.sub)?;
    Ok(sighting_of_fields(fields, names, at, magnitude, sub))
}

/// What a data line with these fields says: the observation, or the first rule of S2, S3, S5, S6, S7, S9, S10, S11 and
/// S12 that the line breaks.
///
/// The rules are tested in this order. Takes no memory.
pub(crate) fn read_fields(fields: &Fields) -> Result<Sighting, RuleCode>
    ensures exact { result ≡ reading_of (seen fields.now) }
    ensures range { IfOk result IsSighting }
{
    reads_right();
    reading(fields)
}

/// What is read from a data line is its reading, and is in range. Nothing runs here: what the function promises is the
/// law.
#[tactic(auto, using(crate::proofs::LineLaws::reading_is, crate::proofs::RangeLaws::in_range))]
pub(crate) fn reads_right()
    ensures reading { (fields : Texts) → IsReading fields (reading_of fields) }
    ensures range { (fields : Texts) → IfOk (reading_of fields) IsSighting }
{
    below();
}
