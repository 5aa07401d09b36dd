//! When and where something was observed.

ghost use Rattle.std.specs.Prelude.{◌≡◌};
ghost use Rattle.ades_psv.specs.Fields.{seen};
ghost use Rattle.ades_psv.specs.Reading.{time_in, ra_in, dec_in, stated_in, position_from};

use crate::fields::Fields;
use angle_fixed::{Dec, Ra, read_dec_degrees, read_ra_degrees};
use obs_record::RuleCode;
use obs_time::{Instant, read_iso};

/// What a data line states of when and where, each part or none.
#[derive(Clone, Copy)]
pub(crate) struct Stated {
    pub(crate) time: Option<Instant>,
    pub(crate) ra: Option<Ra>,
    pub(crate) dec: Option<Dec>,
}

/// When and where.
#[derive(Clone, Copy)]
pub(crate) struct Position {
    pub(crate) time: Instant,
    pub(crate) ra: Ra,
    pub(crate) dec: Dec,
}

/// The time in a field that isn't empty, or rule S5 where it shows none.
#[tactic(auto, unfolding(crate::specs::Reading::time_in))]
fn time_in(text: &[u8]) -> Result<Option<Instant>, RuleCode>
    ensures { result ≡ time_in text.now }
{
    if text.is_empty() {
        return Ok(None);
    }
    match read_iso(text) {
        Ok(time) => Ok(Some(time)),
        Err(_) => Err(RuleCode::S5),
    }
}

/// The right ascension in a field that isn't empty, or rule S6 where it shows none.
#[tactic(auto, unfolding(crate::specs::Reading::ra_in))]
fn ra_in(text: &[u8]) -> Result<Option<Ra>, RuleCode>
    ensures { result ≡ ra_in text.now }
{
    if text.is_empty() {
        return Ok(None);
    }
    match read_ra_degrees(text) {
        Ok(ra) => Ok(Some(ra)),
        Err(_) => Err(RuleCode::S6),
    }
}

/// The declination in a field that isn't empty, or rule S7 where it shows none.
#[tactic(auto, unfolding(crate::specs::Reading::dec_in))]
fn dec_in(text: &[u8]) -> Result<Option<Dec>, RuleCode>
    ensures { result ≡ dec_in text.now }
{
    if text.is_empty() {
        return Ok(None);
    }
    match read_dec_degrees(text) {
        Ok(dec) => Ok(Some(dec)),
        Err(_) => Err(RuleCode::S7),
    }
}

/// What a data line states of when and where, or the first broken rule of S5 to S7.
#[tactic(auto, unfolding(crate::specs::Reading::stated_in))]
pub(crate) fn stated_in(fields: &Fields) -> Result<Stated, RuleCode>
    ensures { result ≡ stated_in (seen fields.now) }
{
    let time = time_in(fields.time)?;
    let ra = ra_in(fields.ra)?;
    let dec = dec_in(fields.dec)?;
    Ok(Stated { time, ra, dec })
}

/// When and where, or rule S11 where a part isn't stated.
#[tactic(auto, unfolding(crate::specs::Reading::position_from))]
pub(crate) fn position_from(stated: Stated) -> Result<Position, RuleCode>
    ensures { result ≡ position_from stated }
{
    let time = stated.time.ok_or(RuleCode::S11)?;
    let ra = stated.ra.ok_or(RuleCode::S11)?;
    let dec = stated.dec.ok_or(RuleCode::S11)?;
    Ok(Position { time, ra, dec })
}
