//! The reading of a line.

ghost use Rattle.std.specs.Prelude.{◌≡◌, ◌==◌, length, Result, OnOk, IfOk};
ghost use Rattle.obs_record.specs.declared.rule.RuleCode.{RuleCode};
ghost use Rattle.obs_record.specs.declared.sighting.Sighting.{Sighting};
ghost use Rattle.obs_record.specs.Sighting.{IsSighting};
ghost use Rattle.col80_format.specs.Columns.{coded};
ghost use Rattle.col80_format.specs.Reading.{head_of, position_of, tail_of, observed, reading_of};
ghost use Rattle.col80_format.specs.Rules.{IsReading};

use crate::laws::below;
use crate::magnitude::magnitude_in;
use crate::names::{Names, names_in};
use angle_fixed::{Dec, Ra, read_dms, read_hms};
use ascii_text::blanks::are_blanks;
use ascii_text::characters::are_printable;
use obs_record::{Coded, RuleCode, Shape, Short, Sighting, is_refused_mode};
use obs_time::{Instant, read_day_fraction};

/// When and where: columns 16 to 56, and how many decimals they have.
#[derive(Clone, Copy)]
pub(crate) struct Position {
    time: Instant,
    days: u8,
    ra: Ra,
    seconds: u8,
    dec: Dec,
    arcseconds: u8,
    minus: bool,
}

/// What a letter says: nothing where it is blank.
fn coded(letter: u8) -> Coded
    ensures { result ≡ coded letter }
{
    if letter == b' ' {
        Coded::Nothing
    } else {
        Coded::Letter(letter)
    }
}

/// Columns 1 to 15: the names, or the first broken rule of S1 to S4.
#[tactic(auto, unfolding(crate::specs::Reading::head_of))]
fn head_of(line: &[u8]) -> Result<Names, RuleCode>
    ensures exact { result ≡ head_of line.now }
    ensures long { OnOk result (length line.now ≡ 80) }
{
    if line.len() != 80 {
        return Err(RuleCode::S1);
    }
    if !are_printable(line) {
        return Err(RuleCode::S2);
    }
    let names = names_in(line)?;
    if is_refused_mode(line[14]) {
        return Err(RuleCode::S4);
    }
    Ok(names)
}

/// The twelve bytes of an angle.
fn twelve(columns: &[u8]) -> &[u8; 12]
    requires { length columns.now ≡ 12 }
    ensures { result.now ≡ columns.now }
{
    columns.as_array().unwrap()
}

/// The seventeen bytes of a date.
fn seventeen(columns: &[u8]) -> &[u8; 17]
    requires { length columns.now ≡ 17 }
    ensures { result.now ≡ columns.now }
{
    columns.as_array().unwrap()
}

/// Columns 16 to 56: when and where, or the first broken rule of S5 to S7.
#[tactic(auto, unfolding(crate::specs::Reading::position_of))]
fn position_of(line: &[u8]) -> Result<Position, RuleCode>
    requires { length line.now ≡ 80 }
    ensures { result ≡ position_of line.now }
{
    let Ok((time, days)) = read_day_fraction(seventeen(&line[15..32])) else {
        return Err(RuleCode::S5);
    };
    let Ok((ra, seconds)) = read_hms(twelve(&line[32..44])) else {
        return Err(RuleCode::S6);
    };
    let Ok((dec, arcseconds, minus)) = read_dms(twelve(&line[44..56])) else {
        return Err(RuleCode::S7);
    };
    Ok(Position {
        time,
        days,
        ra,
        seconds,
        dec,
        arcseconds,
        minus,
    })
}

/// Columns 57 to 70: the magnitude and its decimals, or the first broken rule of S8 and S9.
#[tactic(auto, unfolding(crate::specs::Reading::tail_of))]
fn tail_of(line: &[u8]) -> Result<(Option<u32>, u8), RuleCode>
    requires { length line.now ≡ 80 }
    ensures { result ≡ tail_of line.now }
{
    if !are_blanks(&line[56..65]) {
        return Err(RuleCode::S8);
    }
    magnitude_in(&line[65..70])
}

/// The observation of a line whose parts were read.
fn observed(line: &[u8], names: Names, at: Position, magnitude: (Option<u32>, u8)) -> Sighting
    requires { length line.now ≡ 80 }
    ensures { result ≡ observed line.now names at magnitude }
{
    Sighting {
        perm: names.perm,
        prov: names.prov,
        sub: names.sub,
        station: Short::new(&line[77..80]),
        time: at.time,
        ra: at.ra,
        dec: at.dec,
        mag: magnitude.0,
        band: coded(line[70]),
        mode: coded(line[14]),
        catalogue: Coded::Nothing,
        note1: line[13],
        shape: Shape::Eighty {
            date: at.days,
            ra: at.seconds,
            dec: at.arcseconds,
            minus: at.minus,
            mag: magnitude.1,
        },
    }
}

/// What a line says.
#[tactic(auto, unfolding(crate::specs::Reading::reading_of))]
fn reading(line: &[u8]) -> Result<Sighting, RuleCode>
    ensures { result ≡ reading_of line.now }
{
    let names = head_of(line)?;
    let at = position_of(line)?;
    let magnitude = tail_of(line)?;
    Ok(observed(line, names, at, magnitude))
}

/// What an 80-column line says: the observation, or the first rule of S1 to S9 that the line breaks.
///
/// The rules are tested in their order, S1 to S9; other rules aren't answered. Takes no memory.
///
/// # Errors
///
/// The first rule of S1 to S9 that the line breaks.
pub fn read_line(line: &[u8]) -> Result<Sighting, RuleCode>
    ensures exact { result ≡ reading_of line.now }
    // The observation is that of the columns; or the rule is the first that the line breaks.
    ensures answer { IsReading line.now result }
    ensures only { (other : Result Sighting RuleCode) → IsReading line.now other → other ≡ result }
    ensures range { IfOk result IsSighting }
{
    below();
    reading(line)
}
