//! Rows of the database read as rows of the mirror. A row that isn't one in range is none.

ghost use Rattle.std.specs.Prelude.{◌≡◌, ◌⊎◌, ℕ, ℤ, pos, ◌<◌, List, [], length, map, false, None, Err, IfSome, IfOk};
ghost use Rattle.std.specs.List.{list_all, AllByRecursion};
ghost use Rattle.obs_time.specs.Instants.{IsInstantNs};
ghost use Rattle.act_bodies.specs.Members.{is_alphanumeric, is_station_code};
ghost use Rattle.sqlite.specs.declared.types.Value.TheVariants.{Int, Text};
ghost use Rattle.sqlite.specs.Order.{column};
ghost use Rattle.mirror_store.specs.Rows.{IsPrintedDesignation, IsEmpty, IsStation, IsObjectRow, IsSightRow};
ghost use Rattle.mirror_sqlite.specs.Stored.{name_text, code_text, shown_object, shown_sight};
ghost use Rattle.mirror_sqlite.specs.Shown.{greatest_count, IsCount, IsIntegerIn, IsRightAscension, IsDeclination};
ghost use Rattle.mirror_sqlite.specs.Shown.{IsDesignationText, ShowsObject, ShowsSight};

use mirror_store::{MirrorErr, ObjectRow, ObjectRows, SightRow, SightRows};
use obs_record::Short;
use obs_time::Instant;
use packed_names::{GREATEST_NUMBER, Label, Name, print, read};
use sqlite::Row;
use sqlite::types::ValueRef;
use std::alloc::Global;

/// The greatest right ascension, in units of 1/9,000,000,000,000 degree.
const LAST_RA: i64 = 3_239_999_999_999_999;

/// A quarter of a circle, in the same units.
const QUARTER: i64 = 810_000_000_000_000;

fn integer_at(row: &Row, at: usize) -> Option<i64>
    ensures shown { IfSome result (λ n. column row.now at ≡ Int n) }
    ensures none { result ≡ None → at < length row.now → (n : ℤ) → ¬ (column row.now at ≡ Int n) }
{
    match row.get_ref(at) {
        Ok(ValueRef::Int(value)) => Some(value),
        Ok(_) | Err(_) => None,
    }
}

fn count_at(row: &Row, at: usize) -> Option<u32>
    ensures shown { IfSome result (λ n. column row.now at ≡ Int (pos n)) }
    ensures none { result ≡ None → at < length row.now → ¬ IsCount greatest_count (column row.now at) }
{
    let value = integer_at(row, at)?;
    u32::try_from(value).ok()
}

fn text_at(row: &Row, at: usize) -> Option<&[u8]>
    ensures shown { IfSome result (λ text. column row.now at ≡ Text text.now) }
    ensures none { result ≡ None → at < length row.now → (text : List ℕ) → ¬ (column row.now at ≡ Text text) }
{
    match row.get_ref(at) {
        Ok(ValueRef::Text(text)) => Some(text),
        Ok(_) | Err(_) => None,
    }
}

/// The label of a printed designation.
fn designation_label(text: &[u8]) -> Option<Label>
    ensures shown { IfSome result (λ label. IsPrintedDesignation label × (name_text label ≡ text.now)) }
    ensures none { result ≡ None → ¬ IsDesignationText text.now }
{
    match read(text) {
        Ok(Name::Designation(designation)) => Some(print(Name::Designation(designation))),
        Ok(Name::Number(_)) => None,
        Err(_) => None,
    }
}

/// The label of a printed designation, or the empty one of an empty text.
fn object_label(text: &[u8]) -> Option<Label>
    ensures shown { IfSome result
        (λ label. (IsPrintedDesignation label ⊎ IsEmpty label) × (name_text label ≡ text.now)) }
    ensures none { result ≡ None → ¬ (IsDesignationText text.now ⊎ (text.now ≡ [])) }
{
    if text.is_empty() {
        return Some(Label {
            len: 0,
            bytes: [0; 13],
        });
    }
    designation_label(text)
}

fn is_alphanumeric(byte: u8) -> bool
    ensures { result ≡ is_alphanumeric byte }
{
    byte.is_ascii_alphanumeric()
}

fn are_alphanumeric(text: &[u8]) -> bool
    ensures { result ≡ list_all is_alphanumeric text.now }
{
    text.iter().all(|byte| is_alphanumeric(*byte))
}

/// Whether the text is 3 letters or digits.
fn is_station_code(text: &[u8]) -> bool
    ensures { result ≡ is_station_code text.now }
{
    text.len() == 3 && are_alphanumeric(text)
}

fn station(text: &[u8]) -> Option<Short>
    ensures shown { IfSome result (λ code. IsStation code × (code_text code ≡ text.now)) }
    ensures none { result ≡ None → is_station_code text.now ≡ false }
{
    if is_station_code(text) {
        Some(Short::new(text))
    } else {
        None
    }
}

/// A moment, in nanoseconds since 1970.
fn moment_at(row: &Row, at: usize) -> Option<i64>
    ensures shown { IfSome result (λ ns. column row.now at ≡ Int ns) }
    ensures range { IfSome result IsInstantNs }
    ensures none { result ≡ None → at < length row.now → ¬ IsIntegerIn IsInstantNs (column row.now at) }
{
    let ns = integer_at(row, at)?;
    let _moment = Instant::new(ns)?;
    Some(ns)
}

/// A right ascension.
fn ra_at(row: &Row, at: usize) -> Option<i64>
    ensures shown { IfSome result (λ ra. column row.now at ≡ Int ra) }
    ensures range { IfSome result IsRightAscension }
    ensures none { result ≡ None → at < length row.now → ¬ IsIntegerIn IsRightAscension (column row.now at) }
{
    let ra = integer_at(row, at)?;
    if 0 <= ra && ra <= LAST_RA {
        Some(ra)
    } else {
        None
    }
}

/// A declination.
fn dec_at(row: &Row, at: usize) -> Option<i64>
    ensures shown { IfSome result (λ dec. column row.now at ≡ Int dec) }
    ensures range { IfSome result IsDeclination }
    ensures none { result ≡ None → at < length row.now → ¬ IsIntegerIn IsDeclination (column row.now at) }
{
    let dec = integer_at(row, at)?;
    if -QUARTER <= dec && dec <= QUARTER {
        Some(dec)
    } else {
        None
    }
}

/// The object that a row shows; none where it shows no object in range.
#[tactic(auto, using(crate::proofs::Showing::object_columns))]
pub fn object_of(row: &Row) -> Option<ObjectRow>
    ensures shown { IfSome result (λ object. row.now ≡ shown_object object) }
    ensures range { IfSome result IsObjectRow }
    ensures none { result ≡ None → ¬ ShowsObject row.now }
{
    if row.column_count() != 4 {
        return None;
    }
    let place = count_at(row, 0)?;
    let principal = designation_label(text_at(row, 1)?)?;
    let number = count_at(row, 2)?;
    let observations = count_at(row, 3)?;
    if number > GREATEST_NUMBER {
        return None;
    }
    Some(ObjectRow {
        place,
        principal,
        number,
        observations,
    })
}

/// The observation that a row shows; none where it shows no observation in range.
#[tactic(auto, using(crate::proofs::Showing::sight_columns))]
pub fn sight_of(row: &Row) -> Option<SightRow>
    ensures shown { IfSome result (λ sight. row.now ≡ shown_sight sight) }
    ensures range { IfSome result IsSightRow }
    ensures none { result ≡ None → ¬ ShowsSight row.now }
{
    if row.column_count() != 6 {
        return None;
    }
    let id = count_at(row, 0)?;
    let object = object_label(text_at(row, 1)?)?;
    let time = moment_at(row, 2)?;
    let ra = ra_at(row, 3)?;
    let dec = dec_at(row, 4)?;
    let station = station(text_at(row, 5)?)?;
    Some(SightRow {
        id,
        object,
        time,
        ra,
        dec,
        station,
    })
}

/// The objects that the rows show. It takes memory.
///
/// # Errors
///
/// A row shows no object, or out of memory.
pub fn objects_of(alloc: Global, rows: &[Row]) -> Result<ObjectRows, MirrorErr>
    ensures shown { IfOk result (λ objects. rows.now ≡ map shown_object objects) }
    ensures range { IfOk result (AllByRecursion IsObjectRow) }
    ensures failed { result ≡ Err MirrorErr.Failed → ¬ AllByRecursion ShowsObject rows.now }
{
    let mut objects = ObjectRows::new(alloc);
    for row in rows {
        match object_of(row) {
            Some(object) => objects.push(object)?,
            None => return Err(MirrorErr::Failed),
        }
    }
    Ok(objects)
}

/// The observations that the rows show. It takes memory.
///
/// # Errors
///
/// A row shows no observation, or out of memory.
pub fn sights_of(alloc: Global, rows: &[Row]) -> Result<SightRows, MirrorErr>
    ensures shown { IfOk result (λ sights. rows.now ≡ map shown_sight sights) }
    ensures range { IfOk result (AllByRecursion IsSightRow) }
    ensures failed { result ≡ Err MirrorErr.Failed → ¬ AllByRecursion ShowsSight rows.now }
{
    let mut sights = SightRows::new(alloc);
    for row in rows {
        match sight_of(row) {
            Some(sight) => sights.push(sight)?,
            None => return Err(MirrorErr::Failed),
        }
    }
    Ok(sights)
}
