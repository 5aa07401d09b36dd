//! What a mirror holds, as lines.

use mirror_store::{Mirror, ObjectRow, ObjectRows, SightRow, SightRows};
use obs_time::Instant;
use std::alloc::Global;
use testkit_sessions::{Found, NoMemory, Wrong};

/// What a mirror is to hold.
#[derive(Clone, Copy)]
pub struct Holds<'a> {
    /// A line for each object: its place, its principal designation, its number and its observations, parted by bars.
    pub objects: &'a str,
    /// A line for each observation, by time: its id, its object, its time, its right ascension, its declination and its
    /// station, parted by bars.
    pub sights: &'a str,
}

/// No object and no observation.
pub const NOTHING: Holds<'static> = Holds {
    objects: "",
    sights: "",
};

/// The first moment of 1800 and the last one of 2199, in nanoseconds since 1970.
const FROM: i64 = -5_364_662_400_000_000_000;

const TO: i64 = 7_258_118_399_999_999_999;

/// The text that begins so many bytes of a row's name.
fn put_text(text: &mut String, len: u8, bytes: &[u8]) -> Result<(), NoMemory> {
    for byte in bytes.iter().take(usize::from(len)) {
        text.push(char::from(*byte))?;
    }
    Ok(())
}

fn put_object(alloc: Global, text: &mut String, row: &ObjectRow) -> Result<(), NoMemory> {
    let place = format!(in alloc; "{}|", row.place)?;
    text.push_str(place.as_str())?;
    put_text(text, row.principal.len, &row.principal.bytes)?;
    let rest = format!(in alloc; "|{}|{}\n", row.number, row.observations)?;
    text.push_str(rest.as_str())
}

fn put_sight(alloc: Global, text: &mut String, row: &SightRow) -> Result<(), NoMemory> {
    let id = format!(in alloc; "{}|", row.id)?;
    text.push_str(id.as_str())?;
    put_text(text, row.object.len, &row.object.bytes)?;
    let rest = format!(in alloc; "|{}|{}|{}|", row.time, row.ra, row.dec)?;
    text.push_str(rest.as_str())?;
    put_text(text, row.station.len, &row.station.bytes)?;
    text.push_str("\n")
}

fn objects_text(alloc: Global, rows: &ObjectRows) -> Result<String, NoMemory> {
    let mut text = String::new(alloc);
    for row in rows.iter() {
        put_object(alloc, &mut text, row)?;
    }
    Ok(text)
}

fn sights_text(alloc: Global, rows: &SightRows) -> Result<String, NoMemory> {
    let mut text = String::new(alloc);
    for row in rows.iter() {
        put_sight(alloc, &mut text, row)?;
    }
    Ok(text)
}

/// That the mirror told nothing.
const UNTOLD: Wrong = Wrong {
    mark: 0,
    found: Found::Untold,
};

/// The objects that a mirror tells.
fn told_objects<M: Mirror>(alloc: Global, mirror: &mut M) -> Result<String, Wrong> {
    match mirror.objects() {
        Ok(rows) => Ok(objects_text(alloc, &rows)?),
        Err(_) => Err(UNTOLD),
    }
}

/// The observations that a mirror tells from the one moment on and before the other, in nanoseconds since 1970: a line
/// for each.
///
/// # Errors
///
/// It doesn't tell them.
pub fn told_between<M: Mirror>(
    alloc: Global,
    mirror: &mut M,
    from: i64,
    to: i64,
) -> Result<String, Wrong> {
    let (Some(from), Some(to)) = (Instant::new(from), Instant::new(to)) else {
        return Err(UNTOLD);
    };
    match mirror.between(from, to) {
        Ok(rows) => Ok(sights_text(alloc, &rows)?),
        Err(_) => Err(UNTOLD),
    }
}

/// Whether the mirror holds what it is to hold. It takes two calls of the mirror.
pub(crate) fn is_held<M: Mirror>(
    alloc: Global,
    mirror: &mut M,
    wanted: &Holds,
    mark: usize,
) -> Result<(), Wrong> {
    let objects = told_objects(alloc, mirror)?;
    if objects.as_str() != wanted.objects {
        let found = Found::Objects(objects);
        return Err(Wrong { mark, found });
    }
    let sights = told_between(alloc, mirror, FROM, TO)?;
    if sights.as_str() != wanted.sights {
        let found = Found::Sights(sights);
        return Err(Wrong { mark, found });
    }
    Ok(())
}
