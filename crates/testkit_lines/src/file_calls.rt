//! Calls on a file of observations and tracklets, each made only where it may be.

use angle_fixed::{Dec, Ra};
use item_list::NoMemory;
use obs_record::{Coded, Shape, Short, Sighting, TrackName};
use obs_time::Instant;
use packed_names::{Designation, HalfMonth, Provisional};
use std::alloc::AllocError;
use tracklet_file::TrackletFile;

/// The entry with which each observation is filed.
pub const ENTRY: u64 = 7;

/// 2024 EA.
pub const HOME: Designation = Designation::Provisional(Provisional {
    half: HalfMonth {
        year: 2024,
        index: 4,
    },
    order: 1,
});

/// The name of each tracklet.
pub fn name() -> TrackName {
    TrackName::Sub(Short::new(b"P10abcd"))
}

/// An observation from station 703 at so many nanoseconds, one unit north of as many units of right ascension; None
/// where there is no such moment or place.
pub fn seen(ns: i64) -> Option<Sighting> {
    let time = Instant::new(ns)?;
    let ra = Ra::new(ns)?;
    let dec = Dec::new(1)?;
    Some(Sighting {
        perm: None,
        prov: None,
        sub: Some(Short::new(b"P10abcd")),
        station: Short::new(b"703"),
        time,
        ra,
        dec,
        mag: None,
        band: Coded::Nothing,
        mode: Coded::Nothing,
        catalogue: Coded::Nothing,
        note1: b' ',
        shape: Shape::Psv { mag: 0 },
    })
}

/// Takes memory for a tracklet, and begins it: its number.
///
/// # Errors
///
/// Memory was refused.
pub fn begin_track(file: &mut TrackletFile, home: Option<Designation>) -> Result<u64, NoMemory> {
    file.reserve(0, 1)?;
    Ok(file.add_track(name(), Short::new(b"703"), home))
}

/// Takes memory for an observation of a tracklet at so many nanoseconds, and files it: its number.
///
/// # Errors
///
/// Memory was refused, or there is no such tracklet or observation.
pub fn observe(file: &mut TrackletFile, track: u64, ns: i64) -> Result<u64, NoMemory> {
    file.reserve(1, 0)?;
    match (file.name(track), seen(ns)) {
        (Some(_), Some(s)) => Ok(file.add(track, s, ENTRY)),
        _ => Err(AllocError),
    }
}

/// Retracts an observation where it is live.
pub fn retract(file: &mut TrackletFile, k: u64) {
    if file.sighting(k).is_some() && file.is_live(k) {
        file.retract(k);
    }
}

/// Gives a tracklet that is there to a designation, or releases it.
pub fn set_home(file: &mut TrackletFile, t: u64, home: Option<Designation>) {
    if file.name(t).is_some() {
        file.set_home(t, home);
    }
}

/// How many observations are isolated, how many are of an object and how many retracted, and how many observations and
/// tracklets there are.
pub fn counts(file: &TrackletFile) -> [u64; 5] {
    [
        file.isolated(),
        file.homed(),
        file.retracted(),
        file.observations(),
        file.tracks(),
    ]
}
