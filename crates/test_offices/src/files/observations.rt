//! Tests of the file of observations and tracklets, against what was worked out by hand.

use obs_record::Short;
use packed_names::Designation;
use std::alloc::Global;
use testkit_lines::{ENTRY, HOME, begin_track, counts, observe, retract, seen, set_home};
use tracklet_file::*;

/// The numbers of tracklets, and their homes.
const HOMES: &[(u64, Option<Designation>)] = &[(1, None), (2, Some(HOME))];

fn begin_all(file: &mut TrackletFile, rows: &[(u64, Option<Designation>)]) -> bool {
    for &(number, home) in rows {
        if begin_track(file, home).ok() != Some(number) {
            return false;
        }
    }
    true
}

/// The numbers of observations, their moments, and their tracklets.
const OBSERVED: &[(u64, i64, u64)] = &[
    (1, 1, 1),
    (2, 2, 2),
    (3, 3, 1),
    (4, 4, 2),
    (5, 5, 1),
    (6, 6, 1),
];

fn observe_all(file: &mut TrackletFile, rows: &[(u64, i64, u64)]) -> bool {
    for &(number, ns, track) in rows {
        if observe(file, track, ns).ok() != Some(number) {
            return false;
        }
    }
    true
}

// Tracklet 1, isolated, with the observations 1, 3, 5 and 6, and tracklet 2, which has a home, with 2 and 4. Then
// observation 3 is retracted, tracklet 1 gets the home, and tracklet 2 loses it.
fn fill(file: &mut TrackletFile) -> bool {
    if !begin_all(file, HOMES) || !observe_all(file, OBSERVED) {
        return false;
    }
    retract(file, 3);
    set_home(file, 1, Some(HOME));
    set_home(file, 2, None);
    true
}

fn filled(alloc: Global) -> Option<TrackletFile> {
    let mut file = TrackletFile::new(alloc).ok()?;
    let done = fill(&mut file);
    done.then_some(file)
}

fn is_live(file: &TrackletFile, k: u64) -> bool {
    file.sighting(k).is_some() && file.is_live(k)
}

// What is told of an observation.
type Told = (Option<u64>, Option<i64>, bool, Option<u64>);

// What an observation is of, when it was made, whether it is live, and which comes next.
fn observation(file: &TrackletFile, k: u64) -> Told {
    let time = file.sighting(k).map(|s| s.time.ns());
    (file.track_of(k), time, is_live(file, k), file.next_of(k))
}

fn home(file: &TrackletFile, t: u64) -> Option<Designation> {
    match file.name(t) {
        Some(_) => file.home(t),
        None => None,
    }
}

fn has_live(file: &TrackletFile, station: &[u8], ns: i64) -> bool {
    seen(ns).is_some_and(|s| file.has_live(Short::new(station), s.time, s.ra, s.dec))
}

/// Observations, and what is told of them.
const OBSERVATIONS: &[(u64, Told)] = &[
    (0, (None, None, false, None)),
    (1, (Some(1), Some(1), true, Some(3))),
    (2, (Some(2), Some(2), true, Some(4))),
    (3, (Some(1), Some(3), false, Some(5))),
    (4, (Some(2), Some(4), true, None)),
    (5, (Some(1), Some(5), true, Some(6))),
    (6, (Some(1), Some(6), true, None)),
    (7, (None, None, false, None)),
];

// The first of them of which something else is told, counted from 0; None where there is none. So are those below.
fn wrong_observation(file: &TrackletFile, rows: &[(u64, Told)]) -> Option<usize> {
    for (row, &(k, wanted)) in rows.iter().enumerate() {
        if observation(file, k) != wanted {
            return Some(row);
        }
    }
    None
}

// The first wrong observation, the entry of the sixth, and the counts; None where memory was refused.
fn observations(alloc: Global) -> Option<(Option<usize>, Option<u64>, [u64; 5])> {
    let file = filled(alloc)?;
    let wrong = wrong_observation(&file, OBSERVATIONS);
    Some((wrong, file.entry_of(6), counts(&file)))
}

#[test]
fn observations_in_their_places(rt: HostRuntime) {
    let found = observations(rt.alloc());
    assert_eq!(rt; found, Some((None, Some(ENTRY), [2, 3, 1, 6, 2])));
}

/// A tracklet, its first observation, its home, and whether it is of station 703.
type TrackletRow = (u64, Option<u64>, Option<Designation>, bool);

const TRACKLETS: &[TrackletRow] = &[
    (0, None, None, false),
    (1, Some(1), Some(HOME), true),
    (2, Some(2), None, true),
    (3, None, None, false),
];

fn is_of_703(file: &TrackletFile, t: u64) -> bool {
    file.station(t) == Some(Short::new(b"703"))
}

fn is_told(file: &TrackletFile, tracklet: TrackletRow) -> bool {
    let (t, first, at, of_703) = tracklet;
    file.first_of(t) == first && home(file, t) == at && is_of_703(file, t) == of_703
}

fn wrong_tracklet(file: &TrackletFile, rows: &[TrackletRow]) -> Option<usize> {
    for (row, &tracklet) in rows.iter().enumerate() {
        if !is_told(file, tracklet) {
            return Some(row);
        }
    }
    None
}

/// Stations with moments, and whether a live observation stands there.
const POSITIONS: &[(&[u8], i64, bool)] = &[
    (b"703", 1, true),
    (b"703", 3, false),
    (b"W84", 1, false),
    (b"703", 7, false),
];

fn wrong_position(file: &TrackletFile, rows: &[(&[u8], i64, bool)]) -> Option<usize> {
    for (row, &(code, ns, wanted)) in rows.iter().enumerate() {
        if has_live(file, code, ns) != wanted {
            return Some(row);
        }
    }
    None
}

// The first wrong tracklet, whether tracklets that aren't there have no station, and the first wrong position.
fn tracklets(alloc: Global) -> Option<(Option<usize>, [bool; 2], Option<usize>)> {
    let file = filled(alloc)?;
    let none = [file.station(0).is_none(), file.station(3).is_none()];
    let wrong = wrong_tracklet(&file, TRACKLETS);
    Some((wrong, none, wrong_position(&file, POSITIONS)))
}

#[test]
fn tracklets_and_positions(rt: HostRuntime) {
    let found = tracklets(rt.alloc());
    assert_eq!(rt; found, Some((None, [true; 2], None)));
}
