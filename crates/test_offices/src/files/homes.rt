//! Tracklets that are given to designations and released, and what is found by designation after each call.

use super::calls::{Call, make};
use item_list::NoMemory;
use obs_record::Short;
use packed_names::{Designation, HalfMonth, Provisional};
use std::alloc::Global;
use testkit_lines::{HOME, name, set_home};
use tracklet_file::TrackletFile;

/// 1998 SB.
const OTHER: Designation = Designation::Provisional(Provisional {
    half: HalfMonth {
        year: 1998,
        index: 17,
    },
    order: 2,
});

// The first tracklet of 2024 EA, the first of 1998 SB, and the one after 1 there.
type Found = (Option<u64>, Option<u64>, Option<u64>);

/// Calls, and what is found after each of them.
const REHOMED: &[(Call, Found)] = &[
    (Call::Track(None), (None, None, None)),
    (Call::Track(Some(HOME)), (Some(2), None, None)),
    (Call::Track(None), (Some(2), None, None)),
    (Call::Home(1, Some(HOME)), (Some(1), None, None)),
    (Call::Home(1, None), (Some(2), None, None)),
    (Call::Home(1, Some(OTHER)), (Some(2), Some(1), None)),
    (Call::Home(2, Some(OTHER)), (None, Some(1), Some(2))),
    (Call::Home(1, None), (None, Some(2), Some(2))),
    (Call::Home(3, None), (None, Some(2), Some(2))),
    (Call::Home(2, None), (None, None, None)),
];

fn found(file: &TrackletFile) -> Found {
    (
        file.next_at(HOME, 0),
        file.next_at(OTHER, 0),
        file.next_at(OTHER, 1),
    )
}

// The first call after which something else is found, counted from 0; None where there is none.
fn wrong_row(file: &mut TrackletFile, rows: &[(Call, Found)]) -> Option<usize> {
    for (row, &(call, wanted)) in rows.iter().enumerate() {
        if make(file, call).is_err() || found(file) != wanted {
            return Some(row);
        }
    }
    None
}

// The first wrong row over a new file; None where memory was refused.
fn rehomed(alloc: Global) -> Option<Option<usize>> {
    let mut file = TrackletFile::new(alloc).ok()?;
    Some(wrong_row(&mut file, REHOMED))
}

#[test]
fn given_and_released_in_turn(rt: HostRuntime) {
    let wrong = rehomed(rt.alloc());
    assert_eq!(rt; wrong, Some(None));
}

// Three isolated tracklets, in memory that was taken for exactly three.
fn add_isolated(file: &mut TrackletFile) -> Result<(), NoMemory> {
    file.reserve(0, 3)?;
    let station = Short::new(b"703");
    let _first = file.add_track(name(), station, None);
    let _second = file.add_track(name(), station, None);
    let _third = file.add_track(name(), station, None);
    Ok(())
}

// Gives each of the three to the designation.
fn give_all(file: &mut TrackletFile) {
    for t in 1..4 {
        set_home(file, t, Some(HOME));
    }
}

// Whether the designation has the tracklets 1 to 3, one after the other, and no further one.
fn has_all(file: &TrackletFile) -> bool {
    file.next_at(HOME, 0) == Some(1)
        && file.next_at(HOME, 1) == Some(2)
        && file.next_at(HOME, 2) == Some(3)
        && file.next_at(HOME, 3).is_none()
}

// The same once each of three isolated ones was given to it; None where memory was refused.
fn given_late(alloc: Global) -> Option<bool> {
    let mut file = TrackletFile::new(alloc).ok()?;
    add_isolated(&mut file).ok()?;
    give_all(&mut file);
    Some(has_all(&file))
}

#[test]
fn given_long_after_they_came(rt: HostRuntime) {
    let given = given_late(rt.alloc());
    assert_eq!(rt; given, Some(true));
}
