//! Calls on the file of observations and tracklets and on plain lists of them, and whether both answer alike.

pub(crate) mod lines;
pub(crate) mod plain;

use item_list::NoMemory;
use obs_record::Short;
use packed_names::Designation;
use plain::Plain;
use std::alloc::Global;
use testkit_lines::{ENTRY, HOME, begin_track, counts, name, observe, retract, seen, set_home};
use tracklet_file::*;

/// A call that changes the file.
#[derive(Clone, Copy)]
pub(crate) enum Call {
    Track(Option<Designation>),
    Add(u64, i64),
    Retract(u64),
    Home(u64, Option<Designation>),
}

/// Makes it.
pub(crate) fn make(file: &mut TrackletFile, call: Call) -> Result<(), NoMemory> {
    match call {
        Call::Track(home) => {
            let _number = begin_track(file, home)?;
        }
        Call::Add(track, ns) => {
            let _number = observe(file, track, ns)?;
        }
        Call::Retract(k) => retract(file, k),
        Call::Home(t, home) => set_home(file, t, home),
    }
    Ok(())
}

fn make_plain(plain: &mut Plain, call: Call) -> Result<(), NoMemory> {
    match call {
        Call::Track(home) => {
            let station = Short::new(b"703");
            plain.add_track(Tracklet {
                name: name(),
                station,
                home,
            })?;
        }
        Call::Add(track, ns) => {
            if let Some(s) = seen(ns) {
                plain.add(track, s, ENTRY)?;
            }
        }
        Call::Retract(k) => plain.retract(k),
        Call::Home(t, home) => plain.set_home(t, home),
    }
    Ok(())
}

// Whether the two answer every question alike, over numbers to 12 and times to 40.
fn agree(file: &TrackletFile, plain: &Plain) -> bool {
    let numbers = (0..13).all(|k| {
        file.first_of(k) == plain.first_after(k, 0) && file.next_of(k) == plain.next_of(k)
    });
    let positions = (0..5).all(|tens: i64| match seen(tens * 10) {
        Some(s) => file.has_live(s.station, s.time, s.ra, s.dec) == plain.has_live(&s),
        None => false,
    });
    let homes = (0..5).all(|after| file.next_at(HOME, after) == plain.next_at(HOME, after));
    numbers
        && positions
        && homes
        && [file.isolated(), file.homed(), file.retracted()] == plain.counts()
}

/// Calls that are made on both forms, one after the other.
const CALLS: &[Call] = &[
    Call::Track(None),
    Call::Add(1, 10),
    Call::Track(Some(HOME)),
    Call::Add(2, 10),
    Call::Add(1, 10),
    Call::Add(1, 20),
    Call::Retract(1),
    Call::Add(2, 30),
    Call::Retract(3),
    Call::Home(1, Some(HOME)),
    Call::Retract(2),
    Call::Add(1, 10),
    Call::Home(2, None),
    Call::Track(None),
    Call::Add(3, 20),
    Call::Retract(4),
    Call::Retract(7),
    Call::Add(2, 0),
    // The latest of all, retracted, and one more at its place, which is no later.
    Call::Add(3, 40),
    Call::Retract(9),
    Call::Add(3, 40),
    Call::Retract(10),
    Call::Add(3, 40),
];

fn is_made(file: &mut TrackletFile, plain: &mut Plain, call: Call) -> bool {
    make(file, call).is_ok() && make_plain(plain, call).is_ok()
}

// The first call after which the two don't agree, counted from 0; None where there is none.
fn wrong_call(file: &mut TrackletFile, plain: &mut Plain, calls: &[Call]) -> Option<usize> {
    for (row, &call) in calls.iter().enumerate() {
        if !is_made(file, plain, call) || !agree(file, plain) {
            return Some(row);
        }
    }
    None
}

// The same over new ones, and the counts after all calls; None where memory was refused.
fn called(alloc: Global) -> Option<(Option<usize>, [u64; 5])> {
    let mut file = TrackletFile::new(alloc).ok()?;
    let mut plain = Plain::new(alloc);
    let wrong = wrong_call(&mut file, &mut plain, CALLS);
    Some((wrong, counts(&file)))
}

#[test]
fn answers_as_the_plain_lists(rt: HostRuntime) {
    let found = called(rt.alloc());
    assert_eq!(rt; found, Some((None, [3, 1, 7, 11, 3])));
}
