//! Many observations whose times are in no order, and whether the file finds their places as a plain list does.

use super::calls::lines::live_lines;
use super::calls::plain::Plain;
use item_list::NoMemory;
use std::alloc::Global;
use testkit_lines::{ENTRY, begin_track, observe, retract, seen};
use tracklet_file::*;

/// More observations than may wait outside the index of places, and more than it has room for at first.
const OBSERVATIONS: u32 = 600;

// The time of an observation: no two of them have the same one, and they are in no order.
fn time_of(number: u32) -> i64 {
    (number.wrapping_mul(37) % 607) as i64
}

fn add(file: &mut TrackletFile, plain: &mut Plain, number: u32) -> Result<(), NoMemory> {
    let ns = time_of(number);
    let _number = observe(file, 1, ns)?;
    match seen(ns) {
        Some(s) => plain.add(1, s, ENTRY),
        None => Ok(()),
    }
}

// How many of the times from 0 to 639 have a live observation, and how many of as many lines of those times, each third
// of which says none; None where the two forms don't agree on each.
fn places(alloc: Global, file: &TrackletFile, plain: &Plain) -> Option<(u32, usize)> {
    let mut found = 0u32;
    for ns in 0..640 {
        let s = seen(ns)?;
        let live = file.has_live(s.station, s.time, s.ra, s.dec);
        if live != plain.has_live(&s) {
            return None;
        }
        found = found.wrapping_add(live as u32);
    }
    Some((found, live_lines(alloc, file, plain, 640)?))
}

fn add_all(file: &mut TrackletFile, plain: &mut Plain, from: u32, to: u32) -> Result<(), NoMemory> {
    for number in from..to {
        add(file, plain, number)?;
    }
    Ok(())
}

// How many places are found after 400 observations, after all, after every third is retracted, and after 20 of them, of
// which 7 are retracted, are added once more. The room for all, and for more than those 20, is taken at once: so some
// wait outside the index of places at first and at last, and none between.
fn found(alloc: Global) -> Option<[Option<(u32, usize)>; 4]> {
    let mut file = TrackletFile::new(alloc).ok()?;
    let mut plain = Plain::new(alloc);
    let _track = begin_track(&mut file, None).ok()?;
    file.reserve(OBSERVATIONS, 0).ok()?;
    add_all(&mut file, &mut plain, 0, 400).ok()?;
    let some = places(alloc, &file, &plain);
    add_all(&mut file, &mut plain, 400, OBSERVATIONS).ok()?;
    let all = places(alloc, &file, &plain);
    for k in (1..OBSERVATIONS as u64).step_by(3) {
        retract(&mut file, k);
        plain.retract(k);
    }
    let retracted = places(alloc, &file, &plain);
    file.reserve(40, 0).ok()?;
    add_all(&mut file, &mut plain, 0, 20).ok()?;
    let again = places(alloc, &file, &plain);
    Some([some, all, retracted, again])
}

#[test]
fn places_in_no_order_are_found(rt: HostRuntime) {
    let found = found(rt.alloc());
    assert_eq!(rt;
        found,
        Some([
            Some((400, 266)),
            Some((600, 400)),
            Some((400, 268)),
            Some((407, 269))
        ])
    );
}
