//! Carrying: when a second file is in force, what is carried into one that isn't, and calls that fail.
//!
//! What carries is over any disk: the type of a disk in memory makes each proof that it stands in dear.

use super::files::{
    BOTH, Held, ONE, PLAIN_BOTH, PLAIN_ONE, disk_with, expect_none_wrong, held_on, is_file,
    may_be_left,
};
use disk_model::{Disk, Failed};
use obs_journal::{Parcels, carried_length, carry, in_force, open_first};
use std::alloc::Global;

// A second file, and whether it is in force.
const FORCES: &[(&[u8], bool)] = &[
    (b"", false),
    (b"\0", false),
    (b"\x01", false),
    (b"\0\0", false),
    (b"\0\x01", false),
    (b"\x02\x01", false),
    (b"\x01\0", true),
    (b"\x01\x01", true),
    (b"\x01\x02\0", true),
    (&PLAIN_ONE, true),
    (&BOTH, true),
];

fn is_in_force_on<D: Disk>(disk: D) -> Result<bool, Failed> {
    let mut disk = disk;
    in_force(&mut disk)
}

fn is_in_force(alloc: Global, file: &[u8]) -> Option<bool> {
    match disk_with(alloc, file, &[]) {
        Some(disk) => is_in_force_on(disk).ok(),
        None => None,
    }
}

// The first row with another answer, counted from 0; None where there is none. So are those below.
fn wrong_force(alloc: Global) -> Option<usize> {
    for (row, &(file, wanted)) in FORCES.iter().enumerate() {
        if is_in_force(alloc, file) != Some(wanted) {
            return Some(row);
        }
    }
    None
}

#[test]
fn files_in_force(rt: HostRuntime) {
    let wrong = wrong_force(rt.alloc());
    expect_none_wrong(&rt, wrong);
}

// The parcels of a first file.
fn parcels_on<D: Disk>(alloc: Global, first: D) -> Option<Parcels> {
    let mut first = first;
    open_first(alloc, &mut first).ok()
}

fn parcels_in(alloc: Global, file: &[u8]) -> Option<Parcels> {
    match disk_with(alloc, file, &[]) {
        Some(first) => parcels_on(alloc, first),
        None => None,
    }
}

// Carries the parcels into a second file, unless that is in force.
fn carried_on<D: Disk>(parcels: &Parcels, second: &mut D) -> Result<(), Failed> {
    if in_force(second)? {
        return Err(Failed);
    }
    let Some(_length) = carried_length(parcels) else {
        return Err(Failed);
    };
    carry(parcels, second)
}

fn is_carried_on<D: Disk>(parcels: &Parcels, second: D, want: &[u8]) -> bool {
    let mut second = second;
    carried_length(parcels) == Some(want.len() as u64)
        && carried_on(parcels, &mut second).is_ok()
        && is_file(&mut second, want)
}

fn is_carried(alloc: Global, first: &[u8], second: &[u8], want: &[u8]) -> bool {
    match (parcels_in(alloc, first), disk_with(alloc, second, &[])) {
        (Some(parcels), Some(second)) => is_carried_on(&parcels, second, want),
        _ => false,
    }
}

// A first file, a second one that isn't in force, and the second one once the first is carried into it.
const CARRIED: &[(&[u8], &[u8], &[u8])] = &[
    (b"", b"", b"\x01\0"),
    (b"\0", &[0; 150], b"\x01\0"),
    (&PLAIN_ONE, b"", &ONE),
    (&PLAIN_ONE, b"\0", &ONE),
    (&PLAIN_ONE, b"\x01", &ONE),
    (&PLAIN_ONE, b"\x02", &ONE),
    (&PLAIN_ONE, b"\0\x01", &ONE),
    (&PLAIN_ONE, b"\x02\x01\0\0\0\x48", &ONE),
    (&PLAIN_ONE, &[0; 150], &ONE),
    (&PLAIN_BOTH, b"", &BOTH),
    (&PLAIN_BOTH, &[0; 190], &BOTH),
];

fn wrong_file(alloc: Global) -> Option<usize> {
    for (row, &(first, second, want)) in CARRIED.iter().enumerate() {
        if !is_carried(alloc, first, second, want) {
            return Some(row);
        }
    }
    None
}

#[test]
fn carried_files(rt: HostRuntime) {
    let wrong = wrong_file(rt.alloc());
    expect_none_wrong(&rt, wrong);
}

// A second file, the call that fails while the one parcel is carried into it, the picks of a crash then, which are five
// for each write and cut since the last sync, multiplied, whether the parcel is carried, and what the crash leaves:
// where nothing is left that wasn't safe, and where all is left of the first write since the last sync.
type Fault = (&'static [u8], u64, u64, bool, Held, Held);

const ZEROS: &[u8] = &[0; 150];

// Carrying the one parcel into an empty file makes twelve calls: it is synced, and its length is asked for, which says
// that it isn't in force; its length is asked for again, a byte is written, and it is synced; the gate, the parcel, its
// digest and the closed gate are written, and it is synced; then its first byte is written, and it is synced. Of a file
// of 150 bytes the first byte is read too, as the third call, and it is cut.
const FAULTS: &[Fault] = &[
    (b"", 1, 1, false, Held::Idle, Held::Idle),
    (b"", 2, 1, false, Held::Idle, Held::Idle),
    (b"", 3, 1, false, Held::Idle, Held::Idle),
    (b"", 4, 5, false, Held::Idle, Held::Idle),
    (b"", 5, 5, false, Held::Idle, Held::Idle),
    (b"", 6, 5, false, Held::Idle, Held::Idle),
    (b"", 7, 25, false, Held::Idle, Held::Idle),
    (b"", 8, 125, false, Held::Idle, Held::Idle),
    (b"", 9, 625, false, Held::Idle, Held::Idle),
    (b"", 10, 625, false, Held::Idle, Held::Idle),
    (b"", 11, 5, false, Held::Idle, Held::One),
    (b"", 12, 5, false, Held::Idle, Held::One),
    (b"", 13, 1, true, Held::One, Held::One),
    // The one byte, which is 1, isn't left where another follows.
    (b"\x01", 4, 5, false, Held::Idle, Held::Idle),
    (b"\x01", 5, 5, false, Held::Idle, Held::Idle),
    (b"\x01", 6, 5, false, Held::Idle, Held::Idle),
    (b"\x01", 7, 25, false, Held::Idle, Held::Idle),
    (b"\x01", 8, 125, false, Held::Idle, Held::Idle),
    (b"\x01", 9, 625, false, Held::Idle, Held::Idle),
    (b"\x01", 10, 625, false, Held::Idle, Held::Idle),
    (b"\x01", 11, 5, false, Held::Idle, Held::One),
    (b"\x01", 12, 5, false, Held::Idle, Held::One),
    (ZEROS, 3, 1, false, Held::Idle, Held::Idle),
    (ZEROS, 4, 1, false, Held::Idle, Held::Idle),
    (ZEROS, 5, 5, false, Held::Idle, Held::Idle),
    (ZEROS, 6, 5, false, Held::Idle, Held::Idle),
    (ZEROS, 7, 5, false, Held::Idle, Held::Idle),
    (ZEROS, 8, 25, false, Held::Idle, Held::Idle),
    (ZEROS, 9, 125, false, Held::Idle, Held::Idle),
    (ZEROS, 10, 625, false, Held::Idle, Held::Idle),
    (ZEROS, 11, 625, false, Held::Idle, Held::Idle),
    (ZEROS, 12, 5, false, Held::Idle, Held::One),
    (ZEROS, 13, 5, false, Held::Idle, Held::One),
    (ZEROS, 14, 1, true, Held::One, Held::One),
];

// Carries them, and says whether that is done.
fn after_carry<D: Disk>(parcels: &Parcels, second: D) -> (bool, D) {
    let mut second = second;
    let is_done = carried_on(parcels, &mut second).is_ok();
    (is_done, second)
}

// Whether the parcels are carried, and what is left by this pick.
fn crashed(
    alloc: Global,
    parcels: &Parcels,
    file: &[u8],
    call: u64,
    pick: u64,
) -> Option<(bool, Held)> {
    match disk_with(alloc, file, &[call]) {
        Some(second) => {
            let (is_done, second) = after_carry(parcels, second);
            Some((is_done, held_on(alloc, second.crash(pick))?))
        }
        None => None,
    }
}

fn is_left(alloc: Global, parcels: &Parcels, fault: &Fault, pick: u64) -> bool {
    let &(file, call, _, carries, least, most) = fault;
    match crashed(alloc, parcels, file, call, pick) {
        Some((is_done, held)) => is_done == carries && may_be_left(held, least, most, pick),
        None => false,
    }
}

fn wrong_fault(alloc: Global, parcels: &Parcels, pick: u64) -> Option<usize> {
    for (row, fault) in FAULTS.iter().enumerate() {
        if pick < fault.2 && !is_left(alloc, parcels, fault, pick) {
            return Some(row);
        }
    }
    None
}

// Four writes stand between two syncs at most.
#[test]
fn failing_carries(rt: HostRuntime) {
    let parcels = parcels_in(rt.alloc(), &PLAIN_ONE).expect(&rt, "the one parcel");
    for pick in 0..625 {
        let wrong = wrong_fault(rt.alloc(), &parcels, pick);
        expect_none_wrong(&rt, wrong);
    }
}
