//! Opening: what files give, each byte of one changed, each front of one, calls that fail, and what is added then.
//!
//! What opens is over any disk: the type of a disk in memory makes each proof that it stands in dear.

ghost use Rattle.std.specs.Prelude.{◌≡◌, ◌≤◌, None, IfSome};

use super::appends::{DONE, NOTHING, after_appends, next_on};
use super::files::{
    BOTH, Held, ONE, OTHER, Opened, PLAIN_BOTH, disk_with, expect_none_wrong, held_on, one,
    opened_on, other,
};
use disk_model::Disk;
use obs_journal::{Journal, Parcel, Parcels, Placed, in_force};
use std::alloc::Global;

// The one parcel, the other and the one again.
const THREE: [u8; 280] =
    *b"\x01\x01\0\0\0\x48\0\0\0\0\0\0\0\0\0\0\0\x01\x17\xc1\xfe\xe6\xa8\x7a\0\0\x01\
        {\"key\":\"observer-1\",\"name\":\"Ann\",\"role\":\"observer\"}\
        \x9e\xb5\xf8\xae\xd6\xbb\x29\x0b\x09\xb7\x49\x53\x7e\xc3\xa0\x2b\
        \x76\x13\x7c\x7f\x6d\xf5\xf5\x74\x19\xda\x70\x33\x7d\x05\x10\x41\
        \x01\0\0\0\x17\0\0\0\x07\0\0\0\0\0\0\0\x02\xff\xff\xff\xff\xff\xff\xff\xff\x0dhi\
        \x03\x07\xe6\xef\x3d\x31\x1c\xc9\x22\xcf\x43\x0f\x2a\xcd\xf0\x32\
        \xb7\xaf\x10\x7a\xd6\x8a\xbe\xb5\x9a\x10\x3c\x13\x78\x52\x45\x0f\
        \x01\0\0\0\x48\0\0\0\0\0\0\0\0\0\0\0\x01\x17\xc1\xfe\xe6\xa8\x7a\0\0\x01\
        {\"key\":\"observer-1\",\"name\":\"Ann\",\"role\":\"observer\"}\
        \xfb\x56\x37\xf6\x83\x54\x28\x86\x24\xc2\xfe\xc6\x83\x5c\xd3\x42\
        \xfe\x67\x8e\x33\xcd\x89\x95\xd2\xcb\x2f\x8c\x74\xe7\x80\xd7\xf2\0";

// The same with another bit in the middle digest, on which the last one goes on.
const WRONG_MIDDLE: [u8; 280] =
    *b"\x01\x01\0\0\0\x48\0\0\0\0\0\0\0\0\0\0\0\x01\x17\xc1\xfe\xe6\xa8\x7a\0\0\x01\
        {\"key\":\"observer-1\",\"name\":\"Ann\",\"role\":\"observer\"}\
        \x9e\xb5\xf8\xae\xd6\xbb\x29\x0b\x09\xb7\x49\x53\x7e\xc3\xa0\x2b\
        \x76\x13\x7c\x7f\x6d\xf5\xf5\x74\x19\xda\x70\x33\x7d\x05\x10\x41\
        \x01\0\0\0\x17\0\0\0\x07\0\0\0\0\0\0\0\x02\xff\xff\xff\xff\xff\xff\xff\xff\x0dhi\
        \x02\x07\xe6\xef\x3d\x31\x1c\xc9\x22\xcf\x43\x0f\x2a\xcd\xf0\x32\
        \xb7\xaf\x10\x7a\xd6\x8a\xbe\xb5\x9a\x10\x3c\x13\x78\x52\x45\x0f\
        \x01\0\0\0\x48\0\0\0\0\0\0\0\0\0\0\0\x01\x17\xc1\xfe\xe6\xa8\x7a\0\0\x01\
        {\"key\":\"observer-1\",\"name\":\"Ann\",\"role\":\"observer\"}\
        \x2c\x16\xfe\x50\x1e\xb4\xa2\xf1\x29\xf9\x10\x19\x87\x56\x41\x3a\
        \x93\xad\xfd\x4a\x02\xa8\x9e\x77\xf5\xb4\x38\x62\x68\x9a\x9f\xde\0";

// Both parcels, of which the second has the digest that it would have as the first.
const BEGUN_ANEW: [u8; 171] =
    *b"\x01\x01\0\0\0\x48\0\0\0\0\0\0\0\0\0\0\0\x01\x17\xc1\xfe\xe6\xa8\x7a\0\0\x01\
        {\"key\":\"observer-1\",\"name\":\"Ann\",\"role\":\"observer\"}\
        \x9e\xb5\xf8\xae\xd6\xbb\x29\x0b\x09\xb7\x49\x53\x7e\xc3\xa0\x2b\
        \x76\x13\x7c\x7f\x6d\xf5\xf5\x74\x19\xda\x70\x33\x7d\x05\x10\x41\
        \x01\0\0\0\x17\0\0\0\x07\0\0\0\0\0\0\0\x02\xff\xff\xff\xff\xff\xff\xff\xff\x0dhi\
        \x31\x9f\x24\xf8\x83\x68\xaf\xa3\xc6\xa8\xfa\xbc\xda\xbf\x56\x1d\
        \xe0\x53\xd7\xca\x3e\x44\x3a\xd0\xee\xc3\xd9\xb2\x25\xb0\xec\x20\0";

// The one parcel with the digest of its body after the zeros.
const BODY_ALONE: [u8; 111] =
    *b"\x01\x01\0\0\0\x48\0\0\0\0\0\0\0\0\0\0\0\x01\x17\xc1\xfe\xe6\xa8\x7a\0\0\x01\
        {\"key\":\"observer-1\",\"name\":\"Ann\",\"role\":\"observer\"}\
        \xaf\x91\x8e\xdc\xeb\x03\x68\xd6\x76\x24\xa3\xa3\xc1\xba\x0f\xc1\
        \xd4\xa4\x5d\xe4\xd5\x34\xa6\xd3\x69\xd6\xc4\xbd\xca\x64\xc5\x19\0";

// The one parcel with the digest of its bytes alone.
const NO_ZEROS: [u8; 111] =
    *b"\x01\x01\0\0\0\x48\0\0\0\0\0\0\0\0\0\0\0\x01\x17\xc1\xfe\xe6\xa8\x7a\0\0\x01\
        {\"key\":\"observer-1\",\"name\":\"Ann\",\"role\":\"observer\"}\
        \xdd\xbc\xb7\xc9\xb5\x35\x09\x3c\x26\xe3\xc8\xcc\xe1\x2f\x5b\x15\
        \x9c\x59\xf8\x27\xee\x22\x8d\x43\x07\xdf\xd1\x92\x1e\xae\x0a\x34\0";

// The one parcel with no digest.
const NO_DIGEST: [u8; 79] =
    *b"\x01\x01\0\0\0\x48\0\0\0\0\0\0\0\0\0\0\0\x01\x17\xc1\xfe\xe6\xa8\x7a\0\0\x01\
        {\"key\":\"observer-1\",\"name\":\"Ann\",\"role\":\"observer\"}\0";

// A second file, and what opening it gives.
const OPENINGS: &[(&[u8], Opened)] = &[
    (b"", Opened::Idle),
    (b"\0", Opened::Idle),
    (b"\x01", Opened::Idle),
    (b"\0\x01", Opened::Idle),
    (&[0; 150], Opened::Idle),
    // A first file in the second one's place: its first two bytes are an open gate and a byte that is no open gate.
    (&PLAIN_BOTH, Opened::Parcels(0, 2)),
    (b"\x01\0", Opened::Parcels(0, 2)),
    (b"\x01\x02", Opened::Parcels(0, 2)),
    (b"\x01\0\x01", Opened::Parcels(0, 2)),
    (b"\x01\x01", Opened::Damaged(2, 1)),
    (&ONE, Opened::Parcels(1, 111)),
    (&OTHER, Opened::Parcels(1, 62)),
    (&BOTH, Opened::Parcels(2, 171)),
    (&THREE, Opened::Parcels(3, 280)),
    (&WRONG_MIDDLE, Opened::Damaged(2, 110)),
    (&BEGUN_ANEW, Opened::Damaged(2, 110)),
    (&BODY_ALONE, Opened::Damaged(2, 1)),
    (&NO_ZEROS, Opened::Damaged(2, 1)),
    (&NO_DIGEST, Opened::Damaged(2, 1)),
];

fn opened(alloc: Global, file: &[u8], fails: &[u64]) -> Option<Opened> {
    match disk_with(alloc, file, fails) {
        Some(disk) => Some(opened_on(alloc, disk)),
        None => None,
    }
}

fn wrong_opening(alloc: Global) -> Option<usize> {
    for (row, &(file, wanted)) in OPENINGS.iter().enumerate() {
        if opened(alloc, file, &[]) != Some(wanted) {
            return Some(row);
        }
    }
    None
}

#[test]
fn opened_files(rt: HostRuntime) {
    let wrong = wrong_opening(rt.alloc());
    expect_none_wrong(&rt, wrong);
}

// What the file of one parcel gives with this value in this place.
fn changed(place: usize, value: u8) -> Opened {
    match (place, value) {
        (0, _) => Opened::Idle,
        (1, _) => Opened::Parcels(0, 2),
        (110, 1) => Opened::Damaged(2, 110),
        (110, _) => Opened::Parcels(1, 111),
        _ => Opened::Damaged(2, 1),
    }
}

// Whether a file gives what it is to give with another value in this place.
fn is_found(alloc: Global, place: usize, value: u8) -> bool {
    let mut file = ONE;
    let Some(byte) = file.get_mut(place) else {
        return false;
    };
    if *byte == value {
        return true;
    }
    *byte = value;
    opened(alloc, &file, &[]) == Some(changed(place, value))
}

// The first place in which another value isn't found.
fn wrong_change(alloc: Global, value: u8) -> Option<usize> {
    for place in 0..ONE.len() {
        if !is_found(alloc, place, value) {
            return Some(place);
        }
    }
    None
}

#[test]
fn changed_bytes(rt: HostRuntime) {
    for value in 0..=255 {
        let wrong = wrong_change(rt.alloc(), value);
        expect_none_wrong(&rt, wrong);
    }
}

// What so many bytes of the file of both parcels give.
fn cut_short(length: usize) -> Opened {
    match length {
        0 | 1 => Opened::Idle,
        2..=110 => Opened::Damaged(2, 1),
        111..=170 => Opened::Damaged(2, 110),
        _ => Opened::Parcels(2, 171),
    }
}

fn wrong_front(alloc: Global) -> Option<usize> {
    for length in 0..=BOTH.len() {
        if opened(alloc, &BOTH[..length], &[]) != Some(cut_short(length)) {
            return Some(length);
        }
    }
    None
}

#[test]
fn fronts_of_a_file(rt: HostRuntime) {
    let wrong = wrong_front(rt.alloc());
    expect_none_wrong(&rt, wrong);
}

// Opening the file of one parcel makes eight calls: it is synced, its length is asked for and its first byte is read,
// which says that it is in force; it is synced, its length is asked for, and the gate with the head, the body with the
// digest, and the closed gate are read.
fn wrong_failure(alloc: Global) -> Option<u64> {
    for call in 1..=8 {
        if opened(alloc, &ONE, &[call]) != Some(Opened::Failed) {
            return Some(call);
        }
    }
    None
}

#[test]
fn failing_openings(rt: HostRuntime) {
    let wrong = wrong_failure(rt.alloc());
    assert_eq!(rt; wrong, None);
    let after = opened(rt.alloc(), &ONE, &[9]);
    assert_eq!(rt; after, Some(Opened::Parcels(1, 111)));
}

// The journal of a second file in force, and its parcels; None where it isn't, or opening fails.
fn journal_on<D: Disk>(alloc: Global, disk: D) -> Option<(Journal<D>, Parcels)>
    ensures { IfSome result (λ opened. opened.0.in_doubt ≡ None) }
{
    let mut disk = disk;
    let Ok(true) = in_force(&mut disk) else {
        return None;
    };
    match Journal::open(alloc, disk) {
        Ok(opened) => Some(opened),
        Err(_) => None,
    }
}

// Whether the parcel stands at this offset.
fn is_placed(placed: &Placed, offset: u64, parcel: &Parcel) -> bool {
    let found = &placed.parcel;
    placed.offset == offset
        && found.caller() == parcel.caller()
        && found.number() == parcel.number()
        && found.moment() == parcel.moment()
        && found.verb() == parcel.verb()
        && found.body() == parcel.body()
}

fn are_both(parcels: &Parcels, one: &Parcel, other: &Parcel) -> bool {
    match parcels.as_slice() {
        [first, second] => is_placed(first, 1, one) && is_placed(second, 110, other),
        _ => false,
    }
}

fn are_both_on<D: Disk>(alloc: Global, disk: D, one: &Parcel, other: &Parcel) -> bool {
    match journal_on(alloc, disk) {
        Some((_, parcels)) => are_both(&parcels, one, other),
        None => false,
    }
}

fn are_read_back(alloc: Global) -> bool {
    match (disk_with(alloc, &BOTH, &[]), one(alloc), other(alloc)) {
        (Some(disk), Some(one), Some(other)) => are_both_on(alloc, disk, &one, &other),
        _ => false,
    }
}

#[test]
fn parcels_read_back(rt: HostRuntime) {
    let found = are_read_back(rt.alloc());
    assert!(rt; found);
}

// What the file holds once it was opened and the other parcel was appended, where a mending before that found no doubt.
fn held_after<D: Disk>(alloc: Global, disk: D, other: Parcel) -> Option<Held> {
    match journal_on(alloc, disk) {
        Some((mut journal, _)) => {
            if next_on(&mut journal, other) != (NOTHING, Some(DONE)) {
                return None;
            }
            held_on(alloc, journal.close())
        }
        None => None,
    }
}

fn after_opening(alloc: Global, file: &[u8]) -> Option<Held> {
    match (disk_with(alloc, file, &[]), other(alloc)) {
        (Some(disk), Some(other)) => held_after(alloc, disk, other),
        _ => None,
    }
}

// The same after a doubt, of which a crash by this pick leaves one of the two.
fn after_doubt(alloc: Global, pick: u64) -> Option<Held> {
    match (after_appends(alloc, &[12, 13, 14, 15]), other(alloc)) {
        (Some((_, disk)), Some(other)) => held_after(alloc, disk.crash(pick), other),
        _ => None,
    }
}

// The write of the one parcel's gate fails, and so do its settling and its sync: the pick 0 leaves the gate closed, the
// pick 1 leaves it open.
#[test]
fn appends_after_opening(rt: HostRuntime) {
    let nothing = after_opening(rt.alloc(), b"\x01\0");
    assert_eq!(rt; nothing, Some(Held::Other));
    let one = after_opening(rt.alloc(), &ONE);
    assert_eq!(rt; one, Some(Held::Both));
    let dropped = after_doubt(rt.alloc(), 0);
    assert_eq!(rt; dropped, Some(Held::Other));
    let added = after_doubt(rt.alloc(), 1);
    assert_eq!(rt; added, Some(Held::Both));
}
