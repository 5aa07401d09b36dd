//! A first file on a disk in memory: files that open or don't, what is written, and calls that fail.
//!
//! What opens a file is over any disk: the type of a disk in memory makes each proof that it stands in dear.

use super::tables::expect_none_wrong;
use disk_model::{Disk, MemDisk};
use obs_journal::{OpenFault, Parcels, open_first};
use std::alloc::Global;

// The first act of an office: an open gate, 72 bytes counted, caller 0, number 1, 2024-04-01T00:00:00Z, verb 1, a body
// of 51 bytes, and a closed gate.
const FILE: [u8; 78] = *b"\x01\0\0\0\x48\0\0\0\0\0\0\0\0\0\0\0\x01\x17\xc1\xfe\xe6\xa8\x7a\0\0\x01\
        {\"key\":\"observer-1\",\"name\":\"Ann\",\"role\":\"observer\"}\0";

const BODY: &[u8] = b"{\"key\":\"observer-1\",\"name\":\"Ann\",\"role\":\"observer\"}";

const MOMENT: i64 = 1_711_929_600_000_000_000;

// How many parcels a file opens with, and how many bytes stand up to and with the gate after them, or why it doesn't
// open.
type Opening = Result<(u64, u64), OpenFault>;

// The caller, the number, the moment and the verb of a parcel.
type Fields = (u32, u64, i64, u8);

// Enough for each disk below.
const CAPACITY: usize = 4_096;

// A disk with this file, whose calls with these numbers fail; None where it is too long or memory was refused.
fn disk_with(alloc: Global, file: &[u8], fails: &[u64]) -> Option<MemDisk> {
    if file.len() > CAPACITY {
        return None;
    }
    MemDisk::new(alloc, file, CAPACITY, fails).ok()
}

// The bytes up to and with the gate after the parcels, by the offset of the last one's gate: behind that stand 25
// bytes, the body and the next gate.
fn end_of(parcels: &Parcels) -> u64 {
    match parcels.as_slice().last() {
        Some(placed) => {
            let body_bytes = placed.parcel.body().len() as u64;
            placed.offset.saturating_add(27).saturating_add(body_bytes)
        }
        None => 1,
    }
}

fn opening_of<D: Disk>(alloc: Global, disk: D) -> Opening {
    let mut disk = disk;
    match open_first(alloc, &mut disk) {
        Ok(parcels) => Ok((parcels.len(), end_of(&parcels))),
        Err(fault) => Err(fault),
    }
}

// How this file opens.
fn opening(alloc: Global, file: &[u8], fails: &[u64]) -> Option<Opening> {
    match disk_with(alloc, file, fails) {
        Some(disk) => Some(opening_of(alloc, disk)),
        None => None,
    }
}

// How the first so many bytes of the file open.
fn opening_of_front(length: usize) -> Opening {
    match length {
        0 | 1 => Ok((0, 1)),
        78 => Ok((1, 78)),
        _ => Err(OpenFault::Damaged { file: 1, offset: 0 }),
    }
}

// The first length that opens otherwise; None where there is none.
fn wrong_front(alloc: Global) -> Option<usize> {
    for length in 0..=78usize {
        let (front, _) = FILE.split_at(length);
        if opening(alloc, front, &[]) != Some(opening_of_front(length)) {
            return Some(length);
        }
    }
    None
}

#[test]
fn cut_files(rt: HostRuntime) {
    let wrong = wrong_front(rt.alloc());
    expect_none_wrong(&rt, wrong);
}

// The file with another byte at a place.
fn changed(at: usize, byte: u8) -> [u8; 78] {
    let mut file = FILE;
    if at < 78 {
        file[at] = byte;
    }
    file
}

// A byte of the file, what is put in its place, and how the file opens then.
const CHANGES: &[(usize, u8, Opening)] = &[
    (0, 0, Ok((0, 1))),
    (0, 2, Ok((0, 1))),
    (0, 255, Ok((0, 1))),
    (1, 1, Err(OpenFault::Damaged { file: 1, offset: 0 })),
    (2, 1, Err(OpenFault::Damaged { file: 1, offset: 0 })),
    (3, 1, Err(OpenFault::Damaged { file: 1, offset: 0 })),
    // One byte more than there is, one byte less, no body, and less than the fields.
    (4, 0x49, Err(OpenFault::Damaged { file: 1, offset: 0 })),
    (4, 0x47, Ok((1, 77))),
    (4, 21, Ok((1, 27))),
    (4, 20, Err(OpenFault::Damaged { file: 1, offset: 0 })),
    (
        77,
        1,
        Err(OpenFault::Damaged {
            file: 1,
            offset: 77,
        }),
    ),
    (77, 2, Ok((1, 78))),
];

// The first row with another opening, counted from 0; None where there is none. So are those below.
fn wrong_change(alloc: Global) -> Option<usize> {
    for (row, &(at, byte, wanted)) in CHANGES.iter().enumerate() {
        if opening(alloc, &changed(at, byte), &[]) != Some(wanted) {
            return Some(row);
        }
    }
    None
}

#[test]
fn changed_gates_and_lengths(rt: HostRuntime) {
    let wrong = wrong_change(rt.alloc());
    expect_none_wrong(&rt, wrong);
}

// A byte of the file, what is put in its place, and the caller, the number, the moment and the verb that are read then.
const FIELDS: &[(usize, u8, Fields)] = &[
    (5, 9, (0x0900_0000, 1, MOMENT, 1)),
    (6, 9, (0x0009_0000, 1, MOMENT, 1)),
    (7, 9, (0x0900, 1, MOMENT, 1)),
    (8, 9, (9, 1, MOMENT, 1)),
    (9, 9, (0, 0x0900_0000_0000_0001, MOMENT, 1)),
    (10, 9, (0, 0x0009_0000_0000_0001, MOMENT, 1)),
    (11, 9, (0, 0x0900_0000_0001, MOMENT, 1)),
    (12, 9, (0, 0x0009_0000_0001, MOMENT, 1)),
    (13, 9, (0, 0x0900_0001, MOMENT, 1)),
    (14, 9, (0, 0x0009_0001, MOMENT, 1)),
    (15, 9, (0, 0x0901, MOMENT, 1)),
    (16, 9, (0, 9, MOMENT, 1)),
    (17, 9, (0, 1, 0x09c1_fee6_a87a_0000, 1)),
    (18, 9, (0, 1, 0x1709_fee6_a87a_0000, 1)),
    (19, 9, (0, 1, 0x17c1_09e6_a87a_0000, 1)),
    (20, 9, (0, 1, 0x17c1_fe09_a87a_0000, 1)),
    (21, 9, (0, 1, 0x17c1_fee6_097a_0000, 1)),
    (22, 9, (0, 1, 0x17c1_fee6_a809_0000, 1)),
    (23, 9, (0, 1, 0x17c1_fee6_a87a_0900, 1)),
    (24, 9, (0, 1, 0x17c1_fee6_a87a_0009, 1)),
    (25, 9, (0, 1, MOMENT, 9)),
    // The highest bit is the sign.
    (17, 0x97, (0, 1, -7_511_442_436_854_775_808, 1)),
];

// The fields of the first parcel, its offset, and whether its body is that of the file.
fn told_of(parcels: &Parcels) -> Option<(Fields, u64, bool)> {
    let placed = parcels.get(0)?;
    let parcel = &placed.parcel;
    let fields = (
        parcel.caller(),
        parcel.number(),
        parcel.moment(),
        parcel.verb(),
    );
    Some((fields, placed.offset, parcel.body() == BODY))
}

fn told_on<D: Disk>(alloc: Global, disk: D) -> Option<(Fields, u64, bool)> {
    let mut disk = disk;
    match open_first(alloc, &mut disk) {
        Ok(parcels) => told_of(&parcels),
        Err(_) => None,
    }
}

fn told_in(alloc: Global, file: &[u8]) -> Option<(Fields, u64, bool)> {
    match disk_with(alloc, file, &[]) {
        Some(disk) => told_on(alloc, disk),
        None => None,
    }
}

fn wrong_field(alloc: Global) -> Option<usize> {
    for (row, &(at, byte, wanted)) in FIELDS.iter().enumerate() {
        if told_in(alloc, &changed(at, byte)) != Some((wanted, 0, true)) {
            return Some(row);
        }
    }
    None
}

#[test]
fn changed_fields(rt: HostRuntime) {
    let wrong = wrong_field(rt.alloc());
    expect_none_wrong(&rt, wrong);
}

// What stands at the end of the file in place of its closed gate, and how the file opens then.
const ENDS: &[(&[u8], Opening)] = &[
    (b"", Err(OpenFault::Damaged { file: 1, offset: 0 })),
    (
        b"\x01",
        Err(OpenFault::Damaged {
            file: 1,
            offset: 77,
        }),
    ),
    (
        b"\x01\0",
        Err(OpenFault::Damaged {
            file: 1,
            offset: 77,
        }),
    ),
    // The second parcel without its gate, with a closed gate, with an open one that nothing follows, and unopened.
    (
        b"\x01\0\0\0\x17\0\0\0\x07\0\0\0\0\0\0\0\x02\xff\xff\xff\xff\xff\xff\xff\xff\x0dhi",
        Err(OpenFault::Damaged {
            file: 1,
            offset: 77,
        }),
    ),
    (
        b"\x01\0\0\0\x17\0\0\0\x07\0\0\0\0\0\0\0\x02\xff\xff\xff\xff\xff\xff\xff\xff\x0dhi\0",
        Ok((2, 106)),
    ),
    (
        b"\x01\0\0\0\x17\0\0\0\x07\0\0\0\0\0\0\0\x02\xff\xff\xff\xff\xff\xff\xff\xff\x0dhi\x01",
        Err(OpenFault::Damaged {
            file: 1,
            offset: 105,
        }),
    ),
    (
        b"\0\0\0\0\x17\0\0\0\x07\0\0\0\0\0\0\0\x02\xff\xff\xff\xff\xff\xff\xff\xff\x0dhi\0",
        Ok((1, 78)),
    ),
];

// The file with this end in place of its closed gate.
fn ended(alloc: Global, end: &[u8]) -> Option<Vec<u8>> {
    let mut file = Vec::from_slice(alloc, &FILE[..77]).ok()?;
    match file.extend_from_slice(end) {
        Ok(()) => Some(file),
        Err(_) => None,
    }
}

fn opening_with_end(alloc: Global, end: &[u8]) -> Option<Opening> {
    match ended(alloc, end) {
        Some(file) => opening(alloc, &file, &[]),
        None => None,
    }
}

fn wrong_end(alloc: Global) -> Option<usize> {
    for (row, &(end, wanted)) in ENDS.iter().enumerate() {
        if opening_with_end(alloc, end) != Some(wanted) {
            return Some(row);
        }
    }
    None
}

#[test]
fn second_parcels(rt: HostRuntime) {
    let wrong = wrong_end(rt.alloc());
    expect_none_wrong(&rt, wrong);
}

// A file, and the bytes that it has once it was opened: one that nothing was added to gets its closed gate.
const WRITTEN: &[(&[u8], &[u8])] = &[
    (b"", b"\0"),
    (b"\x01", b"\0"),
    (b"\0", b"\0"),
    (b"\x02", b"\x02"),
    (&FILE, &FILE),
];

// Whether a file with these bytes is left once the one on a disk was opened.
fn is_left_on<D: Disk>(alloc: Global, disk: D, want: &[u8]) -> bool {
    let mut disk = disk;
    let mut file = [0u8; 80];
    if open_first(alloc, &mut disk).is_err() {
        return false;
    }
    match disk.read_at(0, &mut file) {
        Ok(count) => count == want.len() && file.starts_with(want),
        Err(_) => false,
    }
}

fn is_left(alloc: Global, file: &[u8], want: &[u8]) -> bool {
    match disk_with(alloc, file, &[]) {
        Some(disk) => is_left_on(alloc, disk, want),
        None => false,
    }
}

fn wrong_file(alloc: Global) -> Option<usize> {
    for (row, &(file, want)) in WRITTEN.iter().enumerate() {
        if !is_left(alloc, file, want) {
            return Some(row);
        }
    }
    None
}

#[test]
fn written_bytes(rt: HostRuntime) {
    let wrong = wrong_file(rt.alloc());
    expect_none_wrong(&rt, wrong);
}

// A file, a failing call of its opening, and how it opens then. An empty one is written and synced.
const OPENING_FAULTS: &[(&[u8], u64, Opening)] = &[
    (b"", 1, Err(OpenFault::DiskFault)),
    (b"", 2, Err(OpenFault::DiskFault)),
    (b"", 3, Err(OpenFault::DiskFault)),
    (b"", 4, Err(OpenFault::DiskFault)),
    (b"", 5, Ok((0, 1))),
    (b"\x01", 3, Err(OpenFault::DiskFault)),
    (b"\x01", 5, Err(OpenFault::DiskFault)),
    (b"\x01", 6, Ok((0, 1))),
    (&FILE, 1, Err(OpenFault::DiskFault)),
    (&FILE, 4, Err(OpenFault::DiskFault)),
    (&FILE, 5, Err(OpenFault::DiskFault)),
    (&FILE, 6, Ok((1, 78))),
];

fn wrong_opening(alloc: Global) -> Option<usize> {
    for (row, &(file, call, wanted)) in OPENING_FAULTS.iter().enumerate() {
        if opening(alloc, file, &[call]) != Some(wanted) {
            return Some(row);
        }
    }
    None
}

#[test]
fn opening_faults(rt: HostRuntime) {
    let wrong = wrong_opening(rt.alloc());
    expect_none_wrong(&rt, wrong);
}
