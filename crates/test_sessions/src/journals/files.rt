//! Runs over files that are a journal, or aren't: on each disk cut short at each byte, with another byte, and with a
//! parcel twice.

use std::alloc::Global;
use testkit_sessions::{
    CHAINED, Call, Drive, Drives, ENROLLED, ENROLS, PLAIN, Wrong, call_in_turn,
};

/// A run of the act over these two files, of which one is damaged so: nothing is answered, and both stay.
fn is_damaged<'a>(
    alloc: Global,
    first: &'a [u8],
    second: &'a [u8],
    mark: usize,
    status: &'a str,
) -> Result<(), Wrong> {
    let drives = Drives {
        first: Drive::kept(first),
        second: Drive::kept(second),
    };
    let call = Call {
        mark,
        status,
        number: 5,
        ..Call::run(ENROLS.as_bytes(), 0, b"")
    };
    call_in_turn(alloc, &drives, &[call])
}

/// A first disk whose file is fresh: it gets its gate, a byte.
pub(super) fn fresh(file: &[u8]) -> Drive<'_> {
    Drive {
        file,
        left: Some(&[0]),
        ..Drive::EMPTY
    }
}

/// A run of the act on this first disk and over this second file, by which the history grows by so many entries: the
/// whole journal is left in the second file.
pub(super) fn is_whole<'a>(
    alloc: Global,
    first: Drive<'a>,
    second: &'a [u8],
    mark: usize,
    added: u64,
) -> Result<(), Wrong> {
    let drives = Drives {
        first,
        second: Drive {
            file: second,
            left: Some(&CHAINED),
            ..Drive::EMPTY
        },
    };
    let call = Call {
        mark,
        ..Call::run(ENROLS.as_bytes(), added, ENROLLED.as_bytes())
    };
    call_in_turn(alloc, &drives, &[call])
}

/// Each front of the first file, beside an empty second one, which stays empty where the front is damaged. None of its
/// bytes, and its first one, are an empty journal, so that the act is new; in the whole file it stands already; any
/// other front is an open gate with less behind it than there must be.
fn first_cut_short(alloc: Global) -> Result<(), Wrong> {
    for length in 0..=78usize {
        let (front, _) = PLAIN.split_at(length);
        match length {
            0 | 1 => is_whole(alloc, fresh(front), b"", length, 1)?,
            78 => is_whole(alloc, Drive::kept(front), b"", length, 0)?,
            _ => is_damaged(alloc, front, b"", length, "Damaged in 1 at 0")?,
        }
    }
    Ok(())
}

#[test]
fn first_file_cut_at_each_byte(rt: HostRuntime) {
    first_cut_short(rt.alloc()).expect(&rt, "as wanted");
}

/// Each front of the second file, beside an empty first one. None of its bytes, and its first one, aren't in force, so
/// that the first one counts and the act is new; beside any other front the first disk isn't called.
fn second_cut_short(alloc: Global) -> Result<(), Wrong> {
    for length in 0..=111usize {
        let (front, _) = CHAINED.split_at(length);
        match length {
            0 | 1 => is_whole(alloc, fresh(b""), front, length, 1)?,
            111 => is_whole(alloc, Drive::kept(b""), front, length, 0)?,
            _ => is_damaged(alloc, b"", front, length, "Damaged in 2 at 1")?,
        }
    }
    Ok(())
}

#[test]
fn second_file_cut_at_each_byte(rt: HostRuntime) {
    second_cut_short(rt.alloc()).expect(&rt, "as wanted");
}

/// A byte of the first file, what stands in its place, and the status.
const CHANGES: &[(usize, u8, &str)] = &[
    // The last gate is open, and nothing is behind it.
    (77, 1, "Damaged in 1 at 77"),
    // A length of 20 is less than a parcel's fields take.
    (4, 20, "Damaged in 1 at 0"),
    // No verb has these codes.
    (25, 0, "Damaged in 1 at 0"),
    (25, 200, "Damaged in 1 at 0"),
    // The highest bit of the moment is its sign: it falls into the year 1731.
    (17, 0x97, "Damaged in 1 at 0"),
];

/// Each change by its place in the table.
fn changed_first(alloc: Global) -> Result<(), Wrong> {
    for (mark, &(at, byte, status)) in CHANGES.iter().enumerate() {
        let mut file = PLAIN;
        if let Some(place) = file.get_mut(at) {
            *place = byte;
        }
        is_damaged(alloc, &file, b"", mark, status)?;
    }
    Ok(())
}

#[test]
fn first_file_with_another_byte(rt: HostRuntime) {
    changed_first(rt.alloc()).expect(&rt, "as wanted");
}

/// A byte of the second file's parcel, what stands in its place, and the parcel's digest then.
type Resealed = (usize, u8, &'static [u8; 32]);

const RESEALED: &[Resealed] = &[
    // No verb has these codes.
    (
        26,
        0,
        b"\xb6\xe6\xf3\x7d\xf3\xf3\x92\xc6\xec\xd5\xe4\x72\x79\x09\xa6\x4f\
        \x5d\xff\x31\x8d\x26\xe4\xe8\x6a\xa7\xc1\x1f\xba\x1e\xa9\x23\x7b",
    ),
    (
        26,
        200,
        b"\xd4\xc9\x76\x59\x72\x90\xcf\xa3\x78\xa3\x4c\x6e\x94\x26\x2e\x5f\
        \x79\xdc\x1c\x22\x40\xb6\x6c\x69\x7c\x68\x94\x9e\xbb\x8d\x6e\x4a",
    ),
    // The year 1731.
    (
        18,
        0x97,
        b"\x7e\x35\x16\x69\xab\xc1\x37\xf5\xed\x03\x63\xfc\xfd\xb7\xd3\xa2\
        \xa3\x3f\xfa\xb3\x90\x05\x94\x96\x65\xf0\xdc\xf2\xe6\x29\x0a\x9f",
    ),
];

/// Each change by its place in the table: the chain is right, and the entry isn't.
fn resealed(alloc: Global) -> Result<(), Wrong> {
    for (mark, &(at, byte, digest)) in RESEALED.iter().enumerate() {
        let (front, _) = CHAINED.split_at(78);
        let mut file = Vec::from_slice(alloc, front)?;
        if let Some(place) = file.get_mut(at) {
            *place = byte;
        }
        file.extend_from_slice(digest)?;
        file.extend_from_slice(&[0])?;
        is_damaged(alloc, b"", &file, mark, "Damaged in 2 at 1")?;
    }
    Ok(())
}

#[test]
fn second_file_with_another_parcel(rt: HostRuntime) {
    resealed(rt.alloc()).expect(&rt, "as wanted");
}

/// The catalogues of an office without entries, and of one with the act.
pub(super) const NO_ENTRY: &str =
    "catalogue 1\nentries 0\nisolated 0\nobjects 0\nretracted 0\naccepted 0\nend\n";

pub(super) const ONE_ENTRY: &str =
    "catalogue 1\nentries 1\nisolated 0\nobjects 0\nretracted 0\naccepted 0\nend\n";

/// How an export ends over the second file with another byte in this place, beside an empty first one: its status, the
/// number of that, and what is written.
fn end_of(place: usize, byte: u8) -> (&'static str, u8, &'static str) {
    match (place, byte) {
        // It isn't in force; its first gate is closed.
        (0 | 1, _) => ("Done", 0, NO_ENTRY),
        // Its last gate is open, and nothing is behind it.
        (110, 1) => ("Damaged in 2 at 110", 5, ""),
        (110, _) => ("Done", 0, ONE_ENTRY),
        _ => ("Damaged in 2 at 1", 5, ""),
    }
}

/// Room for a file and a move.
const ROOM: usize = 1_024;

/// Two disks with this second file, beside an empty first one. Both stay, or the first gets its gate and the second is
/// the empty journal.
fn drives_of(file: &[u8], is_moved: bool) -> Drives<'_> {
    let lefts: (&[u8], &[u8]) = if is_moved {
        (b"\0", b"\x01\0")
    } else {
        (b"", file)
    };
    Drives {
        first: Drive {
            room: ROOM,
            left: Some(lefts.0),
            ..Drive::EMPTY
        },
        second: Drive {
            file,
            room: ROOM,
            left: Some(lefts.1),
            ..Drive::EMPTY
        },
    }
}

/// An export over the second file with this byte in this place, where another one stands.
fn export_with(alloc: Global, place: usize, byte: u8) -> Result<(), Wrong> {
    let mut file = CHAINED;
    match file.get_mut(place) {
        Some(there) if *there != byte => *there = byte,
        _ => return Ok(()),
    }
    let (status, number, text) = end_of(place, byte);
    let call = Call {
        mark: place.saturating_mul(256).saturating_add(usize::from(byte)),
        words: &["export"],
        status,
        number,
        ..Call::run(b"", 0, text.as_bytes())
    };
    call_in_turn(alloc, &drives_of(&file, place == 0), &[call])
}

/// Each byte of the second file in turn has each other value.
fn each_byte(alloc: Global) -> Result<(), Wrong> {
    for place in 0..111usize {
        for byte in 0..=255u8 {
            export_with(alloc, place, byte)?;
        }
    }
    Ok(())
}

#[test]
fn second_file_with_each_other_byte(rt: HostRuntime) {
    each_byte(rt.alloc()).expect(&rt, "as wanted");
}

/// The first file with its gate opened, and the same parcel behind it: no caller's number stands in two entries.
fn doubled_first(alloc: Global) -> Result<(), Wrong> {
    let (parcel, _) = PLAIN.split_at(77);
    let mut file = Vec::from_slice(alloc, parcel)?;
    file.extend_from_slice(&PLAIN)?;
    is_damaged(alloc, &file, b"", 0, "Damaged in 1 at 77")
}

/// The digest of the parcel after itself.
const SECOND_DIGEST: [u8; 32] = *b"\xc5\xdf\x2e\x36\xb6\xdc\x6e\x50\x1d\x9e\x30\x4c\x74\x70\x67\xea\
    \x42\x5f\xe3\xf4\x0b\xaf\xf1\x69\x17\x51\xce\xb9\x19\x28\xde\x44";

/// The same of the second file, whose chain is right.
fn doubled_second(alloc: Global) -> Result<(), Wrong> {
    let (front, _) = CHAINED.split_at(110);
    let (parcel, _) = PLAIN.split_at(77);
    let mut file = Vec::from_slice(alloc, front)?;
    file.extend_from_slice(parcel)?;
    file.extend_from_slice(&SECOND_DIGEST)?;
    file.extend_from_slice(&[0])?;
    is_damaged(alloc, b"", &file, 1, "Damaged in 2 at 110")
}

#[test]
fn parcel_that_stands_twice(rt: HostRuntime) {
    doubled_first(rt.alloc()).expect(&rt, "as wanted");
    doubled_second(rt.alloc()).expect(&rt, "as wanted");
}
