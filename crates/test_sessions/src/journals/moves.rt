//! Moves: second files that aren't in force over a first one, first files beside a second one in force, and a move that
//! is ended by a second start.

use super::each_place::{CHAINED_TWO, PLAIN_TWO};
use super::files::{ONE_ENTRY, is_whole};
use std::alloc::Global;
use testkit_sessions::{
    CHAINED, Call, Drive, Drives, ENROLLED, ENROLS, PLAIN, Wrong, call_in_turn,
};

/// Second files that aren't in force, of no bytes, one, two and many.
const IDLE: &[&[u8]] = &[
    b"",
    b"\0",
    b"\x01",
    b"\x02",
    b"\0\0",
    b"\0\x01",
    b"\x02\x01",
    b"\0\x01\0\0\0\x48\0\0\0\0\0\0\0\0",
    &[0; 111],
    &[0; 150],
    &[2; 150],
];

/// Over each of them the first file of the act is moved, and stays.
fn moved(alloc: Global) -> Result<(), Wrong> {
    for (mark, second) in IDLE.iter().enumerate() {
        is_whole(alloc, Drive::kept(&PLAIN), second, mark, 0)?;
    }
    Ok(())
}

#[test]
fn moves_over_idle_files(rt: HostRuntime) {
    moved(rt.alloc()).expect(&rt, "as wanted");
}

/// First files: none, fresh ones, damaged ones, and that of the act.
const FIRSTS: &[&[u8]] = &[b"", b"\0", b"\x01", b"\x01\x01", &[1; 150], &PLAIN];

/// The calls of the first disk that fail: more than there are.
const ALL: &[u64] = &[1, 2, 3, 4, 5, 6, 7, 8, 9, 10, 11, 12];

/// A run of the act and an export over a second file in force, which has it, on this first disk.
fn beside(alloc: Global, first: Drive, mark: usize) -> Result<(), Wrong> {
    let drives = Drives {
        first,
        second: Drive::kept(&CHAINED),
    };
    let run = Call {
        mark,
        ..Call::run(ENROLS.as_bytes(), 0, ENROLLED.as_bytes())
    };
    let export = Call {
        mark: mark.saturating_add(10),
        words: &["export"],
        ..Call::run(b"", 0, ONE_ENTRY.as_bytes())
    };
    call_in_turn(alloc, &drives, &[run, export])
}

/// Each of them stays, and no call of its disk comes, since each would fail.
fn uncalled(alloc: Global) -> Result<(), Wrong> {
    for (mark, file) in FIRSTS.iter().enumerate() {
        beside(alloc, Drive::kept(file), mark)?;
        let failing = Drive {
            file,
            fails: ALL,
            ..Drive::EMPTY
        };
        beside(alloc, failing, mark.saturating_add(100))?;
    }
    Ok(())
}

#[test]
fn first_files_beside_one_in_force(rt: HostRuntime) {
    uncalled(rt.alloc()).expect(&rt, "as wanted");
}

/// Beside the second file of an empty history the first file isn't read: the act is new.
fn begun_anew(alloc: Global) -> Result<(), Wrong> {
    is_whole(alloc, Drive::kept(&PLAIN), b"\x01\0", 0, 1)
}

#[test]
fn first_file_beside_an_empty_history(rt: HostRuntime) {
    begun_anew(rt.alloc()).expect(&rt, "as wanted");
}

/// The catalogue of an office with two entries.
const TWO_ENTRIES: &str =
    "catalogue 1\nentries 2\nisolated 0\nobjects 0\nretracted 0\naccepted 0\nend\n";

/// An export moves an office of two entries, and this call of one of the disks fails; then a second one ends the move.
fn ended(alloc: Global, disk: usize, call: u64) -> Result<(), Wrong> {
    let fails = [call];
    let none: &[u64] = &[];
    let mark = disk.saturating_mul(100).saturating_add(call as usize);
    let drives = Drives {
        first: Drive {
            fails: if disk == 1 { &fails } else { none },
            ..Drive::kept(&PLAIN_TWO)
        },
        second: Drive {
            fails: if disk == 2 { &fails } else { none },
            left: Some(&CHAINED_TWO),
            ..Drive::EMPTY
        },
    };
    let failed = Call {
        mark,
        words: &["export"],
        status: "DiskFault",
        number: 4,
        ..Call::run(b"", 0, b"")
    };
    let opened = Call {
        mark: mark.saturating_add(1_000),
        words: &["export"],
        ..Call::run(b"", 0, TWO_ENTRIES.as_bytes())
    };
    call_in_turn(alloc, &drives, &[failed, opened])
}

/// The move takes seven calls of the first disk and fifteen of the second.
fn ended_after_each(alloc: Global) -> Result<(), Wrong> {
    for call in 1..=7 {
        ended(alloc, 1, call)?;
    }
    for call in 1..=15 {
        ended(alloc, 2, call)?;
    }
    Ok(())
}

#[test]
fn second_start_ends_a_move(rt: HostRuntime) {
    ended_after_each(rt.alloc()).expect(&rt, "as wanted");
}
