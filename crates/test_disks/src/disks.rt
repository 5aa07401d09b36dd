//! Tests of a disk in memory and of one over a real file.

use crate::cases::{Act, is_done};
use disk_model::{Disk, Failed, FileDisk, MemDisk};
use std::alloc::Global;
use std::fs;
use std::test::Fail;

// Whether each act is done, or fails, as it is to.
fn are_right<D: Disk>(disk: &mut D, acts: &[(Act, bool)]) -> bool {
    for &(act, done) in acts {
        if is_done(disk, act) != done {
            return false;
        }
    }
    true
}

fn has_length<D: Disk>(disk: &mut D, want: usize) -> bool {
    disk.len() == Ok(want as u64)
}

// Whether the file has these bytes, at most 32; no read of it is to fail.
fn is_file<D: Disk>(disk: &mut D, want: &[u8]) -> bool {
    let mut piece = [0u8; 32];
    if !has_length(disk, want.len()) {
        return false;
    }
    match disk.read_at(0, &mut piece) {
        Ok(count) => count == want.len() && piece.starts_with(want),
        Err(_) => false,
    }
}

// A file in memory, the calls that are made and whether they are done, what is read after them, and what a crash leaves
// by its pick.
struct Case {
    file: &'static [u8],
    capacity: usize,
    fails: &'static [u64],
    acts: &'static [(Act, bool)],
    reads: &'static [u8],
    left: &'static [(u64, &'static [u8])],
}

const OLD: &[u8] = b"abcdefghijkl";

const NEW: &[u8] = b"ABCDEFGHIJKLMNOP";

// What a crash leaves of 16 bytes written over the old file, from its fifth byte on: the old bytes, the new ones, a
// shorter file, a mixture, a longer file.
const TORN: [(u64, &[u8]); 5] = [
    (0, b"abcdefghijkl"),
    (1, b"abcdABCDEFGHIJKLMNOP"),
    (2, b"abcdABCDEFGH"),
    (3, b"abcdefghijklIJKLMNOP"),
    (4, b"abcdefghijkl\0\0\0\0\0\0\0P"),
];

// What it leaves of a cut to 2 bytes.
const CUT: [(u64, &[u8]); 3] = [(0, b"abcdefghijkl"), (1, b"ab"), (2, b"abcdef")];

const CASES: &[Case] = &[
    Case {
        file: OLD,
        capacity: 100,
        fails: &[],
        acts: &[(Act::Write(4, NEW), true)],
        reads: b"abcdABCDEFGHIJKLMNOP",
        left: &TORN,
    },
    // A write that failed may have reached the disk too.
    Case {
        file: OLD,
        capacity: 100,
        fails: &[1],
        acts: &[(Act::Write(4, NEW), false)],
        reads: b"abcdefghijkl",
        left: &TORN,
    },
    Case {
        file: OLD,
        capacity: 44,
        fails: &[],
        acts: &[(Act::Cut(2), true)],
        reads: b"ab",
        left: &CUT,
    },
    Case {
        file: OLD,
        capacity: 44,
        fails: &[1],
        acts: &[(Act::Cut(2), false)],
        reads: b"abcdefghijkl",
        left: &CUT,
    },
    // The second and the fifth call fail. After the sync all is safe.
    Case {
        file: b"abc",
        capacity: 300,
        fails: &[2, 5],
        acts: &[
            (Act::Write(3, b"de"), true),
            (Act::Write(0, b"xyz"), false),
            (Act::Cut(4), true),
            (Act::Write(6, b"g"), true),
            (Act::Sync, false),
            (Act::Sync, true),
            (Act::Write(100, b""), true),
        ],
        reads: b"abcd\0\0g",
        left: &[(0, b"abcd\0\0g"), (1, b"abcd\0\0g")],
    },
    // In 100 bytes a file of 3: the write takes 1 more and 36 of the record, the sync 32, and 28 are left.
    Case {
        file: b"abc",
        capacity: 100,
        fails: &[],
        acts: &[
            (Act::Write(0, b"wxyz"), true),
            (Act::Sync, true),
            (Act::Sync, false),
            (Act::Cut(0), false),
            (Act::Write(0, b""), false),
            (Act::Write(u64::MAX, b"a"), false),
        ],
        reads: b"wxyz",
        left: &[(0, b"wxyz")],
    },
    // Just room for one call.
    Case {
        file: b"abcd",
        capacity: 36,
        fails: &[],
        acts: &[(Act::Sync, true), (Act::Sync, false)],
        reads: b"abcd",
        left: &[(0, b"abcd")],
    },
];

fn disk_of(alloc: Global, case: &Case) -> Option<MemDisk> {
    if case.file.len() > case.capacity {
        return None;
    }
    MemDisk::new(alloc, case.file, case.capacity, case.fails).ok()
}

// Whether the calls are done, or fail, as they are to, and leave this file.
fn leaves<D: Disk>(disk: &mut D, acts: &[(Act, bool)], want: &[u8]) -> bool {
    are_right(disk, acts) && is_file(disk, want)
}

// Whether a crash leaves this file. After it no failure is planned, and the record is empty: a sync is done.
fn is_left(disk: MemDisk, pick: u64, want: &[u8]) -> bool {
    let mut left = disk.crash(pick);
    is_file(&mut left, want) && are_right(&mut left, &[(Act::Sync, true)])
}

fn is_crash(alloc: Global, case: &Case, pick: u64, want: &[u8]) -> bool {
    match disk_of(alloc, case) {
        Some(new) => {
            let mut disk = new;
            leaves(&mut disk, case.acts, case.reads) && is_left(disk, pick, want)
        }
        None => false,
    }
}

// The first pick of a case by which a crash leaves another file.
fn wrong_pick(alloc: Global, case: &Case) -> Option<u64> {
    for &(pick, want) in case.left {
        if !is_crash(alloc, case, pick, want) {
            return Some(pick);
        }
    }
    None
}

// The first case with such a pick, counted from 0, and the pick.
fn wrong_crash(alloc: Global) -> Option<(usize, u64)> {
    for (row, case) in CASES.iter().enumerate() {
        if let Some(pick) = wrong_pick(alloc, case) {
            return Some((row, pick));
        }
    }
    None
}

#[test]
fn disk_in_memory(rt: HostRuntime) {
    let wrong = wrong_crash(rt.alloc());
    assert_eq!(rt; wrong, None);
}

const REAL: &[(Act, bool)] = &[
    (Act::Write(0, b"abcdef"), true),
    (Act::Cut(4), true),
    (Act::Cut(9), true),
    (Act::Sync, true),
];

// Whether a new file is filled, while which a second disk finds it locked.
fn is_filled<D: Disk>(disk: &mut D, second: &mut D) -> bool {
    is_file(disk, b"") && leaves(disk, REAL, b"abcd") && second.len() == Err(Failed)
}

// Whether the second disk goes on with that file, once the first is gone with its lock.
fn is_filled_again<D: Disk>(disk: &mut D) -> bool {
    is_file(disk, b"abcd") && leaves(disk, &[(Act::Write(6, b"g"), true)], b"abcd\0\0g")
}

// Both of them, one disk after the other.
fn are_filled<D: Disk>(first: D, second: D) -> (bool, bool) {
    let (mut first, mut second) = (first, second);
    let filled = is_filled(&mut first, &mut second);
    drop(first);
    (filled, is_filled_again(&mut second))
}

#[test]
fn real_file(rt: HostRuntime) -> Result<(), Fail> {
    let _ = fs::remove_file(&rt, "desk.journal");
    let first = FileDisk::new(rt, "desk.journal");
    let second = FileDisk::new(rt, "desk.journal");
    assert_eq!(rt; are_filled(first, second), (true, true));
    fs::remove_file(&rt, "desk.journal")?;
    Ok(())
}
