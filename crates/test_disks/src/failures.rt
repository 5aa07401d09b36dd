//! What a disk over a file does after a call that failed, and where calls are interrupted.

use crate::cases::{Act, Case, OPENED, wrong_case};

// What is written again after a sync that failed.
const FAILED_SYNCS: &[Case] = &[
    Case {
        fails: &[13],
        acts: &[
            (Act::Write(2, b"XY"), true, "name; write 2 2"),
            (Act::Sync, false, "name; sync"),
            (Act::Sync, true, "read 2 2; write 2 2; name; sync"),
            (Act::Sync, true, "name; sync"),
        ],
        left: Some(b"abXYefgh"),
        ..OPENED
    },
    // Nothing was written.
    Case {
        fails: &[11],
        acts: &[
            (Act::Sync, false, "name; sync"),
            (Act::Sync, true, "name; sync"),
        ],
        ..OPENED
    },
    // Each call of the second sync fails, and the third one begins anew.
    Case {
        fails: &[13, 14],
        acts: &[
            (Act::Write(2, b"XY"), true, "name; write 2 2"),
            (Act::Sync, false, "name; sync"),
            (Act::Sync, false, "read 2 2"),
            (Act::Sync, true, "read 2 2; write 2 2; name; sync"),
        ],
        left: Some(b"abXYefgh"),
        ..OPENED
    },
    Case {
        fails: &[13, 15],
        acts: &[
            (Act::Write(2, b"XY"), true, "name; write 2 2"),
            (Act::Sync, false, "name; sync"),
            (Act::Sync, false, "read 2 2; write 2 2"),
            (Act::Sync, true, "read 2 2; write 2 2; name; sync"),
        ],
        left: Some(b"abXYefgh"),
        ..OPENED
    },
    Case {
        fails: &[13, 16],
        acts: &[
            (Act::Write(2, b"XY"), true, "name; write 2 2"),
            (Act::Sync, false, "name; sync"),
            (Act::Sync, false, "read 2 2; write 2 2; name"),
            (Act::Sync, true, "read 2 2; write 2 2; name; sync"),
        ],
        left: Some(b"abXYefgh"),
        ..OPENED
    },
    Case {
        fails: &[13, 17],
        acts: &[
            (Act::Write(2, b"XY"), true, "name; write 2 2"),
            (Act::Sync, false, "name; sync"),
            (Act::Sync, false, "read 2 2; write 2 2; name; sync"),
            (Act::Sync, true, "read 2 2; write 2 2; name; sync"),
        ],
        left: Some(b"abXYefgh"),
        ..OPENED
    },
    // One span holds all writes, before and after the sync that failed.
    Case {
        fails: &[15],
        acts: &[
            (Act::Write(5, b"Y"), true, "name; write 5 1"),
            (Act::Write(1, b"X"), true, "name; write 1 1"),
            (Act::Sync, false, "name; sync"),
            (Act::Write(3, b"Z"), true, "name; write 3 1"),
            (Act::Sync, true, "read 1 5; write 1 5; name; sync"),
        ],
        left: Some(b"aXcZeYgh"),
        ..OPENED
    },
    // After a sync that is done only later writes count.
    Case {
        fails: &[13],
        acts: &[
            (Act::Write(2, b"XY"), true, "name; write 2 2"),
            (Act::Sync, false, "name; sync"),
            (Act::Write(7, b"Z"), true, "name; write 7 1"),
            (Act::Sync, true, "read 2 6; write 2 6; name; sync"),
            (Act::Write(0, b"A"), true, "name; write 0 1"),
            (Act::Sync, true, "name; sync"),
        ],
        left: Some(b"AbXYefgZ"),
        ..OPENED
    },
    Case {
        fails: &[17],
        acts: &[
            (Act::Write(2, b"XY"), true, "name; write 2 2"),
            (Act::Sync, true, "name; sync"),
            (Act::Write(7, b"Z"), true, "name; write 7 1"),
            (Act::Sync, false, "name; sync"),
            (Act::Sync, true, "read 7 1; write 7 1; name; sync"),
        ],
        left: Some(b"abXYefgZ"),
        ..OPENED
    },
    // What lies between the old end and a write past it became zeros.
    Case {
        fails: &[13],
        acts: &[
            (Act::Write(10, b"X"), true, "name; write 10 1"),
            (Act::Sync, false, "name; sync"),
            (Act::Sync, true, "read 8 3; write 8 3; name; sync"),
        ],
        left: Some(b"abcdefgh\0\0X"),
        ..OPENED
    },
    // No more is written again than the file has.
    Case {
        fails: &[15],
        acts: &[
            (Act::Write(2, b"XYZ"), true, "name; write 2 3"),
            (Act::Cut(3), true, "file; length 3"),
            (Act::Sync, false, "name; sync"),
            (Act::Sync, true, "read 2 3; write 2 1; read 3 2; name; sync"),
        ],
        left: Some(b"abX"),
        ..OPENED
    },
    // Piece by piece.
    Case {
        fails: &[15],
        acts: &[
            (Act::Write(0, b"X"), true, "name; write 0 1"),
            (Act::Write(9000, b"YZ"), true, "name; write 9000 2"),
            (Act::Sync, false, "name; sync"),
            (
                Act::Sync,
                true,
                "read 0 4096; write 0 4096; read 4096 4096; write 4096 4096; read 8192 810; write 8192 810; name; sync",
            ),
        ],
        left: None,
        ..OPENED
    },
    Case {
        fails: &[13],
        most: 1,
        acts: &[
            (Act::Write(2, b"X"), true, "name; write 2 1"),
            (Act::Sync, false, "name; sync"),
            (Act::Sync, true, "read 2 1; write 2 1; name; sync"),
        ],
        left: Some(b"abXdefgh"),
        ..OPENED
    },
];

#[test]
fn failed_syncs(rt: HostRuntime) {
    let wrong = wrong_case(rt.alloc(), FAILED_SYNCS);
    assert_eq!(rt; wrong, None);
}

// What is written again after a write or a cut that failed.
const FAILED_WRITES: &[Case] = &[
    Case {
        fails: &[11],
        acts: &[
            (Act::Write(2, b"XY"), false, "name; write 2 2"),
            (Act::Sync, true, "read 2 2; write 2 2; name; sync"),
            (Act::Sync, true, "name; sync"),
        ],
        ..OPENED
    },
    // A write past the end, of which the system took one byte.
    Case {
        fails: &[12],
        most: 1,
        acts: &[
            (Act::Write(8, b"XY"), false, "name; write 8 2; write 9 1"),
            (Act::Sync, true, "read 8 2; write 8 1; read 9 1; name; sync"),
        ],
        left: Some(b"abcdefghX"),
        ..OPENED
    },
    Case {
        fails: &[11],
        acts: &[
            (Act::Cut(4), false, "file; length 4"),
            (Act::Sync, true, "name; sync"),
            (Act::Sync, true, "name; sync"),
        ],
        ..OPENED
    },
    Case {
        fails: &[13],
        acts: &[
            (Act::Write(2, b"XY"), true, "name; write 2 2"),
            (Act::Cut(4), false, "file; length 4"),
            (Act::Sync, true, "read 2 2; write 2 2; name; sync"),
        ],
        left: Some(b"abXYefgh"),
        ..OPENED
    },
    Case {
        fails: &[10],
        acts: &[
            (Act::Cut(4), false, "file"),
            (Act::Write(2, b"XY"), true, "name; write 2 2"),
            (Act::Sync, true, "read 2 2; write 2 2; name; sync"),
        ],
        left: Some(b"abXYefgh"),
        ..OPENED
    },
];

#[test]
fn failed_writes_and_cuts(rt: HostRuntime) {
    let wrong = wrong_case(rt.alloc(), FAILED_WRITES);
    assert_eq!(rt; wrong, None);
}

// Reads and writes that are interrupted are made again.
const INTERRUPTS: &[Case] = &[
    Case {
        interrupts: &[10, 11],
        acts: &[(
            Act::Read(0, b"abcdefgh"),
            true,
            "read 0 16; read 0 16; read 0 16",
        )],
        ..OPENED
    },
    Case {
        interrupts: &[11, 13],
        most: 4,
        acts: &[
            (
                Act::Write(0, b"ABCDEF"),
                true,
                "name; write 0 6; write 0 6; write 4 2; write 4 2",
            ),
            (Act::Sync, true, "name; sync"),
        ],
        left: Some(b"ABCDEFgh"),
        ..OPENED
    },
    Case {
        fails: &[13],
        interrupts: &[14, 16],
        acts: &[
            (Act::Write(2, b"XY"), true, "name; write 2 2"),
            (Act::Sync, false, "name; sync"),
            (
                Act::Sync,
                true,
                "read 2 2; read 2 2; write 2 2; write 2 2; name; sync",
            ),
        ],
        left: Some(b"abXYefgh"),
        ..OPENED
    },
];

#[test]
fn interrupted_calls(rt: HostRuntime) {
    let wrong = wrong_case(rt.alloc(), INTERRUPTS);
    assert_eq!(rt; wrong, None);
}
