//! Which calls a disk over a file makes, in which order.

use crate::cases::{
    Act, Case, FOLDER, LONGER, OPENED, OTHER_DEVICE, OTHER_FILE, SEEN, SHORTER, UNLINKED, Under,
    Wrong, wrong_case, wrong_in,
};
use std::alloc::Global;

// A file that is there, and which isn't open yet.
const CLOSED: Case = Case {
    before: "",
    ..OPENED
};

// No file is there.
const MISSING: Case = Case {
    reads: b"",
    holds: b"",
    under: &[(1, Under::Nothing)],
    left: Some(b""),
    ..CLOSED
};

// The calls by which a disk opens a file that is there and asks for its length, and the same of one that it makes.
const OPENING: &str = "folder; name; open; lock; file; name; sync folder; sync; drop; file";

const MAKING: &str = "folder; name; make; lock; file; name; sync folder; sync; drop; file";

// The calls of one that makes a file, up to a sync of the folder that fails, and what follows: the file is removed, or
// left alone.
const UNMADE: &str = "folder; name; make; lock; file; name; sync folder; name; remove; close";

const LEFT_ALONE: &str = "folder; name; make; lock; file; name; sync folder; name; close";

const OPENINGS: &[Case] = &[
    Case {
        acts: &[(Act::Len, true, OPENING)],
        ..CLOSED
    },
    Case {
        acts: &[(Act::Len, true, MAKING)],
        ..MISSING
    },
    // What is no regular file is left alone.
    Case {
        under: &[(1, FOLDER)],
        acts: &[(Act::Len, false, "folder; name; close")],
        ..CLOSED
    },
    // Where the folder's sync fails a file that was made is removed, and the next try makes it anew;
    Case {
        fails: &[7],
        acts: &[(Act::Len, false, UNMADE), (Act::Len, true, MAKING)],
        ..MISSING
    },
    // but not where its name leads elsewhere by now,
    Case {
        fails: &[7],
        under: &[(1, Under::Nothing), (8, OTHER_FILE)],
        acts: &[(Act::Len, false, LEFT_ALONE)],
        ..MISSING
    },
    // where somebody wrote into it,
    Case {
        fails: &[7],
        under: &[(1, Under::Nothing), (8, Under::Other(SEEN))],
        acts: &[(Act::Len, false, LEFT_ALONE)],
        ..MISSING
    },
    // or where another call fails.
    Case {
        fails: &[8],
        acts: &[
            (
                Act::Len,
                false,
                "folder; name; make; lock; file; name; sync folder; sync; close",
            ),
            (Act::Len, true, OPENING),
        ],
        ..MISSING
    },
    // A program before this one ended after a sync that failed: reads give what the disk holds.
    Case {
        reads: b"ABCDEFGH",
        acts: &[(Act::Read(0, b"abcdefgh"), true, "read 0 16")],
        ..OPENED
    },
];

#[test]
fn opening(rt: HostRuntime) {
    let wrong = wrong_case(rt.alloc(), OPENINGS);
    assert_eq!(rt; wrong, None);
}

// The call of opening that fails, and the calls up to it.
const FAILURES: &[(&[usize], &str)] = &[
    (&[1], "folder; "),
    (&[2], "folder; name; "),
    (&[3], "folder; name; open; "),
    (&[4], "folder; name; open; lock; "),
    (&[5], "folder; name; open; lock; file; "),
    (&[6], "folder; name; open; lock; file; name; "),
    (&[7], "folder; name; open; lock; file; name; sync folder; "),
    (
        &[8],
        "folder; name; open; lock; file; name; sync folder; sync; ",
    ),
    (
        &[9],
        "folder; name; open; lock; file; name; sync folder; sync; drop; ",
    ),
];

// What is open is closed, and the next act opens the file anew.
const REOPENED: Case = Case {
    acts: &[(Act::Len, false, "close"), (Act::Len, true, OPENING)],
    ..CLOSED
};

fn wrong_opening(alloc: Global) -> Option<(usize, Wrong)> {
    for (row, &(fails, before)) in FAILURES.iter().enumerate() {
        let case = Case {
            fails,
            before,
            ..REOPENED
        };
        if let Some(wrong) = wrong_in(alloc, &case) {
            return Some((row, wrong));
        }
    }
    None
}

#[test]
fn opening_that_fails(rt: HostRuntime) {
    let wrong = wrong_opening(rt.alloc());
    assert_eq!(rt; wrong, None);
}

// What stands under the name from these calls on.
type Names = &'static [(usize, Under)];

// The first row of names with which a case goes wrong, counted from 0.
fn wrong_name(alloc: Global, names: &[Names], case: &Case) -> Option<(usize, Wrong)> {
    for (row, &under) in names.iter().enumerate() {
        if let Some(wrong) = wrong_in(alloc, &Case { under, ..*case }) {
            return Some((row, wrong));
        }
    }
    None
}

// What stands under the name once the lock is taken.
const MOVED_BEFORE_THE_LOCK: &[Names] = &[
    &[(6, Under::Nothing)],
    &[(6, FOLDER)],
    &[(6, OTHER_FILE)],
    &[(6, OTHER_DEVICE)],
    &[(6, UNLINKED)],
];

const UNLOCKED: Case = Case {
    acts: &[(
        Act::Len,
        false,
        "folder; name; open; lock; file; name; close",
    )],
    ..CLOSED
};

#[test]
fn opening_of_a_name_that_moves(rt: HostRuntime) {
    let wrong = wrong_name(rt.alloc(), MOVED_BEFORE_THE_LOCK, &UNLOCKED);
    assert_eq!(rt; wrong, None);
}

// The calls of each act, from the first one after opening on, which is the tenth.
const ACTS: &[Case] = &[
    Case {
        acts: &[
            (Act::Write(0, b"ABCDEF"), true, "name; write 0 6"),
            (Act::Cut(4), true, "file; length 4"),
            (Act::Cut(9), true, "file"),
            (Act::Sync, true, "name; sync"),
            (Act::Read(0, b"ABCD"), true, "read 0 16"),
        ],
        left: Some(b"ABCD"),
        ..OPENED
    },
    // What a desk does at an act: four looks at the name, and no other.
    Case {
        acts: &[
            (Act::Write(8, b"ij"), true, "name; write 8 2"),
            (Act::Sync, true, "name; sync"),
            (Act::Write(0, b"A"), true, "name; write 0 1"),
            (Act::Sync, true, "name; sync"),
        ],
        left: Some(b"Abcdefghij"),
        ..OPENED
    },
    // What the system takes in parts.
    Case {
        most: 4,
        acts: &[(Act::Write(0, b"ABCDEF"), true, "name; write 0 6; write 4 2")],
        ..OPENED
    },
    Case {
        most: 0,
        acts: &[(Act::Write(0, b"AB"), false, "name; write 0 2")],
        ..OPENED
    },
    Case {
        acts: &[(Act::Write(3, b""), true, "name")],
        ..OPENED
    },
    // A file that somebody made longer has what was written.
    Case {
        under: &[(10, LONGER)],
        acts: &[
            (Act::Write(0, b"A"), true, "name; write 0 1"),
            (Act::Sync, true, "name; sync"),
        ],
        left: Some(b"Abcdefgh"),
        ..OPENED
    },
    // Seven bytes are enough for a file that was cut to four, nine too few for one that was written up to ten.
    Case {
        under: &[(12, SHORTER)],
        acts: &[
            (Act::Cut(4), true, "file; length 4"),
            (Act::Sync, true, "name; sync"),
        ],
        left: Some(b"abcd"),
        ..OPENED
    },
    Case {
        under: &[(12, LONGER)],
        acts: &[
            (Act::Write(8, b"ij"), true, "name; write 8 2"),
            (Act::Sync, false, "name"),
        ],
        left: None,
        ..OPENED
    },
];

#[test]
fn acts(rt: HostRuntime) {
    let wrong = wrong_case(rt.alloc(), ACTS);
    assert_eq!(rt; wrong, None);
}

// What stands under the name at two calls, before it leads to the file again.
const MOVED: &[Names] = &[
    &[(10, Under::Nothing), (12, Under::File)],
    &[(10, FOLDER), (12, Under::File)],
    &[(10, OTHER_FILE), (12, Under::File)],
    &[(10, OTHER_DEVICE), (12, Under::File)],
    &[(10, UNLINKED), (12, Under::File)],
    &[(10, SHORTER), (12, Under::File)],
];

// Nothing is written and nothing synced while the name leads elsewhere.
const UNMOVED: Case = Case {
    acts: &[
        (Act::Write(0, b"A"), false, "name"),
        (Act::Sync, false, "name"),
        (Act::Write(0, b"A"), true, "name; write 0 1"),
        (Act::Sync, true, "read 0 1; write 0 1; name; sync"),
    ],
    left: Some(b"Abcdefgh"),
    ..OPENED
};

#[test]
fn names_that_move(rt: HostRuntime) {
    let wrong = wrong_name(rt.alloc(), MOVED, &UNMOVED);
    assert_eq!(rt; wrong, None);
}
