//! Runs over two disks: empty ones, those that an earlier run left, and those whose calls fail.

use std::alloc::Global;
use testkit_sessions::{
    BATCHES, Call, Drive, Drives, FIRST, FIRST_ANSWER, Frames, SETUP, Wrong, call_in_turn,
};

// Two empty disks get their first gates: the first file is that byte, the second has the byte 1 before it.
fn first_gates(alloc: Global) -> Result<(), Wrong> {
    let drives = Drives {
        first: Drive {
            left: Some(&[0]),
            ..Drive::EMPTY
        },
        second: Drive {
            left: Some(&[1, 0]),
            ..Drive::EMPTY
        },
    };
    call_in_turn(alloc, &drives, &[Call::run(b"", 0, b"")])
}

#[test]
fn empty_disks(rt: HostRuntime) {
    first_gates(rt.alloc()).expect(&rt, "as wanted");
}

const TALLY: &str = r#"
> observer-1 0 tally
< 200 entries 6
isolated 4
objects 0
retracted 0
accepted 4
"#;

// A day of the office: it is set up, a batch comes and is sent again, and the observer asks for the tally.
const FRAMES: usize = 8;

fn day(alloc: Global) -> Result<Frames, Wrong> {
    Frames::of(alloc, &[SETUP, BATCHES, TALLY])
}

// The batch is answered in one run, and in the next one over the same disks it is a resend.
fn answered_twice(alloc: Global) -> Result<(), Wrong> {
    let day = day(alloc)?;
    let first = Call::run(day.bytes(0, 6), 6, day.answers(0, 6));
    let second = Call {
        mark: 1,
        ..Call::run(day.bytes(6, FRAMES), 0, day.answers(6, FRAMES))
    };
    call_in_turn(alloc, &Drives::EMPTY, &[first, second])
}

#[test]
fn second_run(rt: HostRuntime) {
    answered_twice(rt.alloc()).expect(&rt, "as wanted");
}

// The sink fails at the head of the reply after so many, whose act is in the journal: a reply is written in two pieces.
// Then a crash takes all that isn't safe, and the whole day is sent again: the replies are those of one session.
fn stopped_after(alloc: Global, day: &Frames, count: usize) -> Result<(), Wrong> {
    let bytes = day.bytes(0, FRAMES);
    let kept = day.entries(count.saturating_add(1));
    let stopped = Call {
        mark: count,
        write: (count as u64).saturating_mul(2).saturating_add(1),
        status: "WriteFault",
        number: 7,
        pick: Some(0),
        ..Call::run(bytes, kept, day.answers(0, count))
    };
    let later = day.entries(FRAMES).saturating_sub(kept);
    let again = Call {
        mark: count,
        ..Call::run(bytes, later, day.answers(0, FRAMES))
    };
    call_in_turn(alloc, &Drives::EMPTY, &[stopped, again])
}

fn stopped_everywhere(alloc: Global) -> Result<(), Wrong> {
    let day = day(alloc)?;
    for count in 0..FRAMES {
        stopped_after(alloc, &day, count)?;
    }
    Ok(())
}

#[test]
fn stopped_and_sent_again(rt: HostRuntime) {
    stopped_everywhere(rt.alloc()).expect(&rt, "as wanted");
}

const TWICE: &str = concat!(
    "+founder-1 1 station 70\n",
    "{\"code\":\"703\",\"from\":\"1998-01-01\",\"name\":\"Catalina\",\"to\":\"2199-12-31\"}",
    "+founder-1 1 station 70\n",
    "{\"code\":\"703\",\"from\":\"1998-01-01\",\"name\":\"Catalina\",\"to\":\"2199-12-31\"}",
);

// The first request, and a byte that begins no frame.
const BAD: &str = concat!(
    "+founder-1 1 station 70\n",
    "{\"code\":\"703\",\"from\":\"1998-01-01\",\"name\":\"Catalina\",\"to\":\"2199-12-31\"}",
    "\n",
);

const DOUBT: &str = "503 27\nrefused 16 DiskFault doubt\n";

const UNTOUCHED: &str = "503 31\nrefused 16 DiskFault untouched\n";

const SETTLED: &str = "503 27\nrefused 16 DiskFault doubt\n200 10\nreceipt 1\n";

// The source's bytes, the calls of the second disk that fail, the status and its number, the entries, the sink's bytes.
// Opening empty disks takes the first nine calls of the second one, an act the next four, and the last mending two
// more.
const DISKS: &[(&str, [u64; 2], &str, u8, u64, &str)] = &[
    (FIRST, [1, 0], "DiskFault", 4, 0, ""),
    (FIRST, [2, 0], "DiskFault", 4, 0, ""),
    (FIRST, [3, 0], "DiskFault", 4, 0, ""),
    (FIRST, [4, 0], "DiskFault", 4, 0, ""),
    (FIRST, [5, 0], "DiskFault", 4, 0, ""),
    (FIRST, [6, 0], "DiskFault", 4, 0, ""),
    (FIRST, [7, 0], "DiskFault", 4, 0, ""),
    (FIRST, [8, 0], "DiskFault", 4, 0, ""),
    (FIRST, [9, 0], "DiskFault", 4, 0, ""),
    (FIRST, [10, 0], "Done", 0, 0, UNTOUCHED),
    (FIRST, [11, 0], "Done", 0, 0, UNTOUCHED),
    // The last mending drops the act, or adds it, or fails.
    (FIRST, [12, 0], "Done", 0, 0, DOUBT),
    (FIRST, [13, 0], "Done", 0, 1, DOUBT),
    (FIRST, [13, 14], "DiskFault", 4, 0, DOUBT),
    (FIRST, [13, 15], "DiskFault", 4, 0, DOUBT),
    // The act is sent again, which mends it.
    (TWICE, [13, 0], "Done", 0, 1, SETTLED),
    // Nothing is mended at a bad frame.
    (BAD, [13, 0], "BadFrame at 94", 3, 0, DOUBT),
    (FIRST, [14, 0], "Done", 0, 1, FIRST_ANSWER),
];

// Each disk by its place in the table.
fn on_failing_disks(alloc: Global) -> Result<(), Wrong> {
    for (mark, &(bytes, fails, status, number, added, taken)) in DISKS.iter().enumerate() {
        let drives = Drives::with_second(Drive {
            fails: &fails,
            ..Drive::EMPTY
        });
        let call = Call {
            mark,
            status,
            number,
            ..Call::run(bytes.as_bytes(), added, taken.as_bytes())
        };
        call_in_turn(alloc, &drives, &[call])?;
    }
    Ok(())
}

#[test]
fn failing_disks(rt: HostRuntime) {
    on_failing_disks(rt.alloc()).expect(&rt, "as wanted");
}

// Opening takes four calls of the first disk, and nothing takes a fifth one.
fn on_failing_firsts(alloc: Global) -> Result<(), Wrong> {
    for call in 1..=5u64 {
        let fails = [call];
        let drives = Drives {
            first: Drive {
                fails: &fails,
                ..Drive::EMPTY
            },
            ..Drives::EMPTY
        };
        let done = Call::run(FIRST.as_bytes(), 1, FIRST_ANSWER.as_bytes());
        let failed = Call {
            mark: call as usize,
            status: "DiskFault",
            number: 4,
            ..Call::run(FIRST.as_bytes(), 0, b"")
        };
        call_in_turn(alloc, &drives, &[if call < 5 { failed } else { done }])?;
    }
    Ok(())
}

#[test]
fn failing_first_disks(rt: HostRuntime) {
    on_failing_firsts(rt.alloc()).expect(&rt, "as wanted");
}
