//! What a run leaves on the second disk: the bytes of its journal, what a crash after each call of it leaves of an act,
//! and an act in doubt that another caller's act settles.

use std::alloc::Global;
use testkit_sessions::{
    CHAINED, Call, Drive, Drives, ENROLLED, ENROLS, Script, Wrong, call_in_turn,
};

fn written(alloc: Global) -> Result<(), Wrong> {
    let drives = Drives::with_second(Drive {
        left: Some(&CHAINED),
        ..Drive::EMPTY
    });
    let run = Call::run(ENROLS.as_bytes(), 1, ENROLLED.as_bytes());
    call_in_turn(alloc, &drives, &[run])
}

#[test]
fn journal_of_one_act(rt: HostRuntime) {
    written(rt.alloc()).expect(&rt, "as wanted");
}

const DOUBT: &str = "503 27\nrefused 16 DiskFault doubt\n";

const UNTOUCHED: &str = "503 31\nrefused 16 DiskFault untouched\n";

const NO_ENTRY: &str = "200 54\nentries 0\nisolated 0\nobjects 0\nretracted 0\naccepted 0\n";

const ONE_ENTRY: &str = "200 54\nentries 1\nisolated 0\nobjects 0\nretracted 0\naccepted 0\n";

/// For how many bytes the second disk has room, the status and its number, the entries, the sink's bytes, and the picks
/// by which the crash leaves the act. The file and a record of the disk's writes and syncs share the room, each
/// counting 32 bytes and those that it writes: opening takes four syncs and three writes of a byte, and so 227 bytes,
/// the parcel with its digest and a closed gate 141 and then the file 111, a sync 32, the open gate 33, and the last
/// sync 32. So each row has room for one call more of the act, and the crash comes after it.
const CRASHES: &[(usize, &str, u8, u64, &str, &[u64])] = &[
    (479, "Done", 0, 0, UNTOUCHED, &[]),
    (511, "DiskFault", 4, 0, DOUBT, &[]),
    // All of the gate is lost, or none of it.
    (544, "DiskFault", 4, 0, DOUBT, &[1, 3, 4]),
    (576, "Done", 0, 1, ENROLLED, &[0, 1, 2, 3, 4]),
];

/// A run with one act, a crash by this pick, and a run that asks for the tally.
fn crashed(
    alloc: Global,
    room: usize,
    stopped: &Call,
    pick: u64,
    tally: &'static str,
) -> Result<(), Wrong> {
    let drives = Drives::with_second(Drive {
        room,
        ..Drive::EMPTY
    });
    let stopped = Call {
        pick: Some(pick),
        ..*stopped
    };
    let opened = Call {
        mark: stopped.mark.saturating_add(10),
        ..Call::run(b"+founder-1 0 tally 0\n", 0, tally.as_bytes())
    };
    call_in_turn(alloc, &drives, &[stopped, opened])
}

/// Each row with each digit of a pick.
fn crashes(alloc: Global) -> Result<(), Wrong> {
    for (mark, &(room, status, number, added, taken, picks)) in CRASHES.iter().enumerate() {
        let stopped = Call {
            mark,
            status,
            number,
            ..Call::run(ENROLS.as_bytes(), added, taken.as_bytes())
        };
        for pick in 0..5u64 {
            let tally = if picks.contains(&pick) {
                ONE_ENTRY
            } else {
                NO_ENTRY
            };
            crashed(alloc, room, &stopped, pick, tally)?;
        }
    }
    Ok(())
}

#[test]
fn crash_after_each_call(rt: HostRuntime) {
    crashes(rt.alloc()).expect(&rt, "as wanted");
}

/// The observer's act comes before the officer's, which settles it: it was kept.
const ADDED: &str = r#"
> observer-1 1 submit80 $BATCH
< 503 refused 16 DiskFault doubt
> observer-1 0 tally
< 200 entries 5
isolated 0
objects 0
retracted 0
accepted 0
> +founder-1 6 enrol {"key":"observer-2","name":"Bob","role":"observer"}
< 200 receipt 7
caller 2
> observer-1 0 tally
< 200 entries 7
isolated 4
objects 0
retracted 0
accepted 4
> observer-1 1 submit80 $BATCH
< 200 receipt 6
accepted 4 refused 0
line 7 obs 1 track 1
line 8 obs 2 track 1
line 9 obs 3 track 1
line 10 obs 4 track 1
"#;

/// It wasn't kept, so that it comes after the officer's.
const DROPPED: &str = r#"
> observer-1 1 submit80 $BATCH
< 503 refused 16 DiskFault doubt
> +founder-1 6 enrol {"key":"observer-2","name":"Bob","role":"observer"}
< 200 receipt 6
caller 2
> observer-1 0 tally
< 200 entries 6
isolated 0
objects 0
retracted 0
accepted 0
> observer-1 1 submit80 $BATCH
< 200 receipt 7
accepted 4 refused 0
line 7 obs 1 track 1
line 8 obs 2 track 1
line 9 obs 3 track 1
line 10 obs 4 track 1
"#;

/// Opening and the founder's five requests take 29 calls of the second disk. The observer's act takes four, of which
/// this one fails.
fn settled(alloc: Global, fails: u64, transcript: &str, mark: usize) -> Result<(), Wrong> {
    let mut script = Script::begun(alloc)?;
    script.add_transcript(transcript)?;
    let fails = [fails];
    let drives = Drives::with_second(Drive {
        fails: &fails,
        ..Drive::EMPTY
    });
    let run = Call {
        mark,
        ..script.call(7)
    };
    call_in_turn(alloc, &drives, &[run])
}

fn settled_both_ways(alloc: Global) -> Result<(), Wrong> {
    settled(alloc, 33, ADDED, 33)?;
    settled(alloc, 32, DROPPED, 32)
}

#[test]
fn doubt_settled_by_another_caller(rt: HostRuntime) {
    settled_both_ways(rt.alloc()).expect(&rt, "as wanted");
}
