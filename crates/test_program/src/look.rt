//! What the mirror of an office holds, written line by line, after whole sessions.

use std::alloc::Global;
use std::sync::Wait;
use std::thread::Threads;
use testkit_program::call_in_turn;
use testkit_sessions::{Call, Script, Wrong};

/// Two tracklets, which become an object. Its first observation falls a thousandth of a second before midnight.
const OBJECT: &str = r#"
> observer-1 1 submitpsv $MIDNIGHT
< 200 $MIDNIGHT_TEXT
> +founder-1 6 designate {"tracklets":[1,2]}
< 200 receipt 7
object 2024 EA K24E00A
"#;

/// The object is numbered, and a tracklet about the first moment of 1970 stays isolated; of its station there are
/// observations before.
const NUMBERED: &str = r#"
> +founder-1 7 verdict {"object":"2024 EA","oppositions":4,"u":2}
< 200 receipt 8
> +founder-1 8 number {"first":620000,"most":1}
< 200 receipt 9
number 620000 2024 EA
> +founder-1 9 station {"code":"G96","from":"1925-01-01","name":"Mt. Lemmon","to":"2199-12-31"}
< 200 receipt 10
> observer-1 2 submitpsv
# version=2017
# observatory
! mpcCode G96
trkSub|mode|stn|obsTime|ra|dec|astCat
T1|CCD|G96|1969-12-31T23:59:59.999999999Z|12.0|-1.0|Gaia3
T1|CCD|G96|1970-01-01T00:00:00Z|12.01|-1.0|Gaia3
< 200 receipt 11
accepted 2 refused 0
line 5 obs 5 track 3
line 6 obs 6 track 3
"#;

/// The session of the object, by which the history grows by seven entries.
fn session(alloc: Global) -> Result<Script, Wrong> {
    let mut script = Script::begun(alloc)?;
    script.add_transcript(OBJECT)?;
    Ok(script)
}

/// The day after that midnight, the same days exchanged, and a day without observations.
const DAY: &[&str] = &["look", "--from", "2024-03-16", "--to", "2024-03-17"];

const EXCHANGED: &[&str] = &["look", "--to=2024-03-16", "--from=2024-03-17"];

const EMPTY: &[&str] = &["look", "--from", "2024-03-16", "--to", "2024-03-16"];

/// What is written of the day: a line of 42 bytes, and three of 90.
const LOOKED: &str = concat!(
    "object 2024 EA number none observations 4\n",
    "obs 2 object 2024 EA 2024-03-16T00:30:00.000000000Z 150.010000000000 -05.500000000000 703\n",
    "obs 3 object 2024 EA 2024-03-16T12:00:00.000000000Z 150.200000000000 -05.500000000000 703\n",
    "obs 4 object 2024 EA 2024-03-16T12:30:00.000000000Z 150.210000000000 -05.500000000000 703\n",
);

/// And of a day without observations.
const NONE: &str = "object 2024 EA number none observations 4\n";

/// What is written after the longer session of the last day before 1970, and of all days.
const LAST: &str = concat!(
    "object 2024 EA number 620000 observations 4\n",
    "obs 5 isolated 1969-12-31T23:59:59.999999999Z 12.000000000000 -01.000000000000 G96\n",
);

const ALL: &str = concat!(
    "object 2024 EA number 620000 observations 4\n",
    "obs 5 isolated 1969-12-31T23:59:59.999999999Z 12.000000000000 -01.000000000000 G96\n",
    "obs 6 isolated 1970-01-01T00:00:00.000000000Z 12.010000000000 -01.000000000000 G96\n",
    "obs 1 object 2024 EA 2024-03-15T23:59:59.999000000Z 150.000000000000 -05.500000000000 703\n",
    "obs 2 object 2024 EA 2024-03-16T00:30:00.000000000Z 150.010000000000 -05.500000000000 703\n",
    "obs 3 object 2024 EA 2024-03-16T12:00:00.000000000Z 150.200000000000 -05.500000000000 703\n",
    "obs 4 object 2024 EA 2024-03-16T12:30:00.000000000Z 150.210000000000 -05.500000000000 703\n",
);

/// A call with these words that is done, and writes this.
fn done<'a>(mark: usize, words: &'a [&'a str], taken: &'a str) -> Call<'a> {
    Call {
        mark,
        words,
        ..Call::run(b"", 0, taken.as_bytes())
    }
}

/// The call of `mirror` after the session.
fn mirrored<'a>(mark: usize) -> Call<'a> {
    done(mark, &["mirror"], "mirror 7 objects 1 sights 4\n")
}

/// A call with these words at which the mirror fails: nothing is written.
fn unseen<'a>(mark: usize, words: &'a [&'a str]) -> Call<'a> {
    Call {
        status: "MirrorFault",
        number: 10,
        ..done(mark, words, "")
    }
}

/// A look at the day of which this write fails: so many bytes were taken before.
fn cut<'a>(mark: usize, write: u64, bytes: usize) -> Call<'a> {
    let (taken, _) = LOOKED.as_bytes().split_at(LOOKED.len().min(bytes));
    Call {
        write,
        status: "WriteFault",
        number: 7,
        taken,
        ..done(mark, DAY, "")
    }
}

/// Nothing is seen before the first `mirror`; after it the object, and its observations from the first day on and
/// before the second. To look again changes nothing.
fn looks<R: Threads + Wait + Sync>(rt: &R, alloc: Global) -> Result<(), Wrong> {
    let script = session(alloc)?;
    let calls: [Call; 8] = [
        done(0, DAY, ""),
        script.call(7),
        done(2, DAY, ""),
        mirrored(3),
        done(4, DAY, LOOKED),
        done(5, EXCHANGED, NONE),
        done(6, EMPTY, NONE),
        done(7, DAY, LOOKED),
    ];
    call_in_turn(rt, alloc, &[], &calls)
}

/// An object with a number, observations of none, and days before 1970.
fn looks_at_others<R: Threads + Wait + Sync>(rt: &R, alloc: Global) -> Result<(), Wrong> {
    let mut script = session(alloc)?;
    script.add_transcript(NUMBERED)?;
    let calls: [Call; 4] = [
        script.call(11),
        done(1, &["mirror"], "mirror 11 objects 1 sights 6\n"),
        done(2, &["look", "--from=1969-12-31", "--to=1970-01-01"], LAST),
        done(3, &["look", "--from=1800-01-01", "--to=2199-12-31"], ALL),
    ];
    call_in_turn(rt, alloc, &[], &calls)
}

/// A look asks the mirror twice, for its objects and for its observations. At each a fault ends it; what the mirror
/// holds is there after it.
fn failing_mirror<R: Threads + Wait + Sync>(rt: &R, alloc: Global) -> Result<(), Wrong> {
    let script = session(alloc)?;
    let calls: [Call; 7] = [
        script.call(7),
        mirrored(1),
        unseen(2, DAY),
        unseen(3, DAY),
        done(4, DAY, LOOKED),
        unseen(5, &["mirror"]),
        done(6, DAY, LOOKED),
    ];
    call_in_turn(rt, alloc, &[2, 4, 7], &calls)
}

/// Each line is a write, and the sink fails at each of them.
fn failing_sink<R: Threads + Wait + Sync>(rt: &R, alloc: Global) -> Result<(), Wrong> {
    let script = session(alloc)?;
    let calls: [Call; 7] = [
        script.call(7),
        mirrored(1),
        cut(2, 1, 0),
        cut(3, 2, 42),
        cut(4, 3, 132),
        cut(5, 4, 222),
        Call {
            write: 5,
            ..done(6, DAY, LOOKED)
        },
    ];
    call_in_turn(rt, alloc, &[], &calls)
}

#[test]
fn looks_at_some_days(rt: HostRuntime) {
    looks(&rt, rt.alloc()).expect(&rt, "as wanted");
}

#[test]
fn looks_at_a_number_and_at_days_before_1970(rt: HostRuntime) {
    looks_at_others(&rt, rt.alloc()).expect(&rt, "as wanted");
}

#[test]
fn a_mirror_that_fails(rt: HostRuntime) {
    failing_mirror(&rt, rt.alloc()).expect(&rt, "as wanted");
}

#[test]
fn a_sink_that_fails(rt: HostRuntime) {
    failing_sink(&rt, rt.alloc()).expect(&rt, "as wanted");
}
