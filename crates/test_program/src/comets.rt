//! The register of comets beside an office, through the whole program, and every other command beside its disk.

use crate::workload::SUMMARY;
use std::alloc::Global;
use std::sync::Wait;
use std::thread::Threads;
use testkit_program::{call_beside_register, call_in_turn};
use testkit_sessions::{Call, Script, Wrong};

/// Two tracklets, which become an object.
const OBJECT: &str = r#"
> observer-1 1 submitpsv $MIDNIGHT
< 200 $MIDNIGHT_TEXT
> +founder-1 6 designate {"tracklets":[1,2]}
< 200 receipt 7
object 2024 EA K24E00A
"#;

/// The object gets a comet's name, once and for all, and observers' lines are turned into lines of the office: one
/// under that name, and one under a name that no comet has.
const FIRST_DAY: &str = r#"
> +founder-1 0 register
< 200
> +founder-1 1 comet {"kind":"C","object":"2024 EA"}
< 200 receipt 1
comet C/2024 E1 CK24E010
> +founder-1 1 comet {"kind":"C","object":"2024 EA"}
< 200 receipt 1
comet C/2024 E1 CK24E010
> +founder-1 0 translate
    CK24E010  C2024 03 16.12345 10 00 34.56 -05 30 01.2          19.5 V      703
    CK24E030  C2024 03 16.12345 10 00 34.56 -05 30 01.2          19.5 V      703
< 200
     K24E00A  C2024 03 16.12345 10 00 34.56 -05 30 01.2          19.5 V      703
    CK24E030  C2024 03 16.12345 10 00 34.56 -05 30 01.2          19.5 V      703
> +founder-1 2 comet {"kind":"C","object":"2024 EZ"}
< 404 refused 5 UnknownThing designation 2024 EZ
"#;

/// What was named is there at the next start.
const SECOND_DAY: &str = r#"
> +founder-1 0 register
< 200 comet C/2024 E1 CK24E010 object 2024 EA principal 2024 EA
> +founder-1 2 comet {"kind":"P","object":"2024 EA"}
< 409 refused 20 AlreadyComet C/2024 E1
> observer-1 0 register
< 401 refused 2 UnknownKey
> +founder-1 0 tally
< 400 refused 1 Unread verb
"#;

/// What the office is asked, and answers.
const TALLY: &str = r#"
> +founder-1 0 tally
< 200 entries 7
isolated 0
objects 4
retracted 0
accepted 4
"#;

const COMETS: &[&str] = &["comets", "--key", "+founder-1"];

const SERVE: &[&str] = &["serve", "--key", "+founder-1", "--connections", "1"];

const MIRROR: &[&str] = &["mirror"];

const LOOK: &[&str] = &["look", "--from", "2024-03-17", "--to", "2024-03-16"];

const WORKLOAD: &[&str] = &["workload", "--seed", "7", "--count", "3"];

const NO_KEY: &[&str] = &["comets"];

const EXPORT: &[&str] = &["export"];

/// A call with these words that is done, and writes this.
fn done<'a>(mark: usize, words: &'a [&'a str], taken: &'a [u8]) -> Call<'a> {
    Call {
        mark,
        words,
        ..Call::run(b"", 0, taken)
    }
}

/// A call with these words, which name no command.
fn unread<'a>(mark: usize, words: &'a [&'a str]) -> Call<'a> {
    Call {
        mark,
        words,
        status: "Usage",
        number: 2,
        ..Call::run(b"", 0, b"")
    }
}

/// A call with these words, the first write of which fails.
fn cut<'a>(mark: usize, words: &'a [&'a str]) -> Call<'a> {
    Call {
        mark,
        words,
        write: 1,
        status: "WriteFault",
        number: 7,
        ..Call::run(b"", 0, b"")
    }
}

/// The session of this transcript.
fn asked(alloc: Global, transcript: &str) -> Result<Script, Wrong> {
    let mut script = Script::new(alloc);
    script.add_transcript(transcript)?;
    Ok(script)
}

/// The session by which the office has an object: its history grows by seven entries.
fn session(alloc: Global) -> Result<Script, Wrong> {
    let mut script = Script::begun(alloc)?;
    script.add_transcript(OBJECT)?;
    Ok(script)
}

/// Two days of the register; between them the office is asked.
fn days<R: Threads + Wait + Sync>(rt: &R, alloc: Global) -> Result<(), Wrong> {
    let office = session(alloc)?;
    let first = asked(alloc, FIRST_DAY)?;
    let second = asked(alloc, SECOND_DAY)?;
    let calls: [Call; 5] = [
        done(0, COMETS, b""),
        office.call(7),
        Call {
            mark: 2,
            words: COMETS,
            ..first.call(1)
        },
        done(3, MIRROR, b"mirror 7 objects 1 sights 4\n"),
        Call {
            mark: 4,
            words: COMETS,
            ..second.call(0)
        },
    ];
    call_in_turn(rt, alloc, &[], &calls)
}

/// No other command calls the register's disk, whatever file it has.
fn others<R: Threads + Wait + Sync>(rt: &R, alloc: Global, file: &[u8]) -> Result<(), Wrong> {
    let office = session(alloc)?;
    let tally = asked(alloc, TALLY)?;
    let calls: [Call; 8] = [
        office.call(7),
        Call {
            mark: 1,
            ..tally.call(0)
        },
        done(2, MIRROR, b"mirror 7 objects 1 sights 4\n"),
        done(3, LOOK, b"object 2024 EA number none observations 4\n"),
        done(4, SERVE, b"connections 0\nentries 7\n"),
        done(5, WORKLOAD, SUMMARY.as_bytes()),
        unread(6, NO_KEY),
        cut(7, EXPORT),
    ];
    call_beside_register(rt, alloc, file, &calls)
}

#[test]
fn two_days_of_the_register(rt: HostRuntime) {
    days(&rt, rt.alloc()).expect(&rt, "as wanted");
}

#[test]
fn every_other_command(rt: HostRuntime) {
    for file in [b"".as_slice(), b"other".as_slice()] {
        others(&rt, rt.alloc(), file).expect(&rt, "as wanted");
    }
}
